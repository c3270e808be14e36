//! A flat table of a plan: for each element where a run goes on from it, and for each sampler the elements that apply to it.
//! Both are computed once, and what is looked up takes no memory.
#![tactic(auto)]

mod element_links;
mod hanging;
mod kept_packages;
mod looping;
mod siblings;

pub use element_links::Links;
pub use kept_packages::NodeTable;
