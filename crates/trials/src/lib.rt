//! What a thread tries over its outside: a text, a value or its variables may be past their limit. And the variables of
//! pairs, whose values are expanded and set one after another.
#![tactic(auto)]

mod pairs;

pub use pairs::set_pairs;
