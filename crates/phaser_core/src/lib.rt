//! The recorder's words and steps as plain data: whatever the order of the atomic steps of its writers and its
//! reporter, each sample counts whole in exactly one interval, and never in one that is closed already.
#![tactic(auto)]

pub mod applied;
pub mod layout;
pub mod machine;
mod parts;
mod reporter;
pub mod step;
pub mod view;
pub mod writer;

pub use applied::Applied;
pub use machine::Core;
pub use view::{Event, Joined, Numbers, ReporterStage, ReporterView, Stage, View, WriterView};
pub use writer::WriterState;
