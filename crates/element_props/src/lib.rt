//! The properties of one element of a plan: the forms that a value may have, the rows of a type's table, how properties
//! are read by them, and how they are written.
#![tactic(auto)]

mod again;
mod asking;
mod choice;
mod choices;
mod conditions;
mod error;
mod forms;
mod named;
mod patterns;
mod place;
mod prop;
mod props;
mod regex_patterns;
mod replies;
mod rows;
mod tables;
mod written;

pub use again::written_is_read_again;
pub use choice::{Choice, choice_of};
pub use choices::{AtEnd, Comparison, Field, OnError, Share, TestKind};
pub use conditions::bad_condition;
pub use error::{BuildError, PatternFault, What};
pub use named::NamedProp;
pub use patterns::{MakeError, Pattern, Patterns};
pub use place::prop_path;
pub use prop::{Pair, Prop, Word};
pub use props::own_properties;
pub use regex_patterns::RegexPatterns;
pub use rows::{Form, Presence, Row, Words, text_at};
pub use tables::table_rows;
pub use written::{NamedShown, Shown, written_members};
