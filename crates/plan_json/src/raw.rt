// One element as it is written, its properties not yet read.

use jm_base::Text;
use serde_json::Value;

/// An element of a plan as it is written: whether there is such a type, and what its properties mean, is not looked at.
#[derive(Drop)]
pub struct RawElement {
    /// The text at `type`.
    pub kind: Text,
    /// The text at `name`, or the type's text where there is none.
    pub name: Text,
    /// What is at `enabled`, or true.
    pub enabled: bool,
    /// The object at `props`, or an empty one.
    pub props: Value,
    /// The elements in the list at `children`, in its order, disabled ones among them.
    pub children: Vec<RawElement>,
}
