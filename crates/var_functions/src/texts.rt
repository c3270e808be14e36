// The texts that functions take and give.

ghost use Rattle.std.specs.Prelude.{◌≡◌, []};

use jm_base::Text;
use std::borrow::CowSlice;
use std::marker::Model;

/// The text of an argument of a call: one that stands in the plan or in a variable, or one that was formed for the call.
#[derive(Drop)]
pub(crate) struct Argument<'a> {
    text: CowSlice<'a, u8>,
}

impl<'a> Model for Argument<'a> {
    ghost use Rattle.std.specs.Prelude.{List, ℕ};
    ghost use Rattle.std.specs.Cow.{cow_slice_items};

    ghost Value = { List ℕ };

    ghost view = { λ a. cow_slice_items a.text };
}

impl<'a> Default for Argument<'a> {
    ghost is_default = { λ a. a ≡ [] };

    fn default() -> Argument<'a> {
        Argument::lent(&[])
    }
}

impl<'a> Argument<'a> {
    /// A text that stands elsewhere.
    pub(crate) fn lent(text: &'a [u8]) -> Argument<'a>
        ensures { result ≡ text.entry.now }
    {
        Argument {
            text: CowSlice::Borrowed(text),
        }
    }

    /// A text of its own.
    pub(crate) fn formed(text: Vec<u8>) -> Argument<'a>
        ensures { result ≡ text.items }
    {
        Argument {
            text: CowSlice::Owned(text),
        }
    }

    /// The bytes to read.
    pub(crate) fn bytes(&self) -> &[u8]
        ensures { result.now ≡ self.now }
    {
        self.text.as_slice()
    }
}

/// The value of a function, whose text is formed where it is written.
#[derive(Drop)]
pub(crate) enum Value<'a> {
    /// A number, whose text is decimal.
    Number(i128),
    /// A text that stands elsewhere.
    Lent(&'a [u8]),
    /// A text of its own.
    Formed(Text),
}
