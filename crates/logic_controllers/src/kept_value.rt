// A value that is kept for a while, and its memory for the next one.

ghost use Rattle.std.specs.Prelude.{◌≡◌, Some, None, OnOk, OnErr};
ghost use Rattle.std.specs.Option.{option_copied};

use jm_base::{M, Text};
use name_map::write_over;
use std::alloc::Global;
use std::marker::Model;

/// The value of a round that is to be opened, or none. Contracts see it as an `Option` of its bytes. When the value goes, its
/// memory stays for the next one.
#[derive(Drop)]
pub struct KeptValue {
    text: Option<Text>,
    is_kept: bool,
}

impl Model for KeptValue {
    ghost use Rattle.std.specs.Prelude.{List, ℕ, Option, Some, None, if◌then◌else◌};

    ghost Value = { Option (List ℕ) };

    ghost view = { λ k. if k.is_kept then k.text else None };
}

impl KeptValue {
    /// No value, and no memory.
    pub(crate) fn none() -> KeptValue
        ensures { result ≡ None }
    {
        KeptValue {
            text: None,
            is_kept: false,
        }
    }

    /// The value, where there is one.
    pub(crate) fn get(&self) -> Option<&[u8]>
        ensures { option_copied result ≡ self.now }
    {
        match &self.text {
            Some(text) if self.is_kept => Some(text.bytes()),
            _ => None,
        }
    }

    /// Keeps a copy of a value. Out of memory all stays.
    pub(crate) fn keep(&mut self, alloc: Global, value: &[u8]) -> M<()>
        ensures ok { OnOk result (self.new ≡ Some value.now) }
        ensures err { OnErr result (self.new ≡ self.old) }
    {
        match &mut self.text {
            Some(text) => write_over(alloc, text, value)?,
            None => self.text = Some(Text::new(alloc, value)?),
        }
        self.is_kept = true;
        Ok(())
    }

    /// Keeps the value no more. Its memory stays.
    pub(crate) fn forget(&mut self)
        ensures { self.new ≡ None }
    {
        self.is_kept = false;
    }
}
