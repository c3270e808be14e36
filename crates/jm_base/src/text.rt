// Texts and lists that contracts see as plain lists.

ghost use Rattle.std.specs.Prelude.{◌≡◌, IfOk, List, ℕ};

use crate::errors::M;
use std::alloc::Global;
use std::marker::Model;

/// Bytes that nothing changes any more. They need not be UTF-8.
#[derive(Drop)]
pub struct Text {
    bytes: Vec<u8>,
}

impl Model for Text {
    ghost Value = { List ℕ };

    ghost view = { λ t. t.bytes.items };
}

impl Text {
    /// A text of its own with these bytes.
    pub fn new(alloc: Global, bytes: &[u8]) -> M<Text>
        ensures { IfOk result (λ t. t ≡ bytes.now) }
    {
        Ok(Text {
            bytes: Vec::from_slice(alloc, bytes)?,
        })
    }

    /// A text of bytes that are there already. It takes no memory.
    pub fn of(bytes: Vec<u8>) -> Text
        ensures { result ≡ bytes.items }
    {
        Text { bytes }
    }

    /// The bytes to read.
    pub fn bytes(&self) -> &[u8]
        ensures { result.now ≡ self.now }
    {
        &self.bytes
    }

    /// A second text with the same bytes.
    pub fn copy(&self, alloc: Global) -> M<Text>
        ensures { IfOk result (λ t. t ≡ self.now) }
    {
        Text::new(alloc, &self.bytes)
    }

    /// The bytes themselves. It takes no memory.
    pub fn into_vec(self) -> Vec<u8>
        ensures { result.items ≡ self }
    {
        self.bytes
    }
}

/// Values in order that nothing changes any more.
#[derive(Drop)]
pub struct Items<T: Drop> {
    values: Vec<T>,
}

impl<T: Drop> Model for Items<T> {
    ghost Value = { List T };

    ghost view = { λ s. s.values.items };
}

impl<T: Drop> Items<T> {
    /// The values of a `Vec`. It takes no memory.
    pub fn of(values: Vec<T>) -> Items<T>
        ensures { result ≡ values.items }
    {
        Items { values }
    }

    /// The values to read.
    pub fn as_slice(&self) -> &[T]
        ensures { result.now ≡ self.now }
    {
        &self.values
    }

    /// The values themselves. It takes no memory.
    pub fn into_vec(self) -> Vec<T>
        ensures { result.items ≡ self }
    {
        self.values
    }
}
