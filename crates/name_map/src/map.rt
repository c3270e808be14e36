// Texts by their names.

ghost use Rattle.std.specs.Prelude.{◌≡◌, length, is_some, None, [], IfOk, IfSome, IsOk, OnOk, OnErr, if◌then◌else◌};
ghost use Rattle.std.specs.Option.{option_copied, option_map};
ghost use Rattle.name_map.specs.Names.{FitsIn, IsInOrder, value_of, with_var, without_var};

use crate::text::write_over;
use jm_base::{M, NoMemory, Text};
use std::alloc::Global;
use std::collections::HashMap;
use std::hash::{BuildHasherDefault, FoldHasher};
use std::marker::Model;

/// A map from names to texts. Contracts see it as the list of its pairs in the order of the names' bytes.
///
/// A name is found by its hash, whose seed is fixed: whoever picks all names can make their search slow.
#[derive(Drop)]
pub struct NameMap {
    pairs: HashMap<Vec<u8>, Text, BuildHasherDefault<FoldHasher>>,
}

impl Model for NameMap {
    ghost use Rattle.name_map.specs.Names.{Variables, listed};

    ghost Value = { Variables };

    ghost view = { λ m. listed m.pairs.entries };
}

impl NameMap {
    /// No names. What is put later is kept in memory of `alloc`.
    pub fn new(alloc: Global) -> NameMap
        ensures { result ≡ [] }
    {
        NameMap {
            pairs: HashMap::new(alloc),
        }
    }

    /// The value of a name, where it is defined.
    pub fn get(&self, name: &[u8]) -> Option<&Text>
        ensures { option_copied result ≡ value_of name.now self.now }
    {
        self.pairs.get(name)
    }

    /// Sets the value of a name, and answers the one that it had. Out of memory all stays; a name that is defined takes none.
    pub fn insert(&mut self, name: Text, value: Text) -> M<Option<Text>>
        ensures old { IfOk result (λ old. old ≡ value_of name self.old) }
        ensures ok { OnOk result (self.new ≡ with_var name value self.old) }
        ensures err { OnErr result (self.new ≡ self.old) }
        ensures absent { OnErr result (value_of name self.old ≡ None) }
        ensures ordered { IsInOrder self.new }
    {
        match self.pairs.insert(name.into_vec(), value) {
            Ok(old) => Ok(old),
            Err(_) => Err(NoMemory),
        }
    }

    /// Writes a value over that of a name, where it is defined, and answers how many bytes that had. Out of memory all stays;
    /// a value of as many bytes takes none, nor one of fewer in the place of at most 64.
    pub fn write(&mut self, alloc: Global, name: &[u8], value: &[u8]) -> M<Option<usize>>
        ensures old { IfOk result (λ old. old ≡ option_map length (value_of name.now self.old)) }
        ensures ok { IfOk result (λ old. self.new ≡ (if is_some old then with_var name.now value.now self.old else self.old)) }
        ensures undefined { value_of name.now self.old ≡ None → IsOk result }
        ensures err { OnErr result (self.new ≡ self.old) }
        ensures memory { IfSome (value_of name.now self.old) (λ old. FitsIn (length old) (length value.now) → IsOk result) }
        ensures ordered { IsInOrder self.new }
    {
        let Some(old) = self.pairs.get_mut(name) else {
            return Ok(None);
        };
        let before = old.bytes().len();
        write_over(alloc, old, value)?;
        Ok(Some(before))
    }

    /// Takes a name out, where it is defined, and answers the value that it had.
    pub fn remove(&mut self, name: &[u8]) -> Option<Text>
        ensures old { result ≡ value_of name.now self.old }
        ensures removed { self.new ≡ without_var name.now self.old }
        ensures ordered { IsInOrder self.new }
    {
        self.pairs.remove(name)
    }
}
