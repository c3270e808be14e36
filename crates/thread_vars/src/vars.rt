// The variables of a thread.

ghost use Rattle.std.specs.Prelude.{◌≡◌, ◌≢◌, ◌↔◌, ◌++◌, length, decimal, false, IfSome, MatchBool, true, [], None, Some, ℕ, List, OnOk, OnErr, if◌then◌else◌};
ghost use Rattle.std.specs.Option.{option_copied};
ghost use Rattle.thread_vars.specs.Vars.{FitsIn, value_of, put_var, without_var, is_same, index_name, last_sample_ok, truth_text, Puts};
ghost use Rattle.thread_vars.specs.Beside.{with_beside, IsBeside};

use crate::error::VarError;
use crate::table::{MOST_TEXT, Table};
use itoa::Buffer;
use jm_base::{M, NoMemory, Text};
use name_map::write_over;
use std::alloc::Global;
use std::marker::Model;

/// The variables of a thread: a map from names to values.
///
/// A loop sets its index in each round, so the index that was set last stands beside the map: setting it again needs no
/// search.
pub struct Vars {
    table: Table,
    // The name of the element whose index was set last.
    element: Vec<u8>,
    // The name of its index variable.
    name: Vec<u8>,
    // Its value.
    digits: Text,
    // Whether the value of this name is the one here. The table has one of as many bytes.
    beside: bool,
    // Whether that may be an older one.
    ahead: bool,
}

// Written out, so that other crates let variables go by one call.
impl Drop for Vars {
    fn drop(self) {
        let Self {
            table: _table,
            element: _element,
            name: _name,
            digits: _digits,
            beside: _,
            ahead: _,
        } = self;
    }
}

impl Model for Vars {
    ghost use Rattle.std.specs.Prelude.{◌≡◌, true};
    ghost use Rattle.thread_vars.specs.Vars.{Variables, index_name};
    ghost use Rattle.thread_vars.specs.Beside.{with_beside, IsBeside};

    ghost Value = { Variables };

    ghost view = { λ v. with_beside v.beside v.name.items v.digits v.table };

    ghost invariant = { λ v. v.beside ≡ true → (v.name.items ≡ index_name v.element.items) × IsBeside v.ahead v.name.items v.digits v.table };
}

/// Whether the value of the name that is asked for stands beside the table.
fn is_beside(beside: bool, name: &[u8], asked: &[u8]) -> bool
    ensures { MatchBool result ((beside ≡ true) × (asked.now ≡ name.now)) (beside ≡ true → is_same asked.now name.now ≡ false) }
{
    beside && asked == name
}

/// Copies the name of an element, and makes that of its index variable.
fn name_index(own: &mut Vec<u8>, name: &mut Vec<u8>, element: &[u8]) -> M<()>
    ensures own { OnOk result (own.new.items ≡ element.now) }
    ensures name { OnOk result (name.new.items ≡ index_name element.now) }
{
    own.clear();
    own.extend_from_slice(element)?;
    name.clear();
    name.extend_from_slice(b"__jm__")?;
    name.extend_from_slice(element)?;
    name.extend_from_slice(b"__idx")?;
    Ok(())
}

/// Writes a value that stands beside the table into it, if the table has an older one. The table doesn't refuse that, as it
/// has a value of as many bytes; no clause says so. A call that refuses changes nothing.
fn settle(
    alloc: Global,
    beside: bool,
    ahead: bool,
    name: &[u8],
    digits: &Text,
    table: &mut Table,
) -> M<()>
    requires { beside ≡ true → IsBeside ahead name.now digits.now table.old }
    ensures ok { OnOk result (table.new ≡ with_beside beside name.now digits.now table.old) }
    ensures err { OnErr result (table.new ≡ table.old) }
{
    table.kept();
    if !beside || !ahead {
        return Ok(());
    }
    match table.put_copy(alloc, name, digits.bytes()) {
        Ok(()) => Ok(()),
        Err(_) => Err(NoMemory),
    }
}

impl Vars {
    /// No variables. What is put later is kept in memory of `alloc`.
    pub fn new(alloc: Global) -> Vars
        ensures { result ≡ [] }
    {
        Vars {
            table: Table::new(alloc),
            element: Vec::new(alloc),
            name: Vec::new(alloc),
            digits: Text::of(Vec::new(alloc)),
            beside: false,
            ahead: false,
        }
    }

    /// The value of a name, where it is defined. The time is that of a search by a hash.
    pub fn get(&self, name: &[u8]) -> Option<&Text>
        ensures { option_copied result ≡ value_of name.now self.now }
    {
        if is_beside(self.beside, &self.name, name) {
            return Some(&self.digits);
        }
        self.table.get(name)
    }

    /// Sets a variable, in place of the value that it had. The time is that of a search by a hash. A variable
    /// that is defined already takes no memory.
    ///
    /// `ValueLimit` comes where the value would have more than 65,536 bytes, or all names and values together more than
    /// 4,194,304, without the old value of this name.
    pub fn put(&mut self, name: Text, value: Text) -> Result<(), VarError>
        ensures exact { Puts (put_var name value self.old) self.old self.new result }
        ensures values { OnOk result ((other : List ℕ) → value_of other self.new
            ≡ (if is_same other name then Some value else value_of other self.old)) }
        ensures replaces { result ≡ Err VarError.NoMemory → value_of name self.old ≡ None }
    {
        if !self.beside {
            return self.table.put(name, value);
        }
        self.table.kept();
        let own = is_beside(self.beside, &self.name, name.bytes());
        match self.table.put(name, value) {
            Ok(()) => {
                self.table.kept();
                if own {
                    self.beside = false;
                }
                Ok(())
            }
            Err(error) => Err(error),
        }
    }

    /// Sets a variable to a copy of a value, in place of the value that it had. It takes no memory where that has as many bytes,
    /// nor where it has more and at most 64. The time is that of a search by a hash. A call that refuses changes nothing.
    ///
    /// `ValueLimit` comes where the value would have more than 65,536 bytes, or all names and values together more than
    /// 4,194,304, without the old value of this name.
    pub fn put_copy(&mut self, alloc: Global, name: &[u8], value: &[u8]) -> Result<(), VarError>
        ensures exact { Puts (put_var name.now value.now self.old) self.old self.new result }
        ensures memory { IfSome (value_of name.now self.old) (λ old. FitsIn (length old) (length value.now) → result ≢ Err VarError.NoMemory) }
    {
        if !self.beside {
            return self.table.put_copy(alloc, name, value);
        }
        self.table.kept();
        let own = is_beside(self.beside, &self.name, name);
        match self.table.put_copy(alloc, name, value) {
            Ok(()) => {
                self.table.kept();
                if own {
                    self.beside = false;
                }
                Ok(())
            }
            Err(error) => Err(error),
        }
    }

    /// Sets the index variable of an element of this name, `__jm__NAME__idx`, to an index, as `put_copy` sets a variable to
    /// its decimal text, but without a search where the same one was set last and the index has as many digits.
    ///
    /// `ValueLimit` comes where all names and values together would have more than 4,194,304 bytes, without the old value of
    /// this name.
    pub fn put_index(&mut self, alloc: Global, element: &[u8], index: u64) -> Result<(), VarError>
        ensures { Puts (put_var (index_name element.now) (decimal index) self.old) self.old self.new result }
    {
        let mut digits = Buffer::new();
        let value = digits.format(index).as_bytes();
        if self.beside
            && value.len() == self.digits.bytes().len()
            && self.element.as_slice() == element
        {
            self.table.kept();
            write_over(alloc, &mut self.digits, value)?;
            self.ahead = true;
            return Ok(());
        }
        settle(
            alloc,
            self.beside,
            self.ahead,
            &self.name,
            &self.digits,
            &mut self.table,
        )?;
        self.beside = false;
        name_index(&mut self.element, &mut self.name, element)?;
        self.table.put_copy(alloc, &self.name, value)?;
        self.table.kept();
        if write_over(alloc, &mut self.digits, value).is_ok() {
            self.beside = true;
            self.ahead = false;
        }
        Ok(())
    }

    /// Sets the variable `JMeterThread.last_sample_ok` to `true` or `false`, as `put_copy` sets it, but without a search where
    /// the last call of this kind said the same.
    ///
    /// `ValueLimit` comes where all names and values together would have more than 4,194,304 bytes, without the old value of
    /// this name. A call that refuses changes nothing.
    pub fn put_last_ok(&mut self, alloc: Global, ok: bool) -> Result<(), VarError>
        ensures { Puts (put_var last_sample_ok (truth_text ok) self.old) self.old self.new result }
    {
        self.table.kept();
        self.table.put_last_ok(alloc, ok)?;
        self.table.kept();
        Ok(())
    }

    /// Whether a name is defined with this value, so that setting it again changes nothing. The time is that of a
    /// search by a hash. A value of more than 65,536 bytes is none that can be set.
    pub fn is_set(&self, name: &[u8], value: &[u8]) -> bool
        ensures { (result ≡ true) ↔ (put_var name.now value.now self.now ≡ Some self.now) }
    {
        if value.len() > MOST_TEXT {
            return false;
        }
        self.table.kept();
        match self.get(name) {
            Some(old) => old.bytes() == value,
            None => false,
        }
    }

    /// Takes a variable out, where it is defined. It takes no memory.
    pub fn remove(&mut self, name: &[u8])
        ensures exact { self.new ≡ without_var name.now self.old }
        ensures values { (other : List ℕ) → value_of other self.new
            ≡ (if is_same other name.now then None else value_of other self.old) }
    {
        if !self.beside {
            self.table.remove(name);
            return;
        }
        self.table.kept();
        let removed = is_beside(self.beside, &self.name, name);
        self.table.remove(name);
        self.table.kept();
        if removed {
            self.beside = false;
        }
    }
}
