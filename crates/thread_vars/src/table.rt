// Variables in a map, how many bytes they have, and what is known of the last sample.

ghost use Rattle.std.specs.Prelude.{◌≡◌, ◌≢◌, ◌≤◌, ◌<◌, ◌^◌, ◌-◌, ◌+◌, length, true, false, IfSome, MatchBool, [], None, Some, ℕ, List, OnOk, if◌then◌else◌};
ghost use Rattle.std.specs.Option.{option_copied};
ghost use Rattle.thread_vars.specs.Vars.{FitsIn, IsKept, value_of, put_var, without_var, is_same, Puts, bytes_at, bytes_of, bytes_found, most_bytes, last_sample_ok, truth_text};

use crate::error::VarError;
use jm_base::Text;
use name_map::NameMap;
use std::alloc::Global;
use std::marker::Model;

/// How many bytes a value may have, and so an argument of a function and a whole expansion.
pub const MOST_TEXT: usize = 65536;

/// How many bytes all names and values of a thread may have.
const MOST_BYTES: usize = 4194304;

/// The variable that says whether the last sample succeeded.
const LAST_SAMPLE_OK: &[u8] = b"JMeterThread.last_sample_ok";

/// A map from names to values.
#[derive(Drop)]
pub struct Table {
    pairs: NameMap,
    bytes: usize,
    // What the variable of the last sample says, where that is known without a search.
    last_ok: Option<bool>,
}

impl Model for Table {
    ghost use Rattle.thread_vars.specs.Vars.{Variables, IsKept};
    ghost use Rattle.thread_vars.specs.Beside.{IsKnown};

    ghost Value = { Variables };

    ghost view = { λ v. v.pairs };

    ghost invariant = { λ v. IsKept v.bytes v.pairs × IsKnown v.last_ok v.pairs };
}

/// How many bytes a name of that many and its value have, where it is defined.
fn bytes_found(named: usize, value: &Option<Text>) -> usize
    requires { IfSome value.now (λ v. length v + named ≤ 2 ^ 64 - 1) }
    ensures { (name : List ℕ) → length name ≡ named → result ≡ bytes_found name value.now }
{
    match value {
        Some(value) => named + value.bytes().len(),
        None => 0,
    }
}

/// What stays known of the last sample when a variable of this name changes.
fn known_after(known: Option<bool>, name: &[u8]) -> Option<bool>
    ensures { IfSome result (λ ok. (known ≡ Some ok) × (is_same last_sample_ok name.now ≡ false)) }
{
    if name == LAST_SAMPLE_OK { None } else { known }
}

/// Whether the last sample is known to have succeeded, or not to have.
fn is_known(known: Option<bool>, ok: bool) -> bool
    ensures { result ≡ true → known ≡ Some ok }
{
    match known {
        Some(known) => known == ok,
        None => false,
    }
}

/// `true` or `false`, as variables and values of functions say it.
pub fn truth_text(ok: bool) -> &'static [u8]
    ensures { result.now ≡ truth_text ok }
{
    if ok { b"true" } else { b"false" }
}

impl Table {
    /// No variables. What is put later is kept in memory of `alloc`.
    pub fn new(alloc: Global) -> Table
        ensures { result ≡ [] }
    {
        Table {
            pairs: NameMap::new(alloc),
            bytes: 0,
            last_ok: None,
        }
    }

    /// It does nothing. It says that the names are in order, each once, and that their bytes are within the limit.
    pub fn kept(&self)
        ensures { IsKept (bytes_of self.now) self.now }
    {
        let _bytes = self.bytes;
    }

    /// The value of a name, where it is defined. The time is that of a search by a hash.
    pub fn get(&self, name: &[u8]) -> Option<&Text>
        ensures { option_copied result ≡ value_of name.now self.now }
    {
        self.pairs.get(name)
    }

    /// How many bytes the name and its value have, where it is defined.
    fn bytes_at(&self, name: &[u8]) -> usize
        ensures { result ≡ bytes_at name.now self.now }
    {
        match self.pairs.get(name) {
            Some(value) => name.len() + value.bytes().len(),
            None => 0,
        }
    }

    /// Whether that many bytes have room in place of those of the name and its value. Only near the limit the name is looked up.
    fn has_room(&self, name: &[u8], added: usize) -> bool
        requires { added ≤ 2 ^ 63 + 65536 }
        ensures { MatchBool result (bytes_of self.now - bytes_at name.now self.now + added ≤ most_bytes)
            (most_bytes < bytes_of self.now - bytes_at name.now self.now + added) }
    {
        let most = self.bytes + added;
        most <= MOST_BYTES || most - self.bytes_at(name) <= MOST_BYTES
    }

    /// Sets a variable, in place of the value that it had. The time is that of a search by a hash. A variable
    /// that is defined already takes no memory.
    ///
    /// `ValueLimit` comes where the value would have more than 65,536 bytes, or all names and values together more than
    /// 4,194,304, without the old value of this name.
    pub fn put(&mut self, name: Text, value: Text) -> Result<(), VarError>
        ensures exact { Puts (put_var name value self.old) self.old self.new result }
        ensures values { OnOk result ((other : List ℕ) → value_of other self.new
            ≡ (if is_same other name then Some value else value_of other self.old)) }
        ensures replaces { result ≡ Err VarError.NoMemory → value_of name self.old ≡ None }
    {
        let length = value.bytes().len();
        if length > MOST_TEXT {
            return Err(VarError::ValueLimit);
        }
        let named = name.bytes().len();
        if !self.has_room(name.bytes(), named + length) {
            return Err(VarError::ValueLimit);
        }
        let known = known_after(self.last_ok, name.bytes());
        let old = self.pairs.insert(name, value)?;
        self.bytes = self.bytes - bytes_found(named, &old) + (named + length);
        self.last_ok = known;
        Ok(())
    }

    /// Sets a variable to a copy of a value, in place of the value that it had. It takes no memory where that has as many bytes,
    /// nor where it has more and at most 64. The time is that of a search by a hash. A call that refuses changes nothing.
    ///
    /// `ValueLimit` comes where the value would have more than 65,536 bytes, or all names and values together more than
    /// 4,194,304, without the old value of this name.
    pub fn put_copy(&mut self, alloc: Global, name: &[u8], value: &[u8]) -> Result<(), VarError>
        ensures exact { Puts (put_var name.now value.now self.old) self.old self.new result }
        ensures memory { IfSome (value_of name.now self.old) (λ old. FitsIn (length old) (length value.now) → result ≢ Err VarError.NoMemory) }
    {
        let length = value.len();
        if length > MOST_TEXT {
            return Err(VarError::ValueLimit);
        }
        if !self.has_room(name, name.len() + length) {
            return Err(VarError::ValueLimit);
        }
        let known = known_after(self.last_ok, name);
        let Some(before) = self.pairs.write(alloc, name, value)? else {
            return self.put(Text::new(alloc, name)?, Text::new(alloc, value)?);
        };
        self.bytes = self.bytes - before + length;
        self.last_ok = known;
        Ok(())
    }

    /// Sets whether the last sample succeeded, as `put_copy` sets a variable to `true` or `false`, but without a search where
    /// the last call of this kind said the same.
    pub fn put_last_ok(&mut self, alloc: Global, ok: bool) -> Result<(), VarError>
        ensures { Puts (put_var last_sample_ok (truth_text ok) self.old) self.old self.new result }
    {
        if is_known(self.last_ok, ok) {
            return Ok(());
        }
        self.put_copy(alloc, LAST_SAMPLE_OK, truth_text(ok))?;
        self.last_ok = Some(ok);
        Ok(())
    }

    /// Takes a variable out, where it is defined. It takes no memory.
    pub fn remove(&mut self, name: &[u8])
        ensures exact { self.new ≡ without_var name.now self.old }
        ensures values { (other : List ℕ) → value_of other self.new
            ≡ (if is_same other name.now then None else value_of other self.old) }
    {
        let old = self.pairs.remove(name);
        self.bytes -= bytes_found(name.len(), &old);
        self.last_ok = known_after(self.last_ok, name);
    }
}
