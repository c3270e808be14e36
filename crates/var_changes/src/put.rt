// Variables that are set.

ghost use Rattle.std.specs.Prelude.{◌≡◌, Some, Ok, map};
ghost use Rattle.thread_vars.specs.Vars.{put_var, Puts};
ghost use Rattle.var_changes.specs.Changes.{Changes, setting};

use jm_base::Text;
use std::alloc::Global;
use var_functions::{VarError, Vars};

/// A variable that is to be set.
#[derive(Drop)]
pub struct Variable {
    pub name: Text,
    pub value: Text,
}

/// Sets variables, one after another.
///
/// `ValueLimit` comes at the first of them whose value would have more than 65,536 bytes, or with which all names and values
/// together would have more than 4,194,304: those before it are set then, and neither it nor those after it. Out of
/// memory a prefix of them is set.
pub fn put_all(variables: Vec<Variable>, vars: &mut Vars) -> Result<(), VarError>
    ensures exact { Changes (map setting variables.items) vars.old vars.new result }
{
    'variables: for variable in variables {
        vars.put(variable.name, variable.value)?;
    }
    Ok(())
}

/// Sets a variable to copies of a name and a value.
///
/// `ValueLimit` comes where the value would have more than 65,536 bytes, or all names and values together more than
/// 4,194,304. A call that refuses changes nothing. A variable that has this value already takes no memory.
pub fn put_copy(alloc: Global, name: &[u8], value: &[u8], vars: &mut Vars) -> Result<(), VarError>
    ensures exact { Puts (put_var name.now value.now vars.old) vars.old vars.new result }
    ensures memory { put_var name.now value.now vars.old ≡ Some vars.old → result ≡ Ok tt }
{
    if vars.is_set(name, value) {
        return Ok(());
    }
    vars.put_copy(alloc, name, value)
}
