// Variables that are set to the values of templates.

ghost use Rattle.std.specs.Prelude.{◌≡◌, OnErr};
ghost use Rattle.jm_base.specs.Run.{over};
ghost use Rattle.var_functions.specs.Came.{CameTo};
ghost use Rattle.var_functions.specs.FunctionState.{IsLater};
ghost use Rattle.trials.specs.Tried.{fine, past_limit};
ghost use Rattle.trials.specs.CutShort.{DoesPrefix};
ghost use Rattle.trials.specs.Pairs.{set_pair, set_pairs};

use element_props::Pair;
use jm_base::Outside;
use std::alloc::Global;
use var_changes::put_copy;
use var_functions::{UserState, VarError, expand};

/// Sets the variables of these pairs, in order: each value is expanded when its turn comes.
///
/// `ValueLimit` comes at the first of them whose value, or an argument of a call in it, would have more than 65,536 bytes, or
/// with which all names and values together would have more than 4,194,304. What functions keep is then what
/// the evaluated part left. A call that refuses, out of memory too, has set the variables that came before and no other.
pub fn set_pairs<O: Outside>(
    alloc: Global,
    pairs: &[Pair],
    state: &mut UserState,
    outside: &mut O,
) -> Result<(), VarError>
    ensures came { CameTo (O.account outside.old) (set_pairs pairs.now state.old) (O.account outside.new)
        (λ u. over (fine u state.new)) (over (past_limit state.new)) result }
    // After every answer, out of memory included.
    ensures later { IsLater state.old.fns state.new.fns }
    ensures cut { OnErr result (DoesPrefix set_pair (O.account outside.old) pairs.now state.old (O.account outside.new) state.new) }
{
    'pairs: for pair in pairs {
        match set_pair(alloc, pair, state, outside) {
            Ok(()) => {}
            Err(error) => return Err(error),
        }
    }
    Ok(())
}

// Sets one of them.
fn set_pair<O: Outside>(
    alloc: Global,
    pair: &Pair,
    state: &mut UserState,
    outside: &mut O,
) -> Result<(), VarError>
    ensures came { CameTo (O.account outside.old) (set_pair pair.now state.old) (O.account outside.new)
        (λ u. over (fine u state.new)) (over (past_limit state.new)) result }
    ensures later { IsLater state.old.fns state.new.fns }
    ensures kept { OnErr result (state.new.vars ≡ state.old.vars) }
{
    match expand(alloc, &pair.value, state, outside) {
        Ok(value) => put_copy(alloc, pair.name.bytes(), value.bytes(), &mut state.vars),
        Err(error) => Err(error),
    }
}
