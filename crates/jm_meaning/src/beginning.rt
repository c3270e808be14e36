// What a thread begins with, and its first variables.

ghost use Rattle.std.specs.Prelude.{◌≡◌, ◌<◌, length, IfOk, OnErr};
ghost use Rattle.jm_base.specs.Run.{over};
ghost use Rattle.element_tree.specs.Tree.{threads_of};
ghost use Rattle.jm_base.specs.declared.types.End.TheVariants.{ValueLimit as PastValueLimit};
ghost use Rattle.var_functions.specs.Came.{CameTo};
ghost use Rattle.var_functions.specs.FunctionState.{IsLater};
ghost use Rattle.jm_meaning.specs.State.{Own, state_of, normal, stopped};
ghost use Rattle.jm_meaning.specs.Beginning.{first_user, set_first, set_all, user_variables};
ghost use Rattle.jm_meaning.specs.Cut.{SetsPrefix};

use element_tree::{Element, Kind, Plan};
use jm_base::{M, Outside};
use std::alloc::Global;
use trials::set_pairs;
use var_changes::put_copy;
use var_functions::{FnState, Props, UserState, VarError, Vars};

/// What the templates of a thread read and change, before anything is set. Threads are numbered from 0 over all groups; each
/// takes a copy of the properties, and its random words are a stream of their own of this seed. It is refused only out of
/// memory.
pub fn first_user(alloc: Global, plan: &Plan, thread: u16, seed: u64, props: &Props) -> M<UserState>
    requires { thread < length (threads_of plan.now) }
    ensures { IfOk result (λ user. user ≡ first_user plan.now thread seed props.now) }
{
    let number = plan.thread(thread).number;
    let fns = FnState::new(alloc, props, number, u64::from(thread), seed)?;
    let vars = Vars::new(alloc);
    Ok(UserState { vars, fns })
}

/// Sets the user defined variables of a plan, wherever they stand, in tree order: each value is expanded when its turn
/// comes, and a later one of the same name wins (the manual's "User Defined Variables"). After them it sets
/// `JMeterThread.last_sample_ok` to `true`.
///
/// `ValueLimit` comes where a value or the variables would be past a limit. A call that refuses, out of memory too, has
/// set the variables that came before and no other.
pub fn set_first<O: Outside>(
    alloc: Global,
    plan: &Plan,
    state: &mut UserState,
    outside: &mut O,
) -> Result<(), VarError>
    ensures came { (own : Own) → CameTo (O.account outside.old) (set_first plan.now.elements (state_of state.old own)) (O.account outside.new)
        (λ u. over (normal (state_of state.new own))) (over (stopped PastValueLimit (state_of state.new own))) result }
    ensures later { IsLater state.old.fns state.new.fns }
    ensures cut { OnErr result (SetsPrefix (O.account outside.old) (user_variables plan.now.elements) state.old (O.account outside.new) state.new) }
{
    match set_elements(alloc, plan.elements(), state, outside) {
        Ok(()) => put_copy(
            alloc,
            b"JMeterThread.last_sample_ok",
            b"true",
            &mut state.vars,
        ),
        Err(error) => Err(error),
    }
}

fn set_elements<O: Outside>(
    alloc: Global,
    elements: &[Element],
    state: &mut UserState,
    outside: &mut O,
) -> Result<(), VarError>
    ensures came { (own : Own) → CameTo (O.account outside.old) (set_all (user_variables elements.now) (state_of state.old own)) (O.account outside.new)
        (λ u. over (normal (state_of state.new own))) (over (stopped PastValueLimit (state_of state.new own))) result }
    ensures later { IsLater state.old.fns state.new.fns }
    ensures cut { OnErr result (SetsPrefix (O.account outside.old) (user_variables elements.now) state.old (O.account outside.new) state.new) }
{
    for element in elements {
        if let Kind::UserVariables { vars } = &element.kind {
            match set_pairs(alloc, vars.as_slice(), state, outside) {
                Ok(()) => {}
                Err(error) => return Err(error),
            }
        }
    }
    Ok(())
}
