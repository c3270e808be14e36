// The rounds of a looping controller: how many have begun, and the children of the last one.

ghost use Rattle.std.specs.Prelude.{◌≡◌, ◌+◌, ◌-◌, ◌^◌, ◌<◌, OnOk, OnErr, decimal};
ghost use Rattle.thread_vars.specs.Vars.{put_var, index_name, Puts};
ghost use Rattle.logic_controllers.specs.ControllerRounds.{before_rounds, round_begun, opened_vars, opened};

use cursor_steps::Pass;
use std::alloc::Global;
use var_functions::{VarError, Vars};

/// The rounds of a Loop, While or ForEach.
#[derive(Clone, Copy)]
pub struct Rounds {
    /// How many rounds have begun since the controller was entered.
    pub begun: u32,
    /// Whether the variables of the round that began last are still to be set.
    pub opening: bool,
    /// The children in this round.
    pub pass: Pass,
}

/// Sets the index variable of an element of this name, `__jm__NAME__idx`, to the index of a round. A call that refuses changes
/// nothing; `ValueLimit` comes where the variables would pass their limit.
pub fn set_index(alloc: Global, name: &[u8], index: u32, vars: &mut Vars) -> Result<(), VarError>
    ensures { Puts (put_var (index_name name.now) (decimal index) vars.old) vars.old vars.new result }
{
    vars.put_index(alloc, name, u64::from(index))
}

impl Rounds {
    /// Before the first round.
    pub(crate) fn before_first(children: u16) -> Rounds
        ensures { result ≡ before_rounds children }
    {
        Rounds {
            begun: 0,
            opening: false,
            pass: Pass::none_left(children),
        }
    }

    /// Begins one more round.
    pub(crate) fn begin(&mut self)
        requires { self.old.begun < 2 ^ 32 - 1 }
        ensures { self.new ≡ round_begun self.old }
    {
        self.begun += 1;
        self.opening = true;
        self.pass = Pass::over(self.pass.children);
    }

    /// Opens the round that began last, where that is still to come: sets the index variable of the element of this
    /// name. A call that refuses changes nothing.
    pub(crate) fn open(
        &mut self,
        alloc: Global,
        name: &[u8],
        vars: &mut Vars,
    ) -> Result<(), VarError>
        ensures vars { Puts (opened_vars name.now self.old vars.old) vars.old vars.new result }
        ensures opened { OnOk result (self.new ≡ opened self.old) }
        ensures kept { OnErr result (self.new ≡ self.old) }
    {
        if !self.opening {
            return Ok(());
        }
        match set_index(alloc, name, self.begun.saturating_sub(1), vars) {
            Ok(()) => {
                self.opening = false;
                Ok(())
            }
            Err(error) => Err(error),
        }
    }
}
