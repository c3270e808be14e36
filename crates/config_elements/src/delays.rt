// The delay of timers.

ghost use Rattle.std.specs.Prelude.{◌≡◌, ◌<◌, ◌+◌, []};
ghost use Rattle.jm_base.specs.Run.{over};
ghost use Rattle.jm_base.specs.Outside.{Account, Goes};
ghost use Rattle.var_functions.specs.Came.{CameTo};
ghost use Rattle.var_functions.specs.FunctionState.{IsLater};
ghost use Rattle.trials.specs.Tried.{fine, past_limit};
ghost use Rattle.config_elements.specs.TimerDelay.{milliseconds, time_of, within, timer, timer_at, capped, delay};

use cursor_steps::decimal_number;
use element_tree::{Kind, Package, Plan};
use jm_base::Outside;
use std::alloc::Global;
use template_text::Template;
use var_functions::{UserState, VarError, expand};

// The milliseconds that a text writes.
fn milliseconds(text: &[u8]) -> u32
    ensures { result ≡ milliseconds text.now }
{
    decimal_number(text).unwrap_or(0)
}

fn time_of<O: Outside>(
    alloc: Global,
    template: &Template,
    state: &mut UserState,
    outside: &mut O,
) -> Result<u32, VarError>
    ensures came { CameTo (O.account outside.old) (time_of template.now state.old) (O.account outside.new)
        (λ ms. over (fine ms state.new)) (over (past_limit state.new)) result }
    ensures later { IsLater state.old.fns state.new.fns }
    ensures vars { state.new.vars ≡ state.old.vars }
{
    let text = expand(alloc, template, state, outside)?;
    Ok(milliseconds(text.bytes()))
}

// A time below a range, at random; of no range it is 0, and no word is drawn.
fn within(range: u32, state: &mut UserState) -> u32
    ensures came { (a : Account) → Goes a (within range state.old) [] (over (fine result state.new)) a }
    ensures below { 0 < range → result < range }
    ensures later { IsLater state.old.fns state.new.fns }
    ensures vars { state.new.vars ≡ state.old.vars }
{
    if range == 0 {
        return 0;
    }
    let word = state.fns.draw();
    (word % u64::from(range)) as u32
}

// The delay of a Uniform Random Timer.
fn uniform<O: Outside>(
    alloc: Global,
    offset: &Template,
    range: &Template,
    state: &mut UserState,
    outside: &mut O,
) -> Result<u64, VarError>
    ensures came { CameTo (O.account outside.old) (timer (Kind.UniformTimer offset.now range.now) state.old) (O.account outside.new)
        (λ ms. over (fine ms state.new)) (over (past_limit state.new)) result }
    ensures later { IsLater state.old.fns state.new.fns }
    ensures vars { state.new.vars ≡ state.old.vars }
{
    let offset = time_of(alloc, offset, state, outside)?;
    let range = time_of(alloc, range, state, outside)?;
    let more = within(range, state);
    Ok(u64::from(offset) + u64::from(more))
}

// The delay of a timer; another element has none.
fn timer<O: Outside>(
    alloc: Global,
    kind: &Kind,
    state: &mut UserState,
    outside: &mut O,
) -> Result<u64, VarError>
    ensures came { CameTo (O.account outside.old) (timer kind.now state.old) (O.account outside.new)
        (λ ms. over (fine ms state.new)) (over (past_limit state.new)) result }
    ensures later { IsLater state.old.fns state.new.fns }
    ensures vars { state.new.vars ≡ state.old.vars }
{
    match kind {
        Kind::ConstantTimer { delay } => {
            let ms = time_of(alloc, delay, state, outside)?;
            Ok(u64::from(ms))
        }
        Kind::UniformTimer { offset, range } => uniform(alloc, offset, range, state, outside),
        _ => Ok(0),
    }
}

fn timer_at<O: Outside>(
    alloc: Global,
    plan: &Plan,
    number: u16,
    state: &mut UserState,
    outside: &mut O,
) -> Result<u64, VarError>
    ensures came { CameTo (O.account outside.old) (timer_at plan.now.elements number state.old) (O.account outside.new)
        (λ ms. over (fine ms state.new)) (over (past_limit state.new)) result }
    ensures later { IsLater state.old.fns state.new.fns }
    ensures vars { state.new.vars ≡ state.old.vars }
{
    match plan.element(number) {
        Some(element) => timer(alloc, &element.kind, state, outside),
        None => Ok(0),
    }
}

/// A number of milliseconds or bytes as samples and delays keep it: at most 2^32 - 1.
pub fn capped(n: u64) -> u32
    ensures { result ≡ capped n }
{
    if n > 0xffff_ffff {
        0xffff_ffff
    } else {
        n as u32
    }
}

// A sum of milliseconds.
fn sum_of(sum: u32, ms: u64) -> u32
    ensures { result ≡ capped (sum + ms) }
{
    capped(u64::from(sum).saturating_add(ms))
}

// The sum of the delays of these timers.
fn delay_of<O: Outside>(
    alloc: Global,
    plan: &Plan,
    numbers: &[u16],
    state: &mut UserState,
    outside: &mut O,
) -> Result<u32, VarError>
    ensures came { CameTo (O.account outside.old) (delay plan.now.elements numbers.now state.old) (O.account outside.new)
        (λ ms. over (fine ms state.new)) (over (past_limit state.new)) result }
    ensures later { IsLater state.old.fns state.new.fns }
    ensures vars { state.new.vars ≡ state.old.vars }
{
    let mut sum = 0;
    'timers: for number in numbers {
        let ms = timer_at(alloc, plan, *number, state, outside)?;
        sum = sum_of(sum, ms);
    }
    Ok(sum)
}

/// How long a sampler with this package is delayed by its timers, in milliseconds: the sum of their delays, at most 2^32 - 1.
/// Each timer's templates are expanded in its turn, the offset of a Uniform Random Timer before its range; then a word is
/// drawn, if the range isn't 0. A text that isn't decimal digits is 0.
///
/// `ValueLimit` comes where a text would be past its limit. No variable changes.
pub fn delay<O: Outside>(
    alloc: Global,
    plan: &Plan,
    scope: &Package,
    state: &mut UserState,
    outside: &mut O,
) -> Result<u32, VarError>
    ensures came { CameTo (O.account outside.old) (delay plan.now.elements scope.now.timers state.old) (O.account outside.new)
        (λ ms. over (fine ms state.new)) (over (past_limit state.new)) result }
    // After every answer, out of memory included.
    ensures later { IsLater state.old.fns state.new.fns }
    ensures vars { state.new.vars ≡ state.old.vars }
{
    delay_of(alloc, plan, scope.timers.as_slice(), state, outside)
}
