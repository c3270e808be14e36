// The values of options.

ghost use Rattle.std.specs.Prelude.{◌≡◌, ◌≤◌, IfOk, IfSome, Some, None};
ghost use Rattle.command_words.specs.WordValues.{number_between, properties_of, schedule_of};
ghost use Rattle.command_words.specs.Commands.{make_from, shared_from, solo_from, weave_from, run_from};

use crate::command::{Make, Run, Solo, Weave};
use crate::error::WordsError;
use schedule_text::{Schedule, ScheduleError, parse_schedule};
use std::alloc::Global;
use var_functions::{Props, PropsError};

/// The number that 1 to 20 decimal digits write, where it is from the least to the most.
fn number_between(least: u64, most: u64, text: &[u8]) -> Option<u64>
    ensures value { result ≡ number_between least most text.now }
    ensures bounds { IfSome result (λ n. (least ≤ n) × (n ≤ most)) }
{
    if text.is_empty() || text.len() > 20 {
        return None;
    }
    let mut value: u128 = 0;
    for byte in text {
        if !byte.is_ascii_digit() {
            return None;
        }
        value = value * 10 + u128::from(*byte - b'0');
        if value > u128::from(most) {
            return None;
        }
    }
    if value < u128::from(least) {
        return None;
    }
    Some(value as u64)
}

/// The properties of a text of at most 65,536 bytes.
fn properties_of(alloc: Global, text: &[u8]) -> Result<Props, WordsError>
    ensures ok { IfOk result (λ p. properties_of text.now ≡ Some p) }
    ensures bad { result ≡ Err WordsError.BadWords → properties_of text.now ≡ None }
{
    if text.len() > 65_536 {
        return Err(WordsError::BadWords);
    }
    match Props::read(alloc, text) {
        Ok(props) => Ok(props),
        Err(PropsError::BadProps) => Err(WordsError::BadWords),
        Err(PropsError::NoMemory) => Err(WordsError::NoMemory),
    }
}

/// The schedule of a text of at most 65,536 bytes.
fn schedule_of(alloc: Global, text: &[u8]) -> Result<Schedule, WordsError>
    ensures ok { IfOk result (λ s. schedule_of text.now ≡ Some s) }
    ensures bad { result ≡ Err WordsError.BadWords → schedule_of text.now ≡ None }
{
    if text.len() > 65_536 {
        return Err(WordsError::BadWords);
    }
    match parse_schedule(alloc, text) {
        Ok(schedule) => Ok(schedule),
        Err(ScheduleError::BadSchedule { .. }) => Err(WordsError::BadWords),
        Err(ScheduleError::NoMemory) => Err(WordsError::NoMemory),
    }
}

/// The option of `make` by the text of its value.
pub(crate) fn make_from(size: &str) -> Option<Make>
    ensures { result ≡ make_from size.now }
{
    let size = number_between(1, 2047, size.as_bytes())?;
    Some(Make { size: size as u16 })
}

/// The options that `solo`, `weave` and `run` share.
#[derive(Drop)]
pub struct Shared {
    /// `--seed`.
    pub seed: u64,
    /// `--props`.
    pub props: Props,
    /// `--samples`.
    pub samples: u32,
}

/// The options that `solo`, `weave` and `run` share, by the texts of their values.
pub(crate) fn shared_from(
    alloc: Global,
    seed: &str,
    props: &str,
    samples: &str,
) -> Result<Shared, WordsError>
    ensures ok { IfOk result (λ s. shared_from seed.now props.now samples.now ≡ Some s) }
    ensures bad { result ≡ Err WordsError.BadWords → shared_from seed.now props.now samples.now ≡ None }
{
    let Some(seed) = number_between(0, u64::MAX, seed.as_bytes()) else {
        return Err(WordsError::BadWords);
    };
    let Some(samples) = number_between(1, 262_144, samples.as_bytes()) else {
        return Err(WordsError::BadWords);
    };
    match properties_of(alloc, props.as_bytes()) {
        Ok(props) => Ok(Shared {
            seed,
            props,
            samples: samples as u32,
        }),
        Err(WordsError::BadWords) => Err(WordsError::BadWords),
        Err(WordsError::NoMemory) => Err(WordsError::NoMemory),
    }
}

/// The options of `solo`: those that it shares, and its own by the text of its value.
pub(crate) fn solo_from(shared: Shared, thread: &str) -> Option<Solo>
    ensures { result ≡ solo_from shared thread.now }
{
    let thread = number_between(0, 63, thread.as_bytes())?;
    Some(Solo {
        seed: shared.seed,
        props: shared.props,
        samples: shared.samples,
        thread: thread as u16,
    })
}

/// The options of `weave`: those that it shares, and its own by the text of its value.
pub(crate) fn weave_from(alloc: Global, shared: Shared, schedule: &str) -> Result<Weave, WordsError>
    ensures ok { IfOk result (λ w. weave_from shared schedule.now ≡ Some w) }
    ensures bad { result ≡ Err WordsError.BadWords → weave_from shared schedule.now ≡ None }
{
    match schedule_of(alloc, schedule.as_bytes()) {
        Ok(schedule) => Ok(Weave {
            seed: shared.seed,
            props: shared.props,
            samples: shared.samples,
            schedule,
        }),
        Err(WordsError::BadWords) => Err(WordsError::BadWords),
        Err(WordsError::NoMemory) => Err(WordsError::NoMemory),
    }
}

/// The options of `run`: those that it shares, and its own by the texts of their values.
pub(crate) fn run_from(shared: Shared, every: &str, limit: &str) -> Option<Run>
    ensures { result ≡ run_from shared every.now limit.now }
{
    let every = number_between(1, 3_600_000, every.as_bytes())?;
    let limit = number_between(0, u64::MAX, limit.as_bytes())?;
    Some(Run {
        seed: shared.seed,
        props: shared.props,
        samples: shared.samples,
        every: every as u32,
        limit,
    })
}
