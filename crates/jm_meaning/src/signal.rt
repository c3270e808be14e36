// How a part of a run ends.

ghost use Rattle.std.specs.Prelude.{◌≡◌};
ghost use Rattle.jm_meaning.specs.Meaning.{signal_of};
ghost use Rattle.jm_meaning.specs.Sampling.{after_sample};

use element_tree::OnError;
use jm_base::End;

/// Whether the run goes on after a part of it.
#[derive(Clone, Copy, PartialEq, Eq, Debug)]
pub enum Signal {
    /// It goes on with what comes next.
    Normal,
    /// The thread leaves all open controllers and starts its next round.
    NextLoop,
    /// The thread ends so.
    Stop(End),
}

/// What a failed sample leads to, by its group's action (the manual's "Action to be taken after a Sampler error").
pub fn signal_of(on_error: OnError) -> Signal
    ensures { result ≡ signal_of on_error }
{
    match on_error {
        OnError::Continue => Signal::Normal,
        OnError::NextLoop => Signal::NextLoop,
        OnError::StopThread => Signal::Stop(End::StopThread),
        OnError::StopTest => Signal::Stop(End::StopTest),
    }
}

/// The signal after a sample: Normal where it succeeded, and else what a failed sample leads to.
pub fn after_sample(ok: bool, at_failure: Signal) -> Signal
    ensures { result ≡ after_sample ok at_failure }
{
    if ok { Signal::Normal } else { at_failure }
}
