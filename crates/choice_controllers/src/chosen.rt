// A pass that runs one child at most.

ghost use Rattle.std.specs.Prelude.{◌≡◌, ◌<◌, ℕ, None, IfSome};
ghost use Rattle.cursor_steps.specs.RunningChildren.{IsAmong, TakesChild};
ghost use Rattle.choice_controllers.specs.Chosen.{turn_of, waiting};

use element_tree::Turn;

/// The child that was chosen, which is then no more to be run; or the end of the pass.
pub(crate) fn take_turn(chosen: &mut Option<u16>) -> Turn
    ensures turn { result ≡ turn_of chosen.old }
    ensures taken { chosen.new ≡ None }
    ensures child { (children : ℕ) → IfSome chosen.old (λ place. place < children) → IsAmong children result }
    ensures pass { TakesChild (waiting chosen.old) (waiting chosen.new) result }
{
    match chosen.take() {
        Some(place) => Turn::Child(place),
        None => Turn::Over,
    }
}
