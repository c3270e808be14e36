// Values that stand in a plan as texts.

ghost use Rattle.std.specs.Prelude.{◌≡◌, ℕ, List, Some, map, option_map, slice_get};
ghost use Rattle.element_props.specs.ChoiceTexts.{named, word_in};

use crate::prop::Word;

/// A value that stands in a plan as one of a few texts.
pub trait Choice: Copy + 'static {
    /// Its text.
    ghost word: { Self → List ℕ };

    /// Each value, the one that stands for an absent property first.
    ghost all: { List Self };

    /// Its text in a plan.
    fn word(self) -> &'static str
        ensures { result.now ≡ word self };

    /// Each value, the one that stands for an absent property first.
    fn all() -> &'static [Self]
        ensures { result.now ≡ all };

    /// A value is read again from its text.
    ghost found: { (x : Self) → named word all (word x) ≡ Some x };
}

/// The value that a text stands for.
pub fn choice_of<C: Choice>(text: &str) -> Option<C>
    ensures { result ≡ named C.word C.all text.now }
{
    for choice in C::all() {
        if choice.word() == text {
            return Some(*choice);
        }
    }
    None
}

/// The text itself, where it stands for a value.
#[tactic(auto, using(crate::proofs::ChoiceLaws::words_named))]
pub(crate) fn word_of<C: Choice>(text: &str) -> Option<Word>
    ensures { result ≡ word_in (map C.word C.all) text.now }
{
    let choice = choice_of::<C>(text)?;
    Some(Word::of(choice.word()))
}

/// The text of the value of this place, counted from 0.
#[tactic(auto, using(crate::proofs::ChoiceLaws::word_place))]
pub(crate) fn word_at<C: Choice>(place: usize) -> Option<&'static str>
    ensures { option_map (λ w. w.now) result ≡ slice_get (map C.word C.all) place }
{
    let choice = C::all().get(place)?;
    Some(choice.word())
}
