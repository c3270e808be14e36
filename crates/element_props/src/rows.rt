// The rows of a type's table: each of its properties, with the form of its value and what stands for it where it is absent.

ghost use Rattle.std.specs.Prelude.{◌≡◌, option_map, slice_get};
ghost use Rattle.element_props.specs.ChoiceTexts.{word_in};
ghost use Rattle.element_props.specs.FormRows.{first_word};
ghost use Rattle.element_props.specs.RowsSeen.{form_seen, words_seen};

use crate::choice::{word_at, word_of};
use crate::choices::{AtEnd, Comparison, Field, OnError, Share, TestKind};
use crate::prop::Word;
use jm_base::Method;

/// Lists of texts, of which a property's value is one: the texts of a type of choice, in its order.
#[derive(Clone, Copy, PartialEq, Eq, Debug)]
pub enum Words {
    /// Of the type `OnError`.
    OnError,
    /// Of the type `Method`.
    Method,
    /// Of the type `AtEnd`.
    AtEnd,
    /// Of the type `Share`.
    Share,
    /// Of the type `Field`.
    Field,
    /// Of the type `TestKind`.
    Test,
    /// Of the type `Comparison`.
    Comparison,
}

/// The form of a property's value.
#[derive(Clone, Copy, PartialEq, Eq, Debug)]
pub enum Form {
    /// A template: a text, or a whole number that stands for its decimal text.
    Template,
    /// Any text.
    Plain,
    /// A text that isn't empty.
    Filled,
    /// The name of a lock: a text that isn't empty, of at most 256 bytes.
    Lock,
    /// A whole number from the first to the second.
    Whole(i64, i64),
    /// A whole number from 0 to what another property of this name is.
    UpTo(&'static str),
    /// `true` or `false`.
    Flag,
    /// One of these texts.
    Choice(Words),
    /// A regular expression.
    Pattern,
    /// A list of 1 to 64 texts, the patterns of a Response Assertion: regular expressions where its property `test` is
    /// `contains` or `matches`, and plain texts otherwise.
    TestPatterns,
    /// A list of pairs of a text and a template.
    Pairs,
    /// A list of 1 to 4,096 replies.
    Replies,
    /// A list of 1 to 64 texts.
    Texts,
    /// A text of comma-separated values (RFC 4180) without a header row: at least one row, and in each row as many fields as
    /// the list that the property of this name is has items.
    Csv(&'static str),
    /// A JSON path.
    JsonPath,
}

/// What stands for a property that is absent.
#[derive(Clone, Copy, PartialEq, Eq, Debug)]
pub enum Presence {
    /// The property can't be absent.
    Required,
    /// Nothing.
    Optional,
    /// This text, or the template that it is.
    Text(&'static str),
    /// This number.
    Number(i64),
    /// This truth.
    Truth(bool),
    /// The first text of the list.
    First,
    /// No pairs.
    NoPairs,
}

/// A property of a type of element.
#[derive(Clone, Copy, PartialEq, Eq, Debug)]
pub struct Row {
    pub name: &'static str,
    pub form: Form,
    pub presence: Presence,
}

/// The text of this place in a list, counted from 0.
pub fn text_at(words: Words, place: usize) -> Option<&'static str>
    ensures { option_map (λ w. w.now) result ≡ slice_get (words_seen words) place }
{
    match words {
        Words::OnError => word_at::<OnError>(place),
        Words::Method => word_at::<Method>(place),
        Words::AtEnd => word_at::<AtEnd>(place),
        Words::Share => word_at::<Share>(place),
        Words::Field => word_at::<Field>(place),
        Words::Test => word_at::<TestKind>(place),
        Words::Comparison => word_at::<Comparison>(place),
    }
}

/// A text itself, where it is in a list.
pub(crate) fn word_in(words: Words, text: &str) -> Option<Word>
    ensures { result ≡ word_in (words_seen words) text.now }
{
    match words {
        Words::OnError => word_of::<OnError>(text),
        Words::Method => word_of::<Method>(text),
        Words::AtEnd => word_of::<AtEnd>(text),
        Words::Share => word_of::<Share>(text),
        Words::Field => word_of::<Field>(text),
        Words::Test => word_of::<TestKind>(text),
        Words::Comparison => word_of::<Comparison>(text),
    }
}

/// The first text of the list of a choice; of another form an empty text.
pub(crate) fn first_word(form: Form) -> &'static str
    ensures { result.now ≡ first_word (form_seen form) }
{
    match form {
        Form::Choice(words) => match text_at(words, 0) {
            Some(text) => text,
            None => "",
        },
        Form::Template | Form::Plain | Form::Filled | Form::Lock | Form::Flag => "",
        Form::Pattern
        | Form::TestPatterns
        | Form::Pairs
        | Form::Replies
        | Form::Texts
        | Form::JsonPath => "",
        Form::Csv(_) => "",
        Form::Whole(_, _) => "",
        Form::UpTo(_) => "",
    }
}
