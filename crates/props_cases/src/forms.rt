// Forms by their names in cases, and the rows of tables.

ghost use Rattle.std.specs.Prelude.{◌≡◌, map, true};
ghost use Rattle.element_props.specs.FormRows.{are_short};
ghost use Rattle.element_props.specs.RowsSeen.{row_seen};

use element_props::{Form, Presence, Row, Words};

/// The form of this name.
pub fn form_named(name: &str) -> Option<Form> {
    match name {
        "Template" => Some(Form::Template),
        "Plain" => Some(Form::Plain),
        "Filled" => Some(Form::Filled),
        "Lock" => Some(Form::Lock),
        "Whole(-1,65536)" => Some(Form::Whole(-1, 65536)),
        "UpTo(maximum)" => Some(Form::UpTo("maximum")),
        "Flag" => Some(Form::Flag),
        "Choice(Method)" => Some(Form::Choice(Words::Method)),
        "Choice(Field)" => Some(Form::Choice(Words::Field)),
        "Pattern" => Some(Form::Pattern),
        "TestPatterns" => Some(Form::TestPatterns),
        "Pairs" => Some(Form::Pairs),
        "Replies" => Some(Form::Replies),
        "Texts" => Some(Form::Texts),
        "Csv(names)" => Some(Form::Csv("names")),
        "JsonPath" => Some(Form::JsonPath),
        _ => None,
    }
}

/// The list of texts of this name.
pub fn words_named(name: &str) -> Option<Words> {
    match name {
        "OnError" => Some(Words::OnError),
        "Method" => Some(Words::Method),
        "AtEnd" => Some(Words::AtEnd),
        "Share" => Some(Words::Share),
        "Field" => Some(Words::Field),
        "Test" => Some(Words::Test),
        "Comparison" => Some(Words::Comparison),
        _ => None,
    }
}

macro_rules! row {
    ($name:expr, $form:expr, $presence:expr) => {
        Row {
            name: $name,
            form: $form,
            presence: $presence,
        }
    };
}

/// A row for each member that a form may look at, and one for the property itself.
pub fn rows_for(form: Form) -> [Row; 4]
    ensures { are_short (map row_seen result) ≡ true }
{
    [
        row!("maximum", Form::Whole(0, i64::MAX), Presence::Optional),
        row!("names", Form::Texts, Presence::Optional),
        row!("p", form, Presence::Optional),
        row!("test", Form::Choice(Words::Test), Presence::Optional),
    ]
}

/// A table in which every kind of default stands.
pub fn many_forms() -> [Row; 13]
    ensures { are_short (map row_seen result) ≡ true }
{
    let most = i64::MAX;
    [
        row!("a", Form::Template, Presence::Text("1")),
        row!("b", Form::Plain, Presence::Optional),
        row!("c", Form::Choice(Words::Method), Presence::First),
        row!("d", Form::Flag, Presence::Truth(false)),
        row!("e", Form::Pairs, Presence::NoPairs),
        row!("f", Form::Replies, Presence::Required),
        row!("maximum", Form::Whole(0, most), Presence::Number(most)),
        row!("names", Form::Texts, Presence::Required),
        row!("pattern", Form::Pattern, Presence::Required),
        row!("patterns", Form::TestPatterns, Presence::Required),
        row!("start", Form::UpTo("maximum"), Presence::Number(0)),
        row!("table", Form::Csv("names"), Presence::Required),
        row!("test", Form::Choice(Words::Test), Presence::Required),
    ]
}
