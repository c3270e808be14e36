// The choices of a plan: each value with its text.

use crate::choice::Choice;
use jm_base::Method;

/// What a failed sample does to its thread (the manual's "Action to be taken after a Sampler error").
#[derive(Clone, Copy, PartialEq, Eq, Debug)]
pub enum OnError {
    Continue,
    NextLoop,
    StopThread,
    StopTest,
}

static ON_ERRORS: [OnError; 4] = [
    OnError::Continue,
    OnError::NextLoop,
    OnError::StopThread,
    OnError::StopTest,
];

impl Choice for OnError {
    ghost use Rattle.std.specs.Prelude.{refl};
    ghost use Rattle.element_props.specs.declared.choices.OnError.TheVariants.{Continue, NextLoop, StopThread, StopTest};
    ghost use Rattle.element_props.specs.ChoiceTexts.{on_error_word, on_errors};

    ghost word = { on_error_word };

    ghost all = { on_errors };

    fn word(self) -> &'static str {
        match self {
            OnError::Continue => "continue",
            OnError::NextLoop => "nextLoop",
            OnError::StopThread => "stopThread",
            OnError::StopTest => "stopTest",
        }
    }

    fn all() -> &'static [OnError] {
        &ON_ERRORS
    }

    ghost found = { elim [ Continue ↦ refl | NextLoop ↦ refl | StopThread ↦ refl | StopTest ↦ refl ] };
}

/// The part of a reply that is looked at.
#[derive(Clone, Copy, PartialEq, Eq, Debug)]
pub enum Field {
    Body,
    Headers,
    Code,
    Message,
}

static FIELDS: [Field; 4] = [Field::Body, Field::Headers, Field::Code, Field::Message];

impl Choice for Field {
    ghost use Rattle.std.specs.Prelude.{refl};
    ghost use Rattle.element_props.specs.declared.choices.Field.TheVariants.{Body, Headers, Code, Message};
    ghost use Rattle.element_props.specs.ChoiceTexts.{field_word, fields};

    ghost word = { field_word };

    ghost all = { fields };

    fn word(self) -> &'static str {
        match self {
            Field::Body => "body",
            Field::Headers => "headers",
            Field::Code => "code",
            Field::Message => "message",
        }
    }

    fn all() -> &'static [Field] {
        &FIELDS
    }

    ghost found = { elim [ Body ↦ refl | Headers ↦ refl | Code ↦ refl | Message ↦ refl ] };
}

/// How a body's length is compared with a size.
#[derive(Clone, Copy, PartialEq, Eq, Debug)]
pub enum Comparison {
    Equal,
    NotEqual,
    Above,
    Below,
    AtLeast,
    AtMost,
}

static COMPARISONS: [Comparison; 6] = [
    Comparison::Equal,
    Comparison::NotEqual,
    Comparison::Above,
    Comparison::Below,
    Comparison::AtLeast,
    Comparison::AtMost,
];

impl Choice for Comparison {
    ghost use Rattle.std.specs.Prelude.{refl};
    ghost use Rattle.element_props.specs.declared.choices.Comparison.TheVariants.{Equal, NotEqual, Above, Below, AtLeast, AtMost};
    ghost use Rattle.element_props.specs.ChoiceTexts.{comparison_word, comparisons};

    ghost word = { comparison_word };

    ghost all = { comparisons };

    fn word(self) -> &'static str {
        match self {
            Comparison::Equal => "=",
            Comparison::NotEqual => "!=",
            Comparison::Above => ">",
            Comparison::Below => "<",
            Comparison::AtLeast => ">=",
            Comparison::AtMost => "<=",
        }
    }

    fn all() -> &'static [Comparison] {
        &COMPARISONS
    }

    ghost found = { elim [ Equal ↦ refl | NotEqual ↦ refl | Above ↦ refl | Below ↦ refl | AtLeast ↦ refl | AtMost ↦ refl ] };
}

/// What a data set does after its last row.
#[derive(Clone, Copy, PartialEq, Eq, Debug)]
pub enum AtEnd {
    /// It begins again.
    Recycle,
    /// It ends the thread.
    Stop,
    /// It sets each name to `<EOF>`.
    Eof,
}

static AT_ENDS: [AtEnd; 3] = [AtEnd::Recycle, AtEnd::Stop, AtEnd::Eof];

impl Choice for AtEnd {
    ghost use Rattle.std.specs.Prelude.{refl};
    ghost use Rattle.element_props.specs.declared.choices.AtEnd.TheVariants.{Recycle, Stop, Eof};
    ghost use Rattle.element_props.specs.ChoiceTexts.{at_end_word, at_ends};

    ghost word = { at_end_word };

    ghost all = { at_ends };

    fn word(self) -> &'static str {
        match self {
            AtEnd::Recycle => "recycle",
            AtEnd::Stop => "stop",
            AtEnd::Eof => "eof",
        }
    }

    fn all() -> &'static [AtEnd] {
        &AT_ENDS
    }

    ghost found = { elim [ Recycle ↦ refl | Stop ↦ refl | Eof ↦ refl ] };
}

/// Which threads share the rows of a data set.
#[derive(Clone, Copy, PartialEq, Eq, Debug)]
pub enum Share {
    /// Each thread has all rows.
    Thread,
}

static SHARES: [Share; 1] = [Share::Thread];

impl Choice for Share {
    ghost use Rattle.std.specs.Prelude.{refl};
    ghost use Rattle.element_props.specs.declared.choices.Share.TheVariants.{Thread};
    ghost use Rattle.element_props.specs.ChoiceTexts.{share_word, shares};

    ghost word = { share_word };

    ghost all = { shares };

    fn word(self) -> &'static str {
        match self {
            Share::Thread => "thread",
        }
    }

    fn all() -> &'static [Share] {
        &SHARES
    }

    ghost found = { elim [ Thread ↦ refl ] };
}

/// How a response assertion tries a pattern (the manual's "Pattern Matching Rules").
#[derive(Clone, Copy, PartialEq, Eq, Debug)]
pub enum TestKind {
    /// The text contains a match of the regular expression.
    Contains,
    /// The whole text matches the regular expression.
    Matches,
    /// The text is the pattern.
    Equals,
    /// The text contains the pattern as it is.
    Substring,
}

static TESTS: [TestKind; 4] = [
    TestKind::Contains,
    TestKind::Matches,
    TestKind::Equals,
    TestKind::Substring,
];

impl Choice for TestKind {
    ghost use Rattle.std.specs.Prelude.{refl};
    ghost use Rattle.element_props.specs.declared.choices.TestKind.TheVariants.{Contains, Matches, Equals, Substring};
    ghost use Rattle.element_props.specs.ChoiceTexts.{test_word, tests};

    ghost word = { test_word };

    ghost all = { tests };

    fn word(self) -> &'static str {
        match self {
            TestKind::Contains => "contains",
            TestKind::Matches => "matches",
            TestKind::Equals => "equals",
            TestKind::Substring => "substring",
        }
    }

    fn all() -> &'static [TestKind] {
        &TESTS
    }

    ghost found = { elim [ Contains ↦ refl | Matches ↦ refl | Equals ↦ refl | Substring ↦ refl ] };
}

static METHODS: [Method; 5] = [
    Method::Get,
    Method::Post,
    Method::Put,
    Method::Delete,
    Method::Head,
];

impl Choice for Method {
    ghost use Rattle.std.specs.Prelude.{refl};
    ghost use Rattle.jm_base.specs.declared.types.Method.TheVariants.{Get, Post, Put, Delete, Head};
    ghost use Rattle.element_props.specs.ChoiceTexts.{method_word, methods};

    ghost word = { method_word };

    ghost all = { methods };

    fn word(self) -> &'static str {
        match self {
            Method::Get => "GET",
            Method::Post => "POST",
            Method::Put => "PUT",
            Method::Delete => "DELETE",
            Method::Head => "HEAD",
        }
    }

    fn all() -> &'static [Method] {
        &METHODS
    }

    ghost found = { elim [ Get ↦ refl | Post ↦ refl | Put ↦ refl | Delete ↦ refl | Head ↦ refl ] };
}
