// The table of the types of element: the name of each in a plan, and its properties.

ghost use Rattle.std.specs.Prelude.{◌≡◌, map, true};
ghost use Rattle.element_props.specs.FormRows.{are_short};
ghost use Rattle.element_props.specs.RowsSeen.{row_seen};
ghost use Rattle.element_tree.specs.Named.{named_seen};
ghost use Rattle.element_tree.specs.Table as table;

use crate::types::ElementType;
use element_props::{Form, Presence, Row, Words};

static TEST_PLAN: [Row; 1] = [Row {
    name: "version",
    form: Form::Whole(1, 1),
    presence: Presence::Number(1),
}];

static THREAD_GROUP: [Row; 4] = [
    Row {
        name: "loops",
        form: Form::Whole(-1, 2147483647),
        presence: Presence::Number(1),
    },
    Row {
        name: "onError",
        form: Form::Choice(Words::OnError),
        presence: Presence::First,
    },
    Row {
        name: "rampMs",
        form: Form::Whole(0, 86400000),
        presence: Presence::Number(0),
    },
    Row {
        name: "threads",
        form: Form::Whole(1, 64),
        presence: Presence::Number(1),
    },
];

static LOOP: [Row; 1] = [Row {
    name: "loops",
    form: Form::Template,
    presence: Presence::Text("1"),
}];

static IF: [Row; 2] = [
    Row {
        name: "all",
        form: Form::Flag,
        presence: Presence::Truth(false),
    },
    Row {
        name: "condition",
        form: Form::Template,
        presence: Presence::Required,
    },
];

static WHILE: [Row; 1] = [Row {
    name: "condition",
    form: Form::Template,
    presence: Presence::Text(""),
}];

static SWITCH: [Row; 1] = [Row {
    name: "value",
    form: Form::Template,
    presence: Presence::Text(""),
}];

static FOR_EACH: [Row; 5] = [
    Row {
        name: "end",
        form: Form::Whole(0, 4294967295),
        presence: Presence::Number(4294967295),
    },
    Row {
        name: "input",
        form: Form::Filled,
        presence: Presence::Required,
    },
    Row {
        name: "output",
        form: Form::Filled,
        presence: Presence::Required,
    },
    Row {
        name: "separator",
        form: Form::Flag,
        presence: Presence::Truth(true),
    },
    Row {
        name: "start",
        form: Form::Whole(0, 4294967295),
        presence: Presence::Number(0),
    },
];

static CRITICAL_SECTION: [Row; 1] = [Row {
    name: "lock",
    form: Form::Lock,
    presence: Presence::Required,
}];

static SCRIPT: [Row; 2] = [
    Row {
        name: "replies",
        form: Form::Replies,
        presence: Presence::Required,
    },
    Row {
        name: "request",
        form: Form::Template,
        presence: Presence::Text(""),
    },
];

static HTTP: [Row; 7] = [
    Row {
        name: "body",
        form: Form::Template,
        presence: Presence::Text(""),
    },
    Row {
        name: "host",
        form: Form::Template,
        presence: Presence::Text(""),
    },
    Row {
        name: "method",
        form: Form::Choice(Words::Method),
        presence: Presence::First,
    },
    Row {
        name: "params",
        form: Form::Pairs,
        presence: Presence::NoPairs,
    },
    Row {
        name: "path",
        form: Form::Template,
        presence: Presence::Text(""),
    },
    Row {
        name: "port",
        form: Form::Template,
        presence: Presence::Text(""),
    },
    Row {
        name: "replies",
        form: Form::Replies,
        presence: Presence::Optional,
    },
];

static USER_VARIABLES: [Row; 1] = [Row {
    name: "vars",
    form: Form::Pairs,
    presence: Presence::Required,
}];

static HTTP_DEFAULTS: [Row; 3] = [
    Row {
        name: "host",
        form: Form::Template,
        presence: Presence::Text(""),
    },
    Row {
        name: "path",
        form: Form::Template,
        presence: Presence::Text(""),
    },
    Row {
        name: "port",
        form: Form::Template,
        presence: Presence::Text(""),
    },
];

static HEADER_MANAGER: [Row; 1] = [Row {
    name: "headers",
    form: Form::Pairs,
    presence: Presence::Required,
}];

static COUNTER: [Row; 4] = [
    Row {
        name: "increment",
        form: Form::Whole(0, i64::MAX),
        presence: Presence::Number(0),
    },
    Row {
        name: "maximum",
        form: Form::Whole(0, i64::MAX),
        presence: Presence::Number(i64::MAX),
    },
    Row {
        name: "start",
        form: Form::UpTo("maximum"),
        presence: Presence::Number(0),
    },
    Row {
        name: "var",
        form: Form::Plain,
        presence: Presence::Required,
    },
];

static DATA_SET: [Row; 4] = [
    Row {
        name: "atEnd",
        form: Form::Choice(Words::AtEnd),
        presence: Presence::First,
    },
    Row {
        name: "names",
        form: Form::Texts,
        presence: Presence::Required,
    },
    Row {
        name: "share",
        form: Form::Choice(Words::Share),
        presence: Presence::Required,
    },
    Row {
        name: "text",
        form: Form::Csv("names"),
        presence: Presence::Required,
    },
];

static USER_PARAMETERS: [Row; 1] = [Row {
    name: "vars",
    form: Form::Pairs,
    presence: Presence::Required,
}];

static CONSTANT_TIMER: [Row; 1] = [Row {
    name: "delay",
    form: Form::Template,
    presence: Presence::Text("0"),
}];

static UNIFORM_TIMER: [Row; 2] = [
    Row {
        name: "offset",
        form: Form::Template,
        presence: Presence::Text("0"),
    },
    Row {
        name: "range",
        form: Form::Template,
        presence: Presence::Text("0"),
    },
];

static REGEX_EXTRACTOR: [Row; 6] = [
    Row {
        name: "default",
        form: Form::Plain,
        presence: Presence::Optional,
    },
    Row {
        name: "field",
        form: Form::Choice(Words::Field),
        presence: Presence::First,
    },
    Row {
        name: "match",
        form: Form::Whole(-1, 65536),
        presence: Presence::Number(1),
    },
    Row {
        name: "pattern",
        form: Form::Pattern,
        presence: Presence::Required,
    },
    Row {
        name: "ref",
        form: Form::Filled,
        presence: Presence::Required,
    },
    Row {
        name: "template",
        form: Form::Plain,
        presence: Presence::Text("$1$"),
    },
];

static JSON_EXTRACTOR: [Row; 4] = [
    Row {
        name: "default",
        form: Form::Plain,
        presence: Presence::Optional,
    },
    Row {
        name: "match",
        form: Form::Whole(-1, 65536),
        presence: Presence::Number(1),
    },
    Row {
        name: "path",
        form: Form::JsonPath,
        presence: Presence::Required,
    },
    Row {
        name: "ref",
        form: Form::Filled,
        presence: Presence::Required,
    },
];

static BOUNDARY_EXTRACTOR: [Row; 6] = [
    Row {
        name: "default",
        form: Form::Plain,
        presence: Presence::Optional,
    },
    Row {
        name: "field",
        form: Form::Choice(Words::Field),
        presence: Presence::First,
    },
    Row {
        name: "left",
        form: Form::Filled,
        presence: Presence::Required,
    },
    Row {
        name: "match",
        form: Form::Whole(-1, 65536),
        presence: Presence::Number(1),
    },
    Row {
        name: "ref",
        form: Form::Filled,
        presence: Presence::Required,
    },
    Row {
        name: "right",
        form: Form::Filled,
        presence: Presence::Required,
    },
];

static RESPONSE_ASSERTION: [Row; 6] = [
    Row {
        name: "field",
        form: Form::Choice(Words::Field),
        presence: Presence::First,
    },
    Row {
        name: "ignoreStatus",
        form: Form::Flag,
        presence: Presence::Truth(false),
    },
    Row {
        name: "not",
        form: Form::Flag,
        presence: Presence::Truth(false),
    },
    Row {
        name: "or",
        form: Form::Flag,
        presence: Presence::Truth(false),
    },
    Row {
        name: "patterns",
        form: Form::TestPatterns,
        presence: Presence::Required,
    },
    Row {
        name: "test",
        form: Form::Choice(Words::Test),
        presence: Presence::Required,
    },
];

static DURATION_ASSERTION: [Row; 1] = [Row {
    name: "ms",
    form: Form::Whole(0, 4294967295),
    presence: Presence::Required,
}];

static SIZE_ASSERTION: [Row; 2] = [
    Row {
        name: "op",
        form: Form::Choice(Words::Comparison),
        presence: Presence::Required,
    },
    Row {
        name: "size",
        form: Form::Whole(0, 4294967295),
        presence: Presence::Required,
    },
];

/// The properties of a type in a plan of this version, in byte order of their names.
pub fn rows(version: u8, kind: ElementType) -> &'static [Row]
    ensures rows { map row_seen result.now ≡ table.rows version kind }
    ensures short { are_short (map row_seen result.now) ≡ true }
{
    match kind {
        ElementType::TestPlan => &TEST_PLAN,
        ElementType::ThreadGroup => &THREAD_GROUP,
        ElementType::Simple => &[],
        ElementType::OnceOnly => &[],
        ElementType::Interleave => &[],
        ElementType::Random => &[],
        ElementType::RandomOrder => &[],
        ElementType::Transaction => &[],
        ElementType::Loop => &LOOP,
        ElementType::If => &IF,
        ElementType::While => &WHILE,
        ElementType::Switch => &SWITCH,
        ElementType::ForEach => &FOR_EACH,
        ElementType::CriticalSection => &CRITICAL_SECTION,
        ElementType::Script => &SCRIPT,
        ElementType::Http => &HTTP,
        ElementType::UserVariables => &USER_VARIABLES,
        ElementType::HttpDefaults => &HTTP_DEFAULTS,
        ElementType::HeaderManager => &HEADER_MANAGER,
        ElementType::Counter => &COUNTER,
        ElementType::DataSet => &DATA_SET,
        ElementType::UserParameters => &USER_PARAMETERS,
        ElementType::ConstantTimer => &CONSTANT_TIMER,
        ElementType::UniformTimer => &UNIFORM_TIMER,
        ElementType::RegexExtractor => &REGEX_EXTRACTOR,
        ElementType::JsonExtractor => &JSON_EXTRACTOR,
        ElementType::BoundaryExtractor => &BOUNDARY_EXTRACTOR,
        ElementType::ResponseAssertion => &RESPONSE_ASSERTION,
        ElementType::DurationAssertion => &DURATION_ASSERTION,
        ElementType::SizeAssertion => &SIZE_ASSERTION,
        ElementType::Listener => &[],
    }
}

/// The name of a type in a plan.
pub fn type_name(kind: ElementType) -> &'static str
    ensures { result.now ≡ table.type_name kind }
{
    match kind {
        ElementType::TestPlan => "TestPlan",
        ElementType::ThreadGroup => "ThreadGroup",
        ElementType::Simple => "Simple",
        ElementType::OnceOnly => "OnceOnly",
        ElementType::Interleave => "Interleave",
        ElementType::Random => "Random",
        ElementType::RandomOrder => "RandomOrder",
        ElementType::Transaction => "Transaction",
        ElementType::Loop => "Loop",
        ElementType::If => "If",
        ElementType::While => "While",
        ElementType::Switch => "Switch",
        ElementType::ForEach => "ForEach",
        ElementType::CriticalSection => "CriticalSection",
        ElementType::Script => "Script",
        ElementType::Http => "Http",
        ElementType::UserVariables => "UserVariables",
        ElementType::HttpDefaults => "HttpDefaults",
        ElementType::HeaderManager => "HeaderManager",
        ElementType::Counter => "Counter",
        ElementType::DataSet => "DataSet",
        ElementType::UserParameters => "UserParameters",
        ElementType::ConstantTimer => "ConstantTimer",
        ElementType::UniformTimer => "UniformTimer",
        ElementType::RegexExtractor => "RegexExtractor",
        ElementType::JsonExtractor => "JsonExtractor",
        ElementType::BoundaryExtractor => "BoundaryExtractor",
        ElementType::ResponseAssertion => "ResponseAssertion",
        ElementType::DurationAssertion => "DurationAssertion",
        ElementType::SizeAssertion => "SizeAssertion",
        ElementType::Listener => "Listener",
    }
}

/// A type by its name.
#[derive(Clone, Copy)]
pub struct Named {
    pub name: &'static str,
    pub kind: ElementType,
}

static NAMES: [Named; 31] = [
    Named {
        name: "TestPlan",
        kind: ElementType::TestPlan,
    },
    Named {
        name: "ThreadGroup",
        kind: ElementType::ThreadGroup,
    },
    Named {
        name: "Simple",
        kind: ElementType::Simple,
    },
    Named {
        name: "OnceOnly",
        kind: ElementType::OnceOnly,
    },
    Named {
        name: "Interleave",
        kind: ElementType::Interleave,
    },
    Named {
        name: "Random",
        kind: ElementType::Random,
    },
    Named {
        name: "RandomOrder",
        kind: ElementType::RandomOrder,
    },
    Named {
        name: "Transaction",
        kind: ElementType::Transaction,
    },
    Named {
        name: "Loop",
        kind: ElementType::Loop,
    },
    Named {
        name: "If",
        kind: ElementType::If,
    },
    Named {
        name: "While",
        kind: ElementType::While,
    },
    Named {
        name: "Switch",
        kind: ElementType::Switch,
    },
    Named {
        name: "ForEach",
        kind: ElementType::ForEach,
    },
    Named {
        name: "CriticalSection",
        kind: ElementType::CriticalSection,
    },
    Named {
        name: "Script",
        kind: ElementType::Script,
    },
    Named {
        name: "Http",
        kind: ElementType::Http,
    },
    Named {
        name: "UserVariables",
        kind: ElementType::UserVariables,
    },
    Named {
        name: "HttpDefaults",
        kind: ElementType::HttpDefaults,
    },
    Named {
        name: "HeaderManager",
        kind: ElementType::HeaderManager,
    },
    Named {
        name: "Counter",
        kind: ElementType::Counter,
    },
    Named {
        name: "DataSet",
        kind: ElementType::DataSet,
    },
    Named {
        name: "UserParameters",
        kind: ElementType::UserParameters,
    },
    Named {
        name: "ConstantTimer",
        kind: ElementType::ConstantTimer,
    },
    Named {
        name: "UniformTimer",
        kind: ElementType::UniformTimer,
    },
    Named {
        name: "RegexExtractor",
        kind: ElementType::RegexExtractor,
    },
    Named {
        name: "JsonExtractor",
        kind: ElementType::JsonExtractor,
    },
    Named {
        name: "BoundaryExtractor",
        kind: ElementType::BoundaryExtractor,
    },
    Named {
        name: "ResponseAssertion",
        kind: ElementType::ResponseAssertion,
    },
    Named {
        name: "DurationAssertion",
        kind: ElementType::DurationAssertion,
    },
    Named {
        name: "SizeAssertion",
        kind: ElementType::SizeAssertion,
    },
    Named {
        name: "Listener",
        kind: ElementType::Listener,
    },
];

fn names() -> &'static [Named]
    ensures { map named_seen result.now ≡ table.named }
{
    &NAMES
}

fn first_named(name: &[u8], names: &[Named]) -> Option<ElementType>
    ensures { result ≡ table.first_named name.now (map named_seen names.now) }
{
    for named in names {
        if name == named.name.as_bytes() {
            return Some(named.kind);
        }
    }
    None
}

/// The type that a text names.
pub fn type_of_name(name: &[u8]) -> Option<ElementType>
    ensures { result ≡ table.type_of_name name.now }
{
    first_named(name, names())
}
