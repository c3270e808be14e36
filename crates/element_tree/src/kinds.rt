// The kinds of element, each with its properties.

ghost use Rattle.std.specs.Prelude.{◌≡◌};
ghost use Rattle.element_tree.specs.Types.{type_of};

use crate::types::ElementType;
use element_props::{Pair, Pattern};
pub use element_props::{AtEnd, Comparison, Field, OnError, Share, TestKind};
use jm_base::{Items, Method, ScriptReply, Text};
use template_text::Template;

/// How many rounds a thread group has.
#[derive(Clone, Copy, PartialEq, Eq, Debug)]
pub enum Loops {
    /// Round after round, until a limit or a stop ends the thread. A plan writes -1.
    Forever,
    /// That many rounds, at most 2,147,483,647.
    Times(u32),
}

/// Takes text from a reply by a regular expression (the manual's "Regular Expression Extractor").
#[derive(Drop)]
pub struct RegexExtractor {
    /// The value that is set where nothing matches. Without it the variable stays as it is.
    pub default: Option<Text>,
    /// The part of the reply that is searched.
    pub field: Field,
    /// Which match is taken: from 1, or 0 for one at random, or -1 for all.
    pub match_: i32,
    /// What is searched for.
    pub pattern: Pattern,
    /// The name of the variable that is set.
    pub ref_: Text,
    /// What the value is made of, where `$1$` stands for the first group of the match.
    pub template: Text,
}

/// Takes values from a reply that is JSON (the manual's "JSON Extractor").
#[derive(Drop)]
pub struct JsonExtractor {
    /// The value that is set where the path selects nothing. Without it the variable stays as it is.
    pub default: Option<Text>,
    /// Which match is taken: from 1, or 0 for one at random, or -1 for all.
    pub match_: i32,
    /// The JSON path.
    pub path: Text,
    /// The name of the variable that is set.
    pub ref_: Text,
}

/// Takes the text between two texts from a reply (the manual's "Boundary Extractor").
#[derive(Drop)]
pub struct BoundaryExtractor {
    /// The value that is set where nothing stands between the two. Without it the variable stays as it is.
    pub default: Option<Text>,
    /// The part of the reply that is searched.
    pub field: Field,
    /// The text before the value.
    pub left: Text,
    /// Which match is taken: from 1, or 0 for one at random, or -1 for all.
    pub match_: i32,
    /// The name of the variable that is set.
    pub ref_: Text,
    /// The text after the value.
    pub right: Text,
}

/// A check of a sample.
#[derive(Drop)]
pub enum Assertion {
    /// The manual's "Response Assertion".
    Response {
        field: Field,
        ignore_status: bool,
        not: bool,
        or: bool,
        patterns: Items<Text>,
        /// For `contains` and `matches`, what was made of each pattern; otherwise none.
        regexes: Items<Pattern>,
        test: TestKind,
        /// For `matches`, what was made of the text around each pattern, which a whole text matches; otherwise none.
        whole_regexes: Items<Pattern>,
    },
    /// The manual's "Duration Assertion", in milliseconds.
    Duration {
        ms: u32,
    },
    /// The manual's "Size Assertion", in bytes of the body.
    Size {
        op: Comparison,
        size: u32,
    },
}

/// What an element is, with its properties in byte order of their names in a plan.
#[derive(Drop)]
pub enum Kind {
    /// The root of a plan.
    TestPlan {
        version: u8,
    },
    /// A thread group (the manual's "Thread Group").
    ThreadGroup {
        loops: Loops,
        on_error: OnError,
        /// The ramp-up time in milliseconds.
        ramp_ms: u32,
        /// How many threads, 1 to 64.
        threads: u16,
    },
    /// It runs its children in order (the manual's "Simple Controller").
    Simple,
    /// It runs its children in the first round alone (the manual's "Once Only Controller").
    OnceOnly,
    /// It runs one child in each pass, the next one each time (the manual's "Interleave Controller").
    Interleave,
    /// It runs one child in each pass, drawn at random (the manual's "Random Controller").
    Random,
    /// It runs all children, in an order that is drawn at random (the manual's "Random Order Controller").
    RandomOrder,
    /// It gives a sample of its own after its children (the manual's "Transaction Controller").
    Transaction,
    /// It runs its children as often as the text says, or for ever where that is -1 (the manual's "Loop Controller").
    Loop {
        loops: Template,
    },
    /// It runs its children where the condition holds: on entry, or with `all` before each child (the manual's "If Controller").
    If {
        all: bool,
        condition: Template,
    },
    /// It runs its children round after round as long as the condition says so (the manual's "While Controller").
    While {
        condition: Template,
    },
    /// It runs the child that the text picks, by number or by name (the manual's "Switch Controller").
    Switch {
        value: Template,
    },
    /// It runs its children for each variable of a numbered row, from the number after `start` to `end` (the manual's "ForEach
    /// Controller").
    ForEach {
        end: u32,
        input: Text,
        output: Text,
        separator: bool,
        start: u32,
    },
    /// Of all threads one at a time runs its children, among the sections of this lock (the manual's "Critical Section Controller").
    CriticalSection {
        lock: Text,
    },
    /// A sampler that is answered by its own replies, one after another and again from the first.
    Script {
        replies: Items<ScriptReply>,
        request: Template,
    },
    /// An HTTP request (the manual's "HTTP Request").
    Http {
        body: Template,
        host: Template,
        method: Method,
        params: Items<Pair>,
        path: Template,
        port: Template,
        replies: Option<Items<ScriptReply>>,
    },
    /// Variables that each thread has from its start (the manual's "User Defined Variables").
    UserVariables {
        vars: Items<Pair>,
    },
    /// What an HTTP request takes where its own text is empty (the manual's "HTTP Request Defaults").
    HttpDefaults {
        host: Template,
        path: Template,
        port: Template,
    },
    /// Headers of HTTP requests (the manual's "HTTP Header Manager").
    HeaderManager {
        headers: Items<Pair>,
    },
    /// A variable that counts on in each round (the manual's "Counter").
    Counter {
        increment: u64,
        maximum: u64,
        start: u64,
        var: Text,
    },
    /// Variables that take the next row of a text in each round (the manual's "CSV Data Set Config").
    DataSet {
        at_end: AtEnd,
        names: Items<Text>,
        share: Share,
        text: Text,
    },
    /// Variables that are set before a sampler (the manual's "User Parameters").
    UserParameters {
        vars: Items<Pair>,
    },
    /// A pause before a sampler, in milliseconds (the manual's "Constant Timer").
    ConstantTimer {
        delay: Template,
    },
    /// A pause of `offset` and of less than `range` at random, in milliseconds (the manual's "Uniform Random Timer").
    UniformTimer {
        offset: Template,
        range: Template,
    },
    /// The manual's "Regular Expression Extractor".
    RegexExtractor(RegexExtractor),
    /// The manual's "JSON Extractor".
    JsonExtractor(JsonExtractor),
    /// The manual's "Boundary Extractor".
    BoundaryExtractor(BoundaryExtractor),
    /// The manual's "Response Assertion".
    ResponseAssertion(Assertion),
    /// The manual's "Duration Assertion".
    DurationAssertion(Assertion),
    /// The manual's "Size Assertion".
    SizeAssertion(Assertion),
    /// It is handed the samples of its scope (the manual's "Listeners").
    Listener,
}

/// One element of a plan.
#[derive(Drop)]
pub struct Element {
    /// The name, at most 256 bytes.
    pub name: Text,
    /// What it is, with its properties.
    pub kind: Kind,
    /// The number of the element that this one stands under. The root is its own parent.
    pub parent: u16,
    /// The numbers of the elements directly below, in their order.
    pub children: Items<u16>,
}

impl Kind {
    /// The type of an element of this kind.
    pub fn element_type(&self) -> ElementType
        ensures { result ≡ type_of self.now }
    {
        match self {
            Kind::TestPlan { .. } => ElementType::TestPlan,
            Kind::ThreadGroup { .. } => ElementType::ThreadGroup,
            Kind::Simple => ElementType::Simple,
            Kind::OnceOnly => ElementType::OnceOnly,
            Kind::Interleave => ElementType::Interleave,
            Kind::Random => ElementType::Random,
            Kind::RandomOrder => ElementType::RandomOrder,
            Kind::Transaction => ElementType::Transaction,
            Kind::Loop { .. } => ElementType::Loop,
            Kind::If { .. } => ElementType::If,
            Kind::While { .. } => ElementType::While,
            Kind::Switch { .. } => ElementType::Switch,
            Kind::ForEach { .. } => ElementType::ForEach,
            Kind::CriticalSection { .. } => ElementType::CriticalSection,
            Kind::Script { .. } => ElementType::Script,
            Kind::Http { .. } => ElementType::Http,
            Kind::UserVariables { .. } => ElementType::UserVariables,
            Kind::HttpDefaults { .. } => ElementType::HttpDefaults,
            Kind::HeaderManager { .. } => ElementType::HeaderManager,
            Kind::Counter { .. } => ElementType::Counter,
            Kind::DataSet { .. } => ElementType::DataSet,
            Kind::UserParameters { .. } => ElementType::UserParameters,
            Kind::ConstantTimer { .. } => ElementType::ConstantTimer,
            Kind::UniformTimer { .. } => ElementType::UniformTimer,
            Kind::RegexExtractor(_) => ElementType::RegexExtractor,
            Kind::JsonExtractor(_) => ElementType::JsonExtractor,
            Kind::BoundaryExtractor(_) => ElementType::BoundaryExtractor,
            Kind::ResponseAssertion(_) => ElementType::ResponseAssertion,
            Kind::DurationAssertion(_) => ElementType::DurationAssertion,
            Kind::SizeAssertion(_) => ElementType::SizeAssertion,
            Kind::Listener => ElementType::Listener,
        }
    }
}
