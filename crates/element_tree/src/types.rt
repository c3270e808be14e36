// The types of element, and the class of each.

ghost use Rattle.std.specs.Prelude.{◌≡◌};
ghost use Rattle.element_tree.specs.Types.{class_of_type};

/// The types of element, by their names in a plan. What each is stands at `Kind`.
#[derive(Clone, Copy, PartialEq, Eq, Debug)]
pub enum ElementType {
    TestPlan,
    ThreadGroup,
    Simple,
    OnceOnly,
    Interleave,
    Random,
    RandomOrder,
    Transaction,
    Loop,
    If,
    While,
    Switch,
    ForEach,
    CriticalSection,
    Script,
    Http,
    UserVariables,
    HttpDefaults,
    HeaderManager,
    Counter,
    DataSet,
    UserParameters,
    ConstantTimer,
    UniformTimer,
    RegexExtractor,
    JsonExtractor,
    BoundaryExtractor,
    ResponseAssertion,
    DurationAssertion,
    SizeAssertion,
    Listener,
}

/// What a type is for: it decides where its elements may stand, and when they take part in a sample (the manual's "Execution order").
#[derive(Clone, Copy, PartialEq, Eq, Debug)]
pub enum Class {
    /// The plan.
    Root,
    /// Thread groups.
    Group,
    /// What says which samplers come, and in which order.
    Controller,
    /// What asks a server, or a script, and gives a sample.
    Sampler,
    /// What samplers take their settings and variables from.
    Config,
    /// What is done before a sampler.
    PreProcessor,
    /// Pauses before a sampler.
    Timer,
    /// What takes values from a reply.
    PostProcessor,
    /// Checks of a sample.
    Assertion,
    /// What is handed samples.
    Listener,
}

impl ElementType {
    /// The class of a type.
    pub fn class(self) -> Class
        ensures { result ≡ class_of_type self }
    {
        match self {
            ElementType::TestPlan => Class::Root,
            ElementType::ThreadGroup => Class::Group,
            ElementType::Simple => Class::Controller,
            ElementType::OnceOnly => Class::Controller,
            ElementType::Interleave => Class::Controller,
            ElementType::Random => Class::Controller,
            ElementType::RandomOrder => Class::Controller,
            ElementType::Transaction => Class::Controller,
            ElementType::Loop => Class::Controller,
            ElementType::If => Class::Controller,
            ElementType::While => Class::Controller,
            ElementType::Switch => Class::Controller,
            ElementType::ForEach => Class::Controller,
            ElementType::CriticalSection => Class::Controller,
            ElementType::Script => Class::Sampler,
            ElementType::Http => Class::Sampler,
            ElementType::UserVariables => Class::Config,
            ElementType::HttpDefaults => Class::Config,
            ElementType::HeaderManager => Class::Config,
            ElementType::Counter => Class::Config,
            ElementType::DataSet => Class::Config,
            ElementType::UserParameters => Class::PreProcessor,
            ElementType::ConstantTimer => Class::Timer,
            ElementType::UniformTimer => Class::Timer,
            ElementType::RegexExtractor => Class::PostProcessor,
            ElementType::JsonExtractor => Class::PostProcessor,
            ElementType::BoundaryExtractor => Class::PostProcessor,
            ElementType::ResponseAssertion => Class::Assertion,
            ElementType::DurationAssertion => Class::Assertion,
            ElementType::SizeAssertion => Class::Assertion,
            ElementType::Listener => Class::Listener,
        }
    }
}
