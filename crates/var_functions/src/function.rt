// The functions and how many arguments they take.

ghost use Rattle.std.specs.Prelude.{◌≡◌};
ghost use Rattle.var_functions.specs.Functions.{function_named, takes};

/// A function of the JMeter User Manual, "Functions and Variables".
#[derive(Clone, Copy, PartialEq, Eq, Debug)]
pub(crate) enum Function {
    /// `__threadNum`
    ThreadNum,
    /// `__counter`
    Counter,
    /// `__Random`
    Random,
    /// `__intSum`
    IntSum,
    /// `__V`
    Variable,
    /// `__time`
    Time,
    /// `__P`
    Property,
    /// `__isVarDefined`
    IsVarDefined,
    /// `__jexl3`
    Condition,
}

/// The function of a name, without the `__` before it.
pub(crate) fn function_named(name: &[u8]) -> Option<Function>
    ensures { result ≡ function_named name.now }
{
    if name == b"threadNum".as_slice() {
        return Some(Function::ThreadNum);
    }
    if name == b"counter".as_slice() {
        return Some(Function::Counter);
    }
    if name == b"Random".as_slice() {
        return Some(Function::Random);
    }
    if name == b"intSum".as_slice() {
        return Some(Function::IntSum);
    }
    if name == b"V".as_slice() {
        return Some(Function::Variable);
    }
    if name == b"time".as_slice() {
        return Some(Function::Time);
    }
    if name == b"P".as_slice() {
        return Some(Function::Property);
    }
    if name == b"isVarDefined".as_slice() {
        return Some(Function::IsVarDefined);
    }
    if name == b"jexl3".as_slice() {
        return Some(Function::Condition);
    }
    None
}

impl Function {
    /// Whether it takes that many arguments.
    pub(crate) fn takes(self, count: usize) -> bool
        ensures { result ≡ takes self count }
    {
        match self {
            Function::ThreadNum | Function::Time => count == 0,
            Function::Counter | Function::IsVarDefined | Function::Condition => count == 1,
            Function::Random => count == 2,
            Function::IntSum => count >= 2,
            Function::Variable | Function::Property => count == 1 || count == 2,
        }
    }
}
