// How the program ends.

ghost use Rattle.std.specs.Prelude.{◌≡◌};
ghost use Rattle.jm_command.specs.Command.{number_of};

/// How the program ends.
#[derive(Clone, Copy, PartialEq, Eq, Debug)]
pub enum Status {
    /// Everything is printed.
    Done,
    /// The words are not a command, and the usage line is printed.
    Usage,
    /// The plan is refused, and the refusal line is printed.
    Refused,
    /// The plan could not be read, and nothing is printed.
    ReadFault,
    /// A text could not be written whole.
    WriteFault,
    /// Memory ran out.
    Memory,
}

impl Status {
    /// The exit status of the process: 0, 2, 3, 4, 5 or 7.
    pub fn number(self) -> u8
        ensures { result ≡ number_of self }
    {
        match self {
            Status::Done => 0,
            Status::Usage => 2,
            Status::Refused => 3,
            Status::ReadFault => 4,
            Status::WriteFault => 5,
            Status::Memory => 7,
        }
    }
}
