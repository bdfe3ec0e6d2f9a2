//! How a run ends.

ghost use Rattle.std.specs.Prelude.{◌≡◌, ◌≤◌};
ghost use Rattle.acn_commands.specs.Serves.{code_of};

/// How a run ended. (This program's own.)
#[derive(Clone, Copy)]
pub enum Status {
    /// The command is done.
    Done,
    /// The words have none of the forms of a command.
    Usage,
    /// The sources are refused.
    NoGrammar,
    /// A packet, a line or the length of the input is refused.
    BadInput,
    /// A file can't be read.
    FileFailed,
    /// The input failed.
    InputFailed,
    /// The output failed.
    OutputFailed,
    /// Memory ran out.
    NoMemory,
}

impl Status {
    /// The number with which the program ends.
    pub fn code(self) -> u8
        ensures { result ≡ code_of self }
    {
        match self {
            Status::Done => 0,
            Status::Usage => 1,
            Status::NoGrammar => 2,
            Status::BadInput => 3,
            Status::FileFailed => 4,
            Status::InputFailed => 5,
            Status::OutputFailed => 6,
            Status::NoMemory => 7,
        }
    }
}
