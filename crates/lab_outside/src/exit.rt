// How the program ends.
ghost use Rattle.std.specs.Prelude.{◌≡◌};
ghost use Rattle.lab_outside.specs.Exit.{code_of};

/// How a run of the program ended.
#[derive(Debug, Clone, Copy, PartialEq, Eq)]
pub enum Status {
    /// All was done.
    Done,
    /// The input was refused.
    Refused,
    /// The words after the program's name ask for nothing that it does.
    Usage,
    /// The input's count of faults rose.
    ReadFault,
    /// The output's count of faults rose.
    WriteFault,
    /// The link's count of faults rose.
    LinkFault,
    /// Memory was refused.
    Memory,
    /// A limit was passed.
    Limit,
}

impl Status {
    /// The number with which the program ends.
    pub fn code(self) -> u8
        ensures { result ≡ code_of self }
    {
        match self {
            Status::Done => 0,
            Status::Refused => 1,
            Status::Usage => 2,
            Status::ReadFault => 3,
            Status::WriteFault => 4,
            Status::LinkFault => 5,
            Status::Memory => 6,
            Status::Limit => 7,
        }
    }
}
