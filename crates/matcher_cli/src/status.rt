// How a run of the program ended.
ghost use Rattle.std.specs.Prelude.{◌≡◌};
ghost use Rattle.matcher_cli.specs.Codes.{code_of};

/// How a run of the program ended; `code` is the exit status.
#[derive(Debug, Clone, Copy, PartialEq, Eq)]
pub enum Status {
    /// What was asked is done: the answer is valid, the rules are written, a best lottery is written, or a report is.
    Done,
    /// The answer breaks a clause: the line names the first.
    Broken,
    /// No lottery fits the rules: the cut that shows it is written, or, where it was read, its line.
    Infeasible,
    /// The words aren't taken.
    Usage,
    /// Reading the input or a file failed.
    ReadFault,
    /// Writing failed.
    WriteFault,
    /// The keeper failed where the desk was opened.
    KeeperFault,
    /// The input is no certificate, the files make no rules, or the stream ended with the refusal of what was no request.
    Refused,
    /// Memory was wanting.
    Memory,
    /// The rows of the keeper are damaged: the line names the first from which no history follows.
    Damaged,
}

impl Status {
    /// The exit status: 0 to 8.
    pub fn code(self) -> u8
        ensures { result ≡ code_of self }
    {
        match self {
            Status::Done => 0,
            Status::Broken => 1,
            Status::Infeasible => 1,
            Status::Usage => 2,
            Status::ReadFault => 3,
            Status::WriteFault => 4,
            Status::KeeperFault => 5,
            Status::Refused => 6,
            Status::Memory => 7,
            Status::Damaged => 8,
        }
    }
}
