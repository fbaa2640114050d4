//! How a run of the program ends.

ghost use Rattle.std.specs.Prelude.{◌≡◌};
ghost use Rattle.neli_program.specs.Runs.{status_code};

/// How a run of the program ends.
#[derive(Clone, Copy, Debug, PartialEq, Eq)]
pub enum Status {
    /// The whole datagram is listed or written again, or the whole script is played.
    Whole,
    /// The text ends with the line of a fault, or of an unread tail.
    Fault,
    /// Memory ran out. The last line says so.
    Memory,
    /// The input failed, or did not end in time. Nothing is written.
    NoInput,
    /// The output failed. A part of the text may be written.
    NoOutput,
    /// The script has a bad line. The only line that is written names it.
    BadLine,
    /// The arguments are wrong, and the usage line is written.
    Usage,
    /// The arguments are wrong, and the usage line could not be written.
    NoUsage,
}

impl Status {
    /// The exit status.
    pub fn code(self) -> u8
        ensures { result ≡ status_code self }
    {
        match self {
            Status::Whole => 0,
            Status::Fault | Status::Memory | Status::NoInput | Status::NoOutput => 1,
            Status::BadLine | Status::Usage | Status::NoUsage => 2,
        }
    }
}
