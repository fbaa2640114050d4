//! How a process ended.

ghost use Rattle.std.specs.Prelude.{◌≡◌, Some};
ghost use Rattle.neli_texts.specs.ExitStatus.{exited_with, has_core, killed_by, status_text};

use std::fmt;

/// How a process ended, as a number of wait(2): the `exit_code` of `ProcEvent::Exit`.
///
/// It prints `exited with 3`, `killed by signal 9`, `killed by signal 11 (core dumped)`, or `status 0x137f` for any
/// other number, as that of a process that was stopped.
#[derive(Clone, Copy, Debug, PartialEq, Eq)]
pub struct ExitStatus(u32);

impl From<u32> for ExitStatus {
    ghost from_gives = { λ number status. status.0 ≡ number };

    fn from(number: u32) -> ExitStatus {
        ExitStatus(number)
    }
}

impl From<ExitStatus> for u32 {
    ghost from_gives = { λ status number. number ≡ status.0 };

    fn from(status: ExitStatus) -> u32 {
        status.0
    }
}

impl ExitStatus {
    /// The argument of exit(3), if the process ended by itself (`WIFEXITED`, `WEXITSTATUS`).
    pub fn code(self) -> Option<u8>
        ensures { result ≡ exited_with self.0 }
    {
        if self.0 % 128 != 0 {
            return None;
        }
        Some((self.0 / 256 % 256) as u8)
    }

    /// The signal that killed the process, if one did (`WIFSIGNALED`, `WTERMSIG`).
    pub fn signal(self) -> Option<u8>
        ensures { result ≡ killed_by self.0 }
    {
        let signal = self.0 % 128;
        if signal == 0 || signal == 127 {
            return None;
        }
        Some(signal as u8)
    }

    /// Whether a signal killed the process and its memory was written to a file (`WCOREDUMP`).
    pub fn core_dumped(self) -> bool
        ensures { result ≡ has_core self.0 }
    {
        self.signal().is_some() && self.0 / 128 % 2 == 1
    }
}

impl fmt::Display for ExitStatus {
    ghost output = { λ status. Some (status_text status.0) };

    fn fmt<W: fmt::Write>(&self, f: &mut fmt::Formatter<W>) -> fmt::Result {
        let number = self.0;
        if let Some(code) = self.code() {
            return write!(f, "exited with {code}");
        }
        match self.signal() {
            Some(signal) if self.core_dumped() => {
                write!(f, "killed by signal {signal} (core dumped)")
            }
            Some(signal) => write!(f, "killed by signal {signal}"),
            None => write!(f, "status 0x{number:x}"),
        }
    }
}
