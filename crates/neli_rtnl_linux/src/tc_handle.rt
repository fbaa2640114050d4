//! Handles of traffic control.

ghost use Rattle.std.specs.Prelude.{◌≡◌, ◌+◌, ◌*◌, ◌/◌, ◌%◌, refl, Some};
ghost use Rattle.neli_rtnl_linux.specs.TcHandle.{handle_part, handle_text};

use neli_wire::Constant;
use std::fmt;

/// A handle of a queueing discipline or a class: a major number, which is the discipline's, and a minor one, which is 0
/// for the discipline itself; 16 bits each, in the upper and the lower half of `tcm_handle` and `tcm_parent`.
///
/// It prints as `tc` prints it, in hexadecimal: `8001:` a discipline, `8001:1a` a class, `:1a` where the major number
/// is 0, and `none` and `root`.
#[derive(Clone, Copy, Debug, PartialEq, Eq)]
pub struct TcHandle(u32);

impl TcHandle {
    /// No handle: `TC_H_UNSPEC` of `linux/pkt_sched.h`.
    pub const NONE: TcHandle = TcHandle(0);

    /// The parent of a link's outermost discipline: `TC_H_ROOT`.
    pub const ROOT: TcHandle = TcHandle(0xffffffff);

    /// The parent of the disciplines of kind `ingress` and `clsact`: `TC_H_INGRESS`. It prints as `ffff:fff1`.
    pub const INGRESS: TcHandle = TcHandle(0xfffffff1);

    /// The handle with these two numbers.
    pub fn new(major: u16, minor: u16) -> TcHandle
        ensures { result.0 ≡ major * 65536 + minor }
    {
        TcHandle(u32::from(major) * 65536 + u32::from(minor))
    }

    /// The major number: the discipline's.
    pub fn major(self) -> u16
        ensures { result ≡ self.0 / 65536 }
    {
        (self.0 / 65536) as u16
    }

    /// The minor number: the class's; 0 for the discipline itself.
    pub fn minor(self) -> u16
        ensures { result ≡ self.0 % 65536 }
    {
        (self.0 % 65536) as u16
    }
}

impl Constant for TcHandle {
    type Number = u32;

    ghost wire_number = { λ handle. handle.0 };

    ghost wire_value = { λ number. record { 0 = number } };

    fn from_wire(number: u32) -> TcHandle {
        TcHandle(number)
    }

    fn to_wire(&self) -> u32 {
        self.0
    }

    ghost back_to_number = { λ n _. refl };
}

/// One half of a handle, which prints as nothing where it is 0.
#[derive(Clone, Copy)]
struct Part(u16);

impl fmt::Display for Part {
    ghost output = { λ part. Some (handle_part part.0) };

    fn fmt<W: fmt::Write>(&self, f: &mut fmt::Formatter<W>) -> fmt::Result {
        match self.0 {
            0 => Ok(()),
            number => write!(f, "{number:x}"),
        }
    }
}

impl fmt::Display for TcHandle {
    ghost output = { λ handle. Some (handle_text handle.0) };

    fn fmt<W: fmt::Write>(&self, f: &mut fmt::Formatter<W>) -> fmt::Result {
        match self.0 {
            0 => write!(f, "none"),
            0xffffffff => write!(f, "root"),
            _ => {
                let (major, minor) = (Part(self.major()), Part(self.minor()));
                write!(f, "{major}:{minor}")
            }
        }
    }
}
