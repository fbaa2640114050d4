//! Builders: the errors of those that make no value.
//!
//! A builder is a struct of the fields given so far. `default` gives none and takes no memory; each setter gives one by
//! value. `build` refuses first with the name of the first missing field, in the order of the fields; then with a fault
//! of the value that they would make; then with `Memory`, which may also replace such a fault.

ghost use Rattle.std.specs.Prelude.{◌≡◌, Some, codes};

use neli_wire::{MsgError, NoMemory, SerError, UninitializedFieldError};
use std::alloc::{AllocError, AllocFailed};
use std::error::Error;
use std::fmt;

/// The builders, by the type that they make. A number tells a builder's errors from those of the others.
///
/// Up to 31 they are those of the types that the errors of `neli_reader` name, and 5 is not used. A crate with more
/// builders says their numbers itself, beside them, from a range of its own: `neli_rtnl` from 32 to 47,
/// `neli_rtnl_linux` from 48 to 79, `neli_genl` from 80 to 95, `neli_short` from 96 to 111. A builder outside these
/// crates takes one from 128 on.
pub mod of {
    /// The number of the builder of `AttrType`.
    pub const ATTR_TYPE: u8 = 0;

    /// The number of the builder of `Nlattr`.
    pub const NLATTR: u8 = 1;

    /// The number of the builder of `Rtattr`.
    pub const RTATTR: u8 = 2;

    /// The number of the builder of `Genlmsghdr`.
    pub const GENLMSGHDR: u8 = 3;

    /// The number of the builder of `CnMsg`.
    pub const CN_MSG: u8 = 4;

    /// The number of the builder of `Ifinfomsg`.
    pub const IFINFOMSG: u8 = 6;

    /// The number of the builder of `Ifaddrmsg`.
    pub const IFADDRMSG: u8 = 7;

    /// The number of the builder of `Ndmsg`.
    pub const NDMSG: u8 = 8;

    /// The number of the builder of `NdaCacheinfo`.
    pub const NDA_CACHEINFO: u8 = 9;

    /// The number of the builder of `IflaVlanFlags`.
    pub const IFLA_VLAN_FLAGS: u8 = 10;

    /// The number of the builder of `IflaVlanQosMapping`.
    pub const IFLA_VLAN_QOS_MAPPING: u8 = 11;

    /// The number of the builder of `Rtgenmsg`.
    pub const RTGENMSG: u8 = 12;

    /// The number of the builder of `Rtmsg`.
    pub const RTMSG: u8 = 13;

    /// The number of the builder of `Tcmsg`.
    pub const TCMSG: u8 = 14;

    /// The number of the builder of `Fibmsg`.
    pub const FIBMSG: u8 = 15;

    /// The number of the builder of `NlmsghdrAck`.
    pub const NLMSGHDR_ACK: u8 = 16;

    /// The number of the builder of `NlmsghdrErr`.
    pub const NLMSGHDR_ERR: u8 = 17;

    /// The number of the builder of `Nlmsgerr`.
    pub const NLMSGERR: u8 = 18;

    /// The number of the builder of `Nlmsghdr`.
    pub const NLMSGHDR: u8 = 19;
}

/// Why a builder, known by the number `OF`, made no value.
#[derive(Debug, Drop)]
pub enum BuildError<const OF: u8> {
    /// The field of this name was not given.
    UninitializedField(&'static str),
    /// The fields make no value; the text says why.
    ValidationError(&'static str),
    /// Memory ran out.
    Memory,
}

impl<const OF: u8> BuildError<OF> {
    ghost use Rattle.neli_attr_parts.specs.Builders.{message_in};

    /// The text that it prints, as the message of another error; none where memory ran out. It takes no memory.
    pub fn into_message(self) -> Option<MsgError>
        ensures { result ≡ message_in self.entry }
    {
        match self {
            BuildError::UninitializedField(name) => {
                Some(MsgError::from(UninitializedFieldError::new(name)))
            }
            BuildError::ValidationError(text) => Some(MsgError::from_static(text)),
            BuildError::Memory => None,
        }
    }
}

impl<const OF: u8> fmt::Display for BuildError<OF> {
    ghost use Rattle.neli_attr_parts.specs.Builders.{error_text};

    ghost output = { λ e. Some (error_text e) };

    fn fmt<W: fmt::Write>(&self, f: &mut fmt::Formatter<W>) -> fmt::Result {
        match self {
            BuildError::UninitializedField(name) => write!(f, "`{name}` must be initialized"),
            BuildError::ValidationError(text) => write!(f, "{text}"),
            BuildError::Memory => write!(f, "Out of memory"),
        }
    }
}

impl<const OF: u8> Error for BuildError<OF> {}

impl<const OF: u8> From<UninitializedFieldError> for BuildError<OF> {
    ghost use Rattle.std.specs.Prelude.{◌≡◌};
    ghost use Rattle.neli_wire.specs.Messages.{name_of};
    ghost use Rattle.neli_attr_parts.specs.Builders.{IsMissing};

    ghost from_gives = { λ error e. IsMissing (name_of error) e };

    fn from(error: UninitializedFieldError) -> BuildError<OF> {
        BuildError::UninitializedField(error.field_name())
    }
}

impl<const OF: u8> From<SerError> for BuildError<OF> {
    ghost use Rattle.neli_attr_parts.specs.Builders.{IsRefusedPayload};

    ghost from_gives = { IsRefusedPayload };

    /// A payload that was not written. `Memory` stays `Memory`.
    fn from(error: SerError) -> BuildError<OF> {
        match error {
            SerError::Memory => BuildError::Memory,
            _ => BuildError::ValidationError("Could not convert payload to binary representation"),
        }
    }
}

impl<const OF: u8> From<NoMemory> for BuildError<OF> {
    ghost use Rattle.neli_attr_parts.specs.Builders.{IsMemory};

    ghost from_gives = { λ _ e. IsMemory e };

    fn from(_error: NoMemory) -> BuildError<OF> {
        BuildError::Memory
    }
}

impl<const OF: u8> From<AllocError> for BuildError<OF> {
    ghost use Rattle.neli_attr_parts.specs.Builders.{IsMemory};

    ghost from_gives = { λ _ e. IsMemory e };

    fn from(_error: AllocError) -> BuildError<OF> {
        BuildError::Memory
    }
}

impl<const OF: u8, T: Drop> From<AllocFailed<T>> for BuildError<OF> {
    ghost use Rattle.neli_attr_parts.specs.Builders.{IsMemory};

    ghost from_gives = { λ _ e. IsMemory e };

    fn from(_error: AllocFailed<T>) -> BuildError<OF> {
        BuildError::Memory
    }
}
