//! Why a builder made no value, as one type for fifteen of the builders; those of `CnMsg`,
//! `Fibmsg`, `IflaVlanFlags` and `IflaVlanQosMapping` have only their own error.

ghost use Rattle.std.specs.Prelude.{◌≡◌, Some};
ghost use Rattle.neli_msg.specs.RouterErrors.{router_of_message};
ghost use Rattle.neli_msg.specs.SocketErrors.{socket_of_message};
ghost use Rattle.neli_reader.specs.declared.builder_error.BuilderError.TheVariants as builder;
ghost use Rattle.neli_reader.specs.BuilderErrors.{builder_text, de_of_message, message_of};

use neli_attr::{BuildError, of};
use neli_msg::{RouterError, SocketError};
use neli_wire::{DeError, MsgError};
use std::error::Error;
use std::fmt;

/// Why a builder made no value, and which builder.
#[derive(Debug, Drop)]
pub enum BuilderError {
    /// That of messages.
    Nlmsghdr(BuildError<{ of::NLMSGHDR }>),
    /// That of answers.
    Nlmsgerr(BuildError<{ of::NLMSGERR }>),
    /// That of echoed messages.
    NlmsghdrErr(BuildError<{ of::NLMSGHDR_ERR }>),
    /// That of headers.
    NlmsghdrAck(BuildError<{ of::NLMSGHDR_ACK }>),
    /// That of type fields.
    AttrType(BuildError<{ of::ATTR_TYPE }>),
    /// That of generic attributes.
    Nlattr(BuildError<{ of::NLATTR }>),
    /// That of routing attributes.
    Rtattr(BuildError<{ of::RTATTR }>),
    /// That of generic netlink bodies.
    Genlmsghdr(BuildError<{ of::GENLMSGHDR }>),
    /// That of link bodies.
    Ifinfomsg(BuildError<{ of::IFINFOMSG }>),
    /// That of address bodies.
    Ifaddrmsg(BuildError<{ of::IFADDRMSG }>),
    /// That of requests by family only.
    Rtgenmsg(BuildError<{ of::RTGENMSG }>),
    /// That of route bodies.
    Rtmsg(BuildError<{ of::RTMSG }>),
    /// That of neighbour bodies.
    Ndmsg(BuildError<{ of::NDMSG }>),
    /// That of cache information of neighbours.
    NdaCacheinfo(BuildError<{ of::NDA_CACHEINFO }>),
    /// That of queueing disciplines, classes and filters.
    Tcmsg(BuildError<{ of::TCMSG }>),
}

/// The text of a builder's error; none where memory ran out. It takes no memory.
fn message_of(error: BuilderError) -> Option<MsgError>
    ensures { result ≡ message_of error }
{
    match error {
        BuilderError::Nlmsghdr(error) => error.into_message(),
        BuilderError::Nlmsgerr(error) => error.into_message(),
        BuilderError::NlmsghdrErr(error) => error.into_message(),
        BuilderError::NlmsghdrAck(error) => error.into_message(),
        BuilderError::AttrType(error) => error.into_message(),
        BuilderError::Nlattr(error) => error.into_message(),
        BuilderError::Rtattr(error) => error.into_message(),
        BuilderError::Genlmsghdr(error) => error.into_message(),
        BuilderError::Ifinfomsg(error) => error.into_message(),
        BuilderError::Ifaddrmsg(error) => error.into_message(),
        BuilderError::Rtgenmsg(error) => error.into_message(),
        BuilderError::Rtmsg(error) => error.into_message(),
        BuilderError::Ndmsg(error) => error.into_message(),
        BuilderError::NdaCacheinfo(error) => error.into_message(),
        BuilderError::Tcmsg(error) => error.into_message(),
    }
}

impl fmt::Display for BuilderError {
    ghost output = { λ e. Some (builder_text e) };

    fn fmt<W: fmt::Write>(&self, f: &mut fmt::Formatter<W>) -> fmt::Result {
        match self {
            BuilderError::Nlmsghdr(error) => write!(f, "{error}"),
            BuilderError::Nlmsgerr(error) => write!(f, "{error}"),
            BuilderError::NlmsghdrErr(error) => write!(f, "{error}"),
            BuilderError::NlmsghdrAck(error) => write!(f, "{error}"),
            BuilderError::AttrType(error) => write!(f, "{error}"),
            BuilderError::Nlattr(error) => write!(f, "{error}"),
            BuilderError::Rtattr(error) => write!(f, "{error}"),
            BuilderError::Genlmsghdr(error) => write!(f, "{error}"),
            BuilderError::Ifinfomsg(error) => write!(f, "{error}"),
            BuilderError::Ifaddrmsg(error) => write!(f, "{error}"),
            BuilderError::Rtgenmsg(error) => write!(f, "{error}"),
            BuilderError::Rtmsg(error) => write!(f, "{error}"),
            BuilderError::Ndmsg(error) => write!(f, "{error}"),
            BuilderError::NdaCacheinfo(error) => write!(f, "{error}"),
            BuilderError::Tcmsg(error) => write!(f, "{error}"),
        }
    }
}

impl Error for BuilderError {}

impl From<BuildError<{ of::NLMSGHDR }>> for BuilderError {
    ghost from_gives = { λ error e. e ≡ builder.Nlmsghdr error };

    fn from(error: BuildError<{ of::NLMSGHDR }>) -> BuilderError {
        BuilderError::Nlmsghdr(error)
    }
}

impl From<BuildError<{ of::NLMSGERR }>> for BuilderError {
    ghost from_gives = { λ error e. e ≡ builder.Nlmsgerr error };

    fn from(error: BuildError<{ of::NLMSGERR }>) -> BuilderError {
        BuilderError::Nlmsgerr(error)
    }
}

impl From<BuildError<{ of::NLMSGHDR_ERR }>> for BuilderError {
    ghost from_gives = { λ error e. e ≡ builder.NlmsghdrErr error };

    fn from(error: BuildError<{ of::NLMSGHDR_ERR }>) -> BuilderError {
        BuilderError::NlmsghdrErr(error)
    }
}

impl From<BuildError<{ of::NLMSGHDR_ACK }>> for BuilderError {
    ghost from_gives = { λ error e. e ≡ builder.NlmsghdrAck error };

    fn from(error: BuildError<{ of::NLMSGHDR_ACK }>) -> BuilderError {
        BuilderError::NlmsghdrAck(error)
    }
}

impl From<BuildError<{ of::ATTR_TYPE }>> for BuilderError {
    ghost from_gives = { λ error e. e ≡ builder.AttrType error };

    fn from(error: BuildError<{ of::ATTR_TYPE }>) -> BuilderError {
        BuilderError::AttrType(error)
    }
}

impl From<BuildError<{ of::NLATTR }>> for BuilderError {
    ghost from_gives = { λ error e. e ≡ builder.Nlattr error };

    fn from(error: BuildError<{ of::NLATTR }>) -> BuilderError {
        BuilderError::Nlattr(error)
    }
}

impl From<BuildError<{ of::RTATTR }>> for BuilderError {
    ghost from_gives = { λ error e. e ≡ builder.Rtattr error };

    fn from(error: BuildError<{ of::RTATTR }>) -> BuilderError {
        BuilderError::Rtattr(error)
    }
}

impl From<BuildError<{ of::GENLMSGHDR }>> for BuilderError {
    ghost from_gives = { λ error e. e ≡ builder.Genlmsghdr error };

    fn from(error: BuildError<{ of::GENLMSGHDR }>) -> BuilderError {
        BuilderError::Genlmsghdr(error)
    }
}

impl From<BuildError<{ of::IFINFOMSG }>> for BuilderError {
    ghost from_gives = { λ error e. e ≡ builder.Ifinfomsg error };

    fn from(error: BuildError<{ of::IFINFOMSG }>) -> BuilderError {
        BuilderError::Ifinfomsg(error)
    }
}

impl From<BuildError<{ of::IFADDRMSG }>> for BuilderError {
    ghost from_gives = { λ error e. e ≡ builder.Ifaddrmsg error };

    fn from(error: BuildError<{ of::IFADDRMSG }>) -> BuilderError {
        BuilderError::Ifaddrmsg(error)
    }
}

impl From<BuildError<{ of::RTGENMSG }>> for BuilderError {
    ghost from_gives = { λ error e. e ≡ builder.Rtgenmsg error };

    fn from(error: BuildError<{ of::RTGENMSG }>) -> BuilderError {
        BuilderError::Rtgenmsg(error)
    }
}

impl From<BuildError<{ of::RTMSG }>> for BuilderError {
    ghost from_gives = { λ error e. e ≡ builder.Rtmsg error };

    fn from(error: BuildError<{ of::RTMSG }>) -> BuilderError {
        BuilderError::Rtmsg(error)
    }
}

impl From<BuildError<{ of::NDMSG }>> for BuilderError {
    ghost from_gives = { λ error e. e ≡ builder.Ndmsg error };

    fn from(error: BuildError<{ of::NDMSG }>) -> BuilderError {
        BuilderError::Ndmsg(error)
    }
}

impl From<BuildError<{ of::NDA_CACHEINFO }>> for BuilderError {
    ghost from_gives = { λ error e. e ≡ builder.NdaCacheinfo error };

    fn from(error: BuildError<{ of::NDA_CACHEINFO }>) -> BuilderError {
        BuilderError::NdaCacheinfo(error)
    }
}

impl From<BuildError<{ of::TCMSG }>> for BuilderError {
    ghost from_gives = { λ error e. e ≡ builder.Tcmsg error };

    fn from(error: BuildError<{ of::TCMSG }>) -> BuilderError {
        BuilderError::Tcmsg(error)
    }
}

impl From<BuilderError> for SocketError {
    ghost from_gives = { λ error e. e ≡ socket_of_message (message_of error) };

    /// The text of the builder's error. `Memory` stays `Memory`.
    fn from(error: BuilderError) -> SocketError {
        match message_of(error) {
            Some(message) => SocketError::Msg(message),
            None => SocketError::Memory,
        }
    }
}

impl From<BuilderError> for DeError {
    ghost from_gives = { λ error e. e ≡ de_of_message (message_of error) };

    /// The text of the builder's error. `Memory` stays `Memory`.
    fn from(error: BuilderError) -> DeError {
        match message_of(error) {
            Some(message) => DeError::Msg(message),
            None => DeError::Memory,
        }
    }
}

impl<T, P> From<BuilderError> for RouterError<T, P> {
    ghost from_gives = { λ error e. e ≡ router_of_message (message_of error) };

    /// The text of the builder's error. `Memory` stays `Memory`.
    fn from(error: BuilderError) -> Self {
        match message_of(error) {
            Some(message) => RouterError::Msg(message),
            None => RouterError::Memory,
        }
    }
}
