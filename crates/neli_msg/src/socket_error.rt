//! The errors of a reader of messages, or of a link below it.

ghost use Rattle.std.specs.Prelude.{◌≡◌, IfOk, IfSome, OnErr};
ghost use Rattle.std.specs.IoError.{error_kind};
ghost use Rattle.neli_attr.specs.Builders.{message_in};
ghost use Rattle.neli_msg.specs.declared.socket_error.SocketError.TheVariants as socket;
ghost use Rattle.neli_msg.specs.Copies.{socket_copy_takes_memory};
ghost use Rattle.neli_msg.specs.SocketErrors.{of_ser, of_de, socket_of_message, socket_text};

use neli_attr::BuildError;
use neli_wire::{DeError, MsgError, NoMemory, SerError};
use std::alloc::{AllocError, AllocFailed, Global};
use std::error::Error;
use std::io::ErrorKind;
use std::{fmt, io};

/// Why a message was not sent or received.
#[derive(Debug, Drop)]
pub enum SocketError {
    /// A text says what went wrong.
    Msg(MsgError),
    /// A message was not written. Out of memory is [`SocketError::Memory`].
    Ser(SerError),
    /// The bytes are no message. Out of memory is [`SocketError::Memory`].
    De(DeError),
    /// The link failed.
    Io(ErrorKind),
    /// Memory ran out.
    Memory,
}

impl SocketError {
    /// The error with the text that `message` prints, where its type states that text.
    ///
    /// Refused only if memory runs out.
    pub fn new<D: fmt::Display + Drop>(alloc: Global, message: D) -> Result<SocketError, NoMemory>
        ensures { IfOk result (λ e. IfSome (D.output message) (λ text. e ≡ socket.Msg text)) }
    {
        Ok(SocketError::Msg(MsgError::new(alloc, message)?))
    }

    /// An equal error.
    ///
    /// Refused only if memory runs out, and only where the error has a text.
    pub fn try_clone(&self) -> Result<SocketError, NoMemory>
        ensures value { IfOk result (λ e. e ≡ self.now) }
        ensures memory { OnErr result (socket_copy_takes_memory self.now) }
    {
        Ok(match self {
            SocketError::Msg(message) => SocketError::Msg(message.try_clone()?),
            SocketError::Ser(error) => SocketError::Ser(error.try_clone()?),
            SocketError::De(error) => SocketError::De(error.try_clone()?),
            SocketError::Io(kind) => SocketError::Io(*kind),
            SocketError::Memory => SocketError::Memory,
        })
    }
}

impl fmt::Display for SocketError {
    ghost output = { socket_text };

    fn fmt<W: fmt::Write>(&self, f: &mut fmt::Formatter<W>) -> fmt::Result {
        match self {
            SocketError::Msg(message) => write!(f, "{message}"),
            SocketError::Ser(error) => write!(f, "Serialization error: {error}"),
            SocketError::De(error) => write!(f, "Deserialization error: {error}"),
            SocketError::Io(kind) => write!(f, "IO error: {kind}"),
            SocketError::Memory => write!(f, "Out of memory"),
        }
    }
}

impl Error for SocketError {}

impl From<MsgError> for SocketError {
    ghost from_gives = { λ message e. e ≡ socket.Msg message };

    fn from(message: MsgError) -> SocketError {
        SocketError::Msg(message)
    }
}

impl From<SerError> for SocketError {
    ghost from_gives = { λ error e. e ≡ of_ser error };

    fn from(error: SerError) -> SocketError {
        match error {
            SerError::Memory => SocketError::Memory,
            error => SocketError::Ser(error),
        }
    }
}

impl From<DeError> for SocketError {
    ghost from_gives = { λ error e. e ≡ of_de error };

    fn from(error: DeError) -> SocketError {
        match error {
            DeError::Memory => SocketError::Memory,
            error => SocketError::De(error),
        }
    }
}

impl From<io::Error> for SocketError {
    ghost from_gives = { λ error e. e ≡ socket.Io (error_kind error) };

    fn from(error: io::Error) -> SocketError {
        SocketError::Io(error.kind())
    }
}

impl<const OF: u8> From<BuildError<OF>> for SocketError {
    ghost from_gives = { λ error e. e ≡ socket_of_message (message_in error) };

    /// The text of the builder's error. `Memory` stays `Memory`.
    fn from(error: BuildError<OF>) -> SocketError {
        match error.into_message() {
            Some(message) => SocketError::Msg(message),
            None => SocketError::Memory,
        }
    }
}

impl From<NoMemory> for SocketError {
    ghost from_gives = { λ _ e. e ≡ socket.Memory };

    fn from(_error: NoMemory) -> SocketError {
        SocketError::Memory
    }
}

impl From<AllocError> for SocketError {
    ghost from_gives = { λ _ e. e ≡ socket.Memory };

    fn from(_error: AllocError) -> SocketError {
        SocketError::Memory
    }
}

impl<T: Drop> From<AllocFailed<T>> for SocketError {
    ghost from_gives = { λ _ e. e ≡ socket.Memory };

    fn from(_error: AllocFailed<T>) -> SocketError {
        SocketError::Memory
    }
}
