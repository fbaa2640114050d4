//! The errors of a router.

ghost use Rattle.std.specs.Prelude.{◌≡◌, Err, IfErr, IfOk, IfSome, OnErr};
ghost use Rattle.neli_attr.specs.Builders.{message_in};
ghost use Rattle.neli_msg.specs.declared.router_error.RouterError.TheVariants as router;
ghost use Rattle.neli_msg.specs.Copies.{error_copy_takes_memory};
ghost use Rattle.neli_msg.specs.Retyping.{IsTypedError, RefusesTypingError, error_takes_memory};
ghost use Rattle.neli_msg.specs.RouterErrors.{de_of, router_of_message, router_text, socket_of};

use crate::{Nlmsgerr, Nlmsghdr, NlmsghdrAck, NlmsghdrErr, SocketError};
use neli_attr::{Buffer, BuildError};
use neli_consts::NlType;
use neli_list::TryClone;
use neli_wire::{DeError, FromBytesWithInput, MsgError, NoMemory, Size};
use std::alloc::{AllocError, AllocFailed, Global};
use std::error::Error;
use std::fmt;
use std::io::ErrorKind;

/// Why a router has no message, or what arrived in place of one; `T` and `P` are the types of messages.
#[derive(Debug, Drop)]
pub enum RouterError<T, P> {
    /// A text says what went wrong.
    Msg(MsgError),
    /// An input or an output failed.
    Io(ErrorKind),
    /// Bytes were not read. Out of memory is [`RouterError::Memory`].
    De(DeError),
    /// The link failed, a datagram could not be read to its end, or a request's payload is not written.
    Socket(SocketError),
    /// The other side answered with an error.
    Nlmsgerr(Nlmsgerr<NlmsghdrErr<T, P>>),
    /// The other side answered with an error that echoes only the header of the request.
    Capped(Nlmsgerr<NlmsghdrAck<T>>),
    /// A message arrived with a sequence number or a port that no request has.
    BadSeqOrPid(Nlmsghdr<T, P>),
    /// An acknowledgement was requested, and something else arrived.
    NoAck,
    /// An acknowledgement arrived that was not requested.
    UnexpectedAck,
    /// The handle is not open here, of a request or of multicast.
    ClosedChannel,
    /// The sequence number belongs to a request that is still open.
    SeqInUse(u32),
    /// Memory ran out.
    Memory,
}

impl<T, P> RouterError<T, P> {
    /// The error with the text that `message` prints, where its type states that text.
    ///
    /// Refused only if memory runs out.
    pub fn new<D: fmt::Display + Drop>(
        alloc: Global,
        message: D,
    ) -> Result<RouterError<T, P>, NoMemory>
        ensures { IfOk result (λ e. IfSome (D.output message) (λ text. e ≡ router.Msg text)) }
    {
        Ok(RouterError::Msg(MsgError::new(alloc, message)?))
    }
}

impl<T: NlType, P: TryClone> RouterError<T, P> {
    /// An equal error.
    ///
    /// Refused only if memory runs out, and only where the error has a text, attributes, or a message whose copy takes
    /// some.
    pub fn try_clone(&self) -> Result<Self, NoMemory>
        ensures value { IfOk result (λ e. e ≡ self.now) }
        ensures memory { OnErr result (error_copy_takes_memory P.copy_takes_memory self.now) }
    {
        Ok(match self {
            RouterError::Msg(message) => RouterError::Msg(message.try_clone()?),
            RouterError::Io(kind) => RouterError::Io(*kind),
            RouterError::De(error) => RouterError::De(error.try_clone()?),
            RouterError::Socket(error) => RouterError::Socket(error.try_clone()?),
            RouterError::Nlmsgerr(answer) => RouterError::Nlmsgerr(answer.try_clone()?),
            RouterError::Capped(answer) => RouterError::Capped(answer.try_clone()?),
            RouterError::BadSeqOrPid(message) => RouterError::BadSeqOrPid(message.try_clone()?),
            RouterError::NoAck => RouterError::NoAck,
            RouterError::UnexpectedAck => RouterError::UnexpectedAck,
            RouterError::ClosedChannel => RouterError::ClosedChannel,
            RouterError::SeqInUse(number) => RouterError::SeqInUse(*number),
            RouterError::Memory => RouterError::Memory,
        })
    }
}

impl<T: NlType, P: TryClone> TryClone for RouterError<T, P> {
    ghost copy_takes_memory = { error_copy_takes_memory P.copy_takes_memory };

    fn try_clone(&self) -> Result<Self, NoMemory> {
        RouterError::try_clone(self)
    }
}

impl RouterError<u16, Buffer> {
    /// The same error with other types: what the other side's answer echoes, and a message with a bad sequence number
    /// or port, are retyped, with lengths computed anew; every other error stays as it is.
    ///
    /// Refused as [`Nlmsgerr::to_typed`] and [`Nlmsghdr::to_typed`] are: with the refusal of the message's bytes as
    /// [`RouterError::De`], as [`RouterError::Msg`] if a length exceeds 32 bits, or as [`RouterError::Memory`]. Only
    /// `Memory` refuses a `Capped` that has attributes, and a `Msg`, a `De` and a `Socket` that have a text, which are
    /// copied; no other error is refused.
    pub fn to_typed<T: NlType, P: FromBytesWithInput + Size>(
        &self,
        alloc: Global,
    ) -> Result<RouterError<T, P>, RouterError<T, P>>
        ensures value { IfOk result
            (IsTypedError T.wire_value P.view P.wire_length P.read self.now) }
        ensures refused { IfErr result
            (RefusesTypingError T.wire_value P.view P.wire_length P.read self.now) }
        ensures memory { result ≡ Err RouterError.Memory → error_takes_memory P.read P.takes_memory self.now }
    {
        Ok(match self {
            RouterError::Nlmsgerr(answer) => RouterError::Nlmsgerr(answer.to_typed(alloc)?),
            RouterError::Capped(answer) => RouterError::Capped(answer.to_typed()?),
            RouterError::BadSeqOrPid(stray) => RouterError::BadSeqOrPid(stray.to_typed(alloc)?),
            RouterError::Msg(text) => RouterError::Msg(text.try_clone()?),
            RouterError::De(refusal) => RouterError::De(refusal.try_clone()?),
            RouterError::Socket(failure) => RouterError::Socket(failure.try_clone()?),
            RouterError::Io(kind) => RouterError::Io(*kind),
            RouterError::NoAck => RouterError::NoAck,
            RouterError::UnexpectedAck => RouterError::UnexpectedAck,
            RouterError::ClosedChannel => RouterError::ClosedChannel,
            RouterError::SeqInUse(number) => RouterError::SeqInUse(*number),
            RouterError::Memory => RouterError::Memory,
        })
    }
}

impl<T, P> fmt::Display for RouterError<T, P> {
    ghost output = { router_text };

    fn fmt<W: fmt::Write>(&self, f: &mut fmt::Formatter<W>) -> fmt::Result {
        match self {
            RouterError::Msg(message) => write!(f, "{message}"),
            RouterError::Io(kind) => write!(f, "IO error: {kind}"),
            RouterError::De(error) => write!(f, "Deserialization failed: {error}"),
            RouterError::Socket(error) => write!(f, "Socket error: {error}"),
            RouterError::Nlmsgerr(answer) => {
                write!(f, "Application error was returned by netlink: {answer}")
            }
            RouterError::Capped(answer) => {
                write!(f, "Application error was returned by netlink: {answer}")
            }
            RouterError::BadSeqOrPid(message) => {
                let number = *message.nl_seq();
                let port = *message.nl_pid();
                write!(
                    f,
                    "A bad sequence number or PID was received: number {number}, port {port}"
                )
            }
            RouterError::NoAck => write!(f, "No ACK received"),
            RouterError::UnexpectedAck => write!(f, "ACK received when none was expected"),
            RouterError::ClosedChannel => {
                write!(f, "A channel required for message processing closed")
            }
            RouterError::SeqInUse(number) => write!(f, "Sequence number {number} is in use"),
            RouterError::Memory => write!(f, "Out of memory"),
        }
    }
}

impl<T: fmt::Debug + Drop, P: fmt::Debug + Drop> Error for RouterError<T, P> {}

impl<T, P> From<MsgError> for RouterError<T, P> {
    ghost from_gives = { λ message e. e ≡ router.Msg message };

    fn from(message: MsgError) -> Self {
        RouterError::Msg(message)
    }
}

impl<T, P> From<DeError> for RouterError<T, P> {
    ghost from_gives = { λ error e. e ≡ de_of error };

    fn from(error: DeError) -> Self {
        match error {
            DeError::Memory => RouterError::Memory,
            error => RouterError::De(error),
        }
    }
}

impl<T, P> From<SocketError> for RouterError<T, P> {
    ghost from_gives = { λ error e. e ≡ socket_of error };

    fn from(error: SocketError) -> Self {
        match error {
            SocketError::Memory => RouterError::Memory,
            error => RouterError::Socket(error),
        }
    }
}

impl<T, P, const OF: u8> From<BuildError<OF>> for RouterError<T, P> {
    ghost from_gives = { λ error e. e ≡ router_of_message (message_in error) };

    /// The text of the builder's error. `Memory` stays `Memory`.
    fn from(error: BuildError<OF>) -> Self {
        match error.into_message() {
            Some(message) => RouterError::Msg(message),
            None => RouterError::Memory,
        }
    }
}

impl<T, P> From<NoMemory> for RouterError<T, P> {
    ghost from_gives = { λ _ e. e ≡ router.Memory };

    fn from(_error: NoMemory) -> Self {
        RouterError::Memory
    }
}

impl<T, P> From<AllocError> for RouterError<T, P> {
    ghost from_gives = { λ _ e. e ≡ router.Memory };

    fn from(_error: AllocError) -> Self {
        RouterError::Memory
    }
}

impl<T, P, V: Drop> From<AllocFailed<V>> for RouterError<T, P> {
    ghost from_gives = { λ _ e. e ≡ router.Memory };

    fn from(_error: AllocFailed<V>) -> Self {
        RouterError::Memory
    }
}
