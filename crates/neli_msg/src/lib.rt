//! The parts of messages: their header, their payload by its kind, errors and acknowledgements.
//!
//! - [`NlmsghdrAck`]: the header at the front of every message, and in an acknowledgement.
//! - [`NlmsghdrErr`]: the message that an error answers, as it is echoed.
//! - [`Nlmsgerr`]: an answer, which is a code, what it answers, and attributes.
//! - [`Explained`]: an answer in a form for people.
//! - [`Kind`]: what the payload of a message is; [`NlPayload`]: that payload, read.
//! - [`Framed`]: a header and its payload, the form of all messages.
//! - [`laws`]: what these state about themselves.
//!
//! `specs/Kinds.antt` states on one page which kind a payload is and how its bytes are read.
#![tactic(auto)]

mod answer;
mod echo;
mod explained;
mod frame;
mod framed;
mod header;
mod kind;
pub mod laws;
mod message;
mod payload;
mod router_error;
mod socket_error;

pub use answer::{Nlmsgerr, NlmsgerrBuilder, NlmsgerrBuilderError};
pub use echo::{Echoed, NlmsghdrErr, NlmsghdrErrBuilder, NlmsghdrErrBuilderError};
pub use explained::Explained;
pub use framed::{Carried, Framed, FramedBuilder};
pub use header::{NlmsghdrAck, NlmsghdrAckBuilder, NlmsghdrAckBuilderError};
pub use kind::{Kind, Tail};
pub use message::{Nlmsghdr, NlmsghdrBuilder, NlmsghdrBuilderError};
pub use payload::NlPayload;
pub use router_error::RouterError;
pub use socket_error::SocketError;
