//! Errors of the library, the errors and acknowledgements that a kernel sends, and the names of their numbers.

pub use neli_attr::{BuildError, of};
pub use neli_errno::Errno;
pub use neli_reader::{
    BuilderError, Explained, Nlmsgerr, NlmsgerrBuilder, NlmsgerrBuilderError, NlmsghdrAck,
    NlmsghdrAckBuilder, NlmsghdrAckBuilderError, NlmsghdrErr, NlmsghdrErrBuilder,
    NlmsghdrErrBuilderError, RouterError, SocketError,
};
pub use neli_wire::{DeError, MsgError, NoMemory, SerError, UninitializedFieldError, Utf8};
