//! Messages: the header, and the kinds of payload. With [`FromSpan`] in scope, `Nlmsghdr::<T, P>::from_span` reads the
//! bytes of one message.

pub use neli_lent::FromSpan;
pub use neli_msg::laws as laws_of_messages;
pub use neli_reader::{
    Kind, NlPayload, Nlmsghdr, NlmsghdrBuilder, NlmsghdrBuilderError, Tail, laws,
};
