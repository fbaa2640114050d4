//! A message's body as a type of the caller's.

ghost use Rattle.std.specs.Prelude.{◌≡◌, ℕ, List, Option, Ok, IfOk, IfErr, IsSomeAnd};
ghost use Rattle.std.specs.Option.{option_copied, option_map};
ghost use Rattle.neli_wire.specs.Refusals.{Refuses};
ghost use Rattle.neli_lent.specs.Messages.{message_view};
ghost use Rattle.neli_reader.specs.Retyping.{body_of};
ghost use Rattle.neli_short.specs.Bodies.{lent_body, read_there};

use neli_attr::Buffer;
use neli_consts::NlType;
use neli_lent::LentMessage;
use neli_list::read_whole;
use neli_reader::{Kind, Nlmsghdr};
use neli_wire::{DeError, FromBytesWithInput};
use std::alloc::Global;

/// Messages whose body is bytes, which are read as a type of the caller's. A lent message has the body of the owned one
/// that it becomes; it is read in place.
pub trait ReadBody {
    // The body's bytes; none where the payload is of another kind.
    ghost body_in: { Self → Option (List ℕ) };

    /// The body's bytes, lent; `None` where the message has another kind of payload, as an error, or none.
    fn body_bytes(&self) -> Option<&[u8]>
        ensures { option_copied result ≡ body_in self.now };

    /// The body, read as a `B`; `None` where the message has another kind of payload, as an error, or none.
    ///
    /// Refused as the read of the body's bytes is.
    fn body<B: FromBytesWithInput>(&self, alloc: Global) -> Result<Option<B>, DeError>
        ensures value { IfOk result
            (λ body. read_there B.read (body_in self.now) ≡ Ok (option_map B.view body)) }
        ensures refused { IfErr result (Refuses (read_there B.read (body_in self.now))
            (IsSomeAnd (body_in self.now) B.takes_memory)) }
    {
        read_there(alloc, self.body_bytes())
    }
}

/// The value of these bytes, where there are some.
fn read_there<B: FromBytesWithInput>(
    alloc: Global,
    bytes: Option<&[u8]>,
) -> Result<Option<B>, DeError>
    ensures value { IfOk result
        (λ body. read_there B.read (option_copied bytes.entry) ≡ Ok (option_map B.view body)) }
    ensures refused { IfErr result (Refuses (read_there B.read (option_copied bytes.entry))
        (IsSomeAnd (option_copied bytes.entry) B.takes_memory)) }
{
    match bytes {
        Some(bytes) => Ok(Some(read_whole(alloc, bytes)?)),
        None => Ok(None),
    }
}

impl<T> ReadBody for Nlmsghdr<T, Buffer> {
    ghost body_in = { λ m. body_of m.payload };

    fn body_bytes(&self) -> Option<&[u8]> {
        Some(self.get_payload()?.as_ref())
    }
}

impl<'b, T: NlType> ReadBody for LentMessage<'b, T> {
    ghost body_in = { λ m. lent_body T.wire_value T.wire_number (message_view m) };

    fn body_bytes(&self) -> Option<&[u8]> {
        match self.kind() {
            Kind::Body => Some(self.nl_payload()),
            _ => None,
        }
    }

    // As the trait's, which gets no proof at a type with a lifetime.
    fn body<B: FromBytesWithInput>(&self, alloc: Global) -> Result<Option<B>, DeError> {
        read_there(alloc, self.body_bytes())
    }
}
