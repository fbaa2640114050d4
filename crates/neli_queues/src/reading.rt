//! A delivery as the caller's types.

ghost use Rattle.std.specs.Prelude.{◌≡◌, IfOk, OnErr};
ghost use Rattle.neli_deliveries.specs.Deliveries.{heading_of};
ghost use Rattle.neli_deliveries.specs.declared.delivery.Delivery.TheVariants as delivery;
ghost use Rattle.neli_deliveries.specs.Readings.{IsReading, MessageTakesMemory, ReadingTakesMemory};

use neli_attr::Buffer;
use neli_consts::NlType;
use neli_deliveries::{Delivery, Heading};
use neli_reader::{Nlmsghdr, RouterError};
use neli_wire::{FromBytesWithInput, NoMemory, Size};
use std::alloc::Global;

/// A message as these types, or why it cannot be read as them.
fn typed<T: NlType, P: FromBytesWithInput + Size>(
    alloc: Global,
    message: &Nlmsghdr<u16, Buffer>,
) -> Result<Result<Nlmsghdr<T, P>, RouterError<T, P>>, NoMemory>
    ensures value { IfOk result
        (IsReading T.wire_value P.view P.wire_length P.read (delivery.Message message.now)) }
    ensures memory { OnErr result (MessageTakesMemory P.takes_memory message.now) }
{
    match message.to_typed::<T, P>(alloc) {
        Ok(message) => Ok(Ok(message)),
        Err(RouterError::Memory) => Err(NoMemory),
        Err(error) => Ok(Err(error)),
    }
}

/// A delivery as these types: a message, or why there is none.
pub(crate) fn read<T: NlType, P: FromBytesWithInput + Size>(
    alloc: Global,
    delivery: &Delivery,
) -> Result<Result<Nlmsghdr<T, P>, RouterError<T, P>>, NoMemory>
    ensures value { IfOk result
        (IsReading T.wire_value P.view P.wire_length P.read delivery.now) }
    ensures memory { OnErr result (ReadingTakesMemory P.takes_memory delivery.now) }
{
    match delivery {
        Delivery::Message(message) => typed(alloc, message),
        Delivery::Stray(message) => match typed(alloc, message)? {
            Ok(message) => Ok(Err(RouterError::BadSeqOrPid(message))),
            Err(error) => Ok(Err(error)),
        },
        Delivery::Fault(error) => Ok(Err(RouterError::Socket(error.try_clone()?))),
    }
}

/// A delivery by its message's header.
pub(crate) fn heading(delivery: &Delivery) -> Heading
    ensures { result ≡ heading_of delivery.now }
{
    match delivery {
        Delivery::Message(message) => Heading::Message(*message.nl_type(), *message.nl_flags()),
        _ => Heading::Other,
    }
}
