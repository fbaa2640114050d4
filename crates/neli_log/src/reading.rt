//! An entry as the caller's types.

ghost use Rattle.std.specs.Prelude.{IfOk, OnErr};
ghost use Rattle.neli_reader.specs.Messages.{message_from};
ghost use Rattle.neli_lent.specs.Spans.{IsSpan, Spells};
ghost use Rattle.neli_deliveries.specs.declared.delivery.Delivery.TheVariants as delivery;
ghost use Rattle.neli_deliveries.specs.Deliveries.{Untyped};
ghost use Rattle.neli_deliveries.specs.Readings.{IsReading, MessageTakesMemory};

use neli_consts::NlType;
use neli_lent::FromSpan;
use neli_reader::{Nlmsghdr, RouterError};
use neli_wire::{FromBytesWithInput, NoMemory, Size};
use std::alloc::Global;

/// Returns the message in a span's bytes, or why it cannot be read as these types.
#[inline(always)]
pub(crate) fn typed<T: NlType, P: FromBytesWithInput + Size>(
    alloc: Global,
    span: &[u8],
) -> Result<Result<Nlmsghdr<T, P>, RouterError<T, P>>, NoMemory>
    requires { IsSpan span.now }
    ensures value { (u : Untyped) → Spells span.now u → IfOk result (IsReading T.wire_value P.view
        P.wire_length P.read (delivery.Message (message_from u))) }
    ensures memory { (u : Untyped) → Spells span.now u
        → OnErr result (MessageTakesMemory P.takes_memory (message_from u)) }
{
    match Nlmsghdr::<T, P>::from_span(alloc, span) {
        Ok(message) => Ok(Ok(message)),
        Err(RouterError::Memory) => Err(NoMemory),
        Err(error) => Ok(Err(error)),
    }
}
