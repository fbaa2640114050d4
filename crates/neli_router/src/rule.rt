//! The reply rule, one read at a time.

ghost use Rattle.std.specs.Prelude.{◌≡◌};
ghost use Rattle.neli_router.specs.Reads.{handle_after, item_for};
ghost use Rattle.neli_router.specs.Rule.{awaits, ends_alone, is_single, last_item, needs_ack};

use crate::HandleState;
use bitflags::Flags;
use neli_answers::Answering;
use neli_consts::{NLMSG_DONE, NlType, NlmF};
use neli_reader::{NlPayload, Nlmsghdr, RouterError};

/// Whether sent flags request an acknowledgement.
pub(crate) fn needs_acknowledgement(flags: NlmF) -> bool
    ensures { result ≡ needs_ack flags }
{
    flags.contains(NlmF::ACK) && !flags.contains(NlmF::DUMP)
}

/// Whether an acknowledgement ends an answer.
pub(crate) fn awaits(answering: Answering) -> bool
    ensures { result ≡ awaits answering }
{
    matches!(answering, Answering::Acknowledgement)
}

/// Whether nothing follows an item, whatever was asked for.
pub(crate) fn ends_alone<T, P>(item: &Result<Nlmsghdr<T, P>, RouterError<T, P>>) -> bool
    ensures { result ≡ ends_alone item.now }
{
    match item {
        Ok(message) => match message.nl_payload() {
            NlPayload::Ack(_) | NlPayload::Err(_) | NlPayload::Capped(_) => true,
            _ => false,
        },
        Err(_) => true,
    }
}

/// Whether an item is a whole reply to a request, or the last message of one.
pub(crate) fn is_single<T: NlType, P>(
    numbered: bool,
    item: &Result<Nlmsghdr<T, P>, RouterError<T, P>>,
) -> bool
    ensures { result ≡ is_single T.wire_number numbered item.now }
{
    match item {
        Ok(message) => {
            numbered
                && !ends_alone(item)
                && (!message.nl_flags().contains(NlmF::MULTI)
                    || message.nl_type().to_number() == NLMSG_DONE)
        }
        Err(_) => false,
    }
}

/// The item returned at the end of the answers: a requested acknowledgement, an error as such, a
/// single reply, or the item in place of the acknowledgement.
fn last_item<T: NlType, P: Drop>(
    handle: &HandleState,
    item: Result<Nlmsghdr<T, P>, RouterError<T, P>>,
) -> Result<Nlmsghdr<T, P>, RouterError<T, P>>
    ensures { result ≡ last_item handle.now.needs_ack handle.now.single_given item }
{
    let mut message = item?;
    if let NlPayload::Ack(_) = message.nl_payload() {
        return if handle.needs_ack {
            Ok(message)
        } else {
            Err(RouterError::UnexpectedAck)
        };
    }
    if handle.single_given {
        return Err(RouterError::NoAck);
    }
    if let NlPayload::Capped(_) = message.nl_payload() {
        return match message.get_capped() {
            Some(answer) => Err(RouterError::Capped(answer)),
            None => Ok(message),
        };
    }
    match message.get_err() {
        Some(answer) => Err(RouterError::Nlmsgerr(answer)),
        None => Ok(message),
    }
}

/// The item that a handle returns, and the handle's state then.
pub(crate) fn answer<T: NlType, P: Drop>(
    handle: HandleState,
    item: Result<Nlmsghdr<T, P>, RouterError<T, P>>,
) -> (HandleState, Result<Nlmsghdr<T, P>, RouterError<T, P>>)
    ensures item { result.1 ≡ item_for T.wire_number handle item }
    ensures handle { result.0 ≡ handle_after T.wire_number handle item }
{
    let single = is_single(handle.number.is_some(), &item);
    let ended = ends_alone(&item)
        || if handle.needs_ack {
            handle.single_given
        } else {
            single
        };
    let given = if ended {
        last_item(&handle, item)
    } else {
        item
    };
    let after = HandleState {
        number: handle.number,
        needs_ack: handle.needs_ack,
        single_given: handle.single_given || single,
        ended,
    };
    (after, given)
}
