//! The requests of a datagram, by their messages.

ghost use Rattle.std.specs.Prelude.{◌≡◌, ◌<◌, ◌≤◌, ℕ, Some, IfOk, IfSome, IsNone, OnErr, OnOk, length};
ghost use Rattle.neli_wire.specs.declared.errors.DeError.{DeError};
ghost use Rattle.neli_lent.specs.Messages.{message_view, messages_in};
ghost use Rattle.neli_session.specs.Messages.{IsWhole};
ghost use Rattle.neli_session.specs.Mails.{dumps_of, entries_of, entry_of, first_of, is_dump, numbers_of};

use crate::spans::span_at;
use bitflags::Flags;
use neli_answers::Answering;
use neli_consts::NlmF;
use neli_consts_system::NlFamily;
use neli_lent::LentMessage;
use neli_wire::NoMemory;
use std::alloc::Global;

/// A request, as its message says.
#[derive(Clone, Copy, Debug, PartialEq, Eq)]
pub struct Entry {
    pub(crate) number: u32,
    pub(crate) answering: Answering,
    /// It has the flag ECHO.
    pub(crate) echoes: bool,
}

impl Entry {
    /// The request that a message is, for this protocol, or answered as the caller says.
    fn of(protocol: NlFamily, by: Option<Answering>, message: &LentMessage<'_, u16>) -> Entry
        ensures { result ≡ entry_of protocol by (message_view message.now) }
    {
        let flags = *message.nl_flags();
        let answering = match by {
            Some(answering) => answering,
            None => Answering::of(
                protocol,
                *message.nl_type(),
                flags,
                message.nl_payload().len(),
            ),
        };
        Entry {
            number: *message.nl_seq(),
            answering,
            echoes: flags.contains(NlmF::ECHO),
        }
    }

    /// Whether it is answered by a dump.
    fn is_dump(&self) -> bool
        ensures { result ≡ is_dump self.now.answering }
    {
        matches!(self.answering, Answering::Dump)
    }
}

/// The requests that these bytes are; none if they cannot be read to their end.
pub(crate) fn entries_in(
    alloc: Global,
    protocol: NlFamily,
    by: Option<Answering>,
    requests: &[u8],
) -> Result<Option<Vec<Entry>>, NoMemory>
    ensures whole { IfOk result (λ o. IfSome o (λ _. IsWhole requests.now)) }
    ensures entries { IfOk result (λ o. IfSome o
        (λ es. es.items ≡ entries_of protocol by requests.now)) }
    ensures faulty { IfOk result (λ o. IsNone o
        → (e : DeError) × ((messages_in {K = ℕ} (λ n. n) requests.now).1 ≡ Some e)) }
{
    let mut entries = Vec::new(alloc);
    let mut place = 0;
    while place < requests.len() {
        let Ok((message, span)) = span_at(requests, place) else {
            return Ok(None);
        };
        entries.push(Entry::of(protocol, by, &message))?;
        place += span.len();
    }
    Ok(Some(entries))
}

/// The numbers of these requests.
pub(crate) fn numbers(alloc: Global, entries: &[Entry]) -> Result<Vec<u32>, NoMemory>
    ensures { IfOk result (λ ns. ns.items ≡ numbers_of entries.now) }
{
    let mut numbers = Vec::new(alloc);
    for entry in entries {
        numbers.push(entry.number)?;
    }
    Ok(numbers)
}

/// Several requests of a datagram are answered by dumps.
#[derive(Clone, Copy, Debug)]
pub(crate) struct TwoDumps;

/// The number of the request that is answered by a dump, if one is; refused if several are.
pub(crate) fn dump_in(entries: &[Entry]) -> Result<Option<u32>, TwoDumps>
    ensures first { IfOk result (λ d. d ≡ first_of (dumps_of entries.now)) }
    ensures one { OnOk result (length (dumps_of entries.now) ≤ 1) }
    ensures several { OnErr result (1 < length (dumps_of entries.now)) }
{
    let mut found = None;
    for entry in entries {
        if entry.is_dump() {
            if found.is_some() {
                return Err(TwoDumps);
            }
            found = Some(entry.number);
        }
    }
    Ok(found)
}
