//! A dump: an answer in several messages, cut into datagrams.

ghost use Rattle.std.specs.Prelude.{⊤, ◌≡◌, ◌≢◌, [], Ok, IfOk, IfErr, OnOk, OnErr, map, option_map, slice_get};
ghost use Rattle.neli_wire.specs.Refusals.{IsRefusal, ser_ran_out};
ghost use Rattle.neli_kernel.specs.Answers.{message_or_refusal, reply};
ghost use Rattle.neli_kernel.specs.Dumps.{RefusesPut, begun, datagrams_of, dump_end};
ghost use Rattle.neli_kernel.specs.Dumps.{dump_message, finished, packed_in, put_wire};

use crate::{ExtAck, Request};
use neli_consts::{NlType, NlmF};
use neli_wire::{MsgError, NoMemory, SerError, ToBytes};
use std::alloc::Global;
use std::mem::replace;

/// The answer to a request for a whole table, as it grows: messages with the flag MULTI, and then the end, which has it
/// too. They follow each other in datagrams of at most so many bytes. A message that does not fit into the last
/// datagram begins the next one; none is cut.
///
/// A dump of the kernel may begin a datagram sooner, as at the end of a table; [`Dump::begin_datagram`] does so.
#[derive(Drop)]
pub struct Dump<'b> {
    request: Request<'b>,
    limit: usize,
    full: Vec<Vec<u8>>,
    last: Vec<u8>,
}

impl<'b> Dump<'b> {
    /// An answer without a message, whose datagrams have at most `limit` bytes. It takes no memory.
    pub(crate) fn new(alloc: Global, request: Request<'b>, limit: usize) -> Self
        ensures request { result.request ≡ request.entry }
        ensures limit { result.limit ≡ limit }
        ensures packed { packed_in result ≡ ([], []) }
    {
        Dump {
            request,
            limit,
            full: Vec::new(alloc),
            last: Vec::new(alloc),
        }
    }

    /// Adds a message, with the request's number and port, and with these flags and MULTI. A kernel marks with
    /// DUMP_INTR (0x10) the message at which it finds that the table changed during the dump, and no later one, and
    /// with DUMP_FILTERED (0x20) each message of a dump that it filtered as requested.
    ///
    /// Refused as `Msg` if the message's length exceeds 32 bits, then as the body is refused, then as `Msg` if the
    /// message alone is longer than a datagram may be; or as `Memory`. A refusal leaves the dump unchanged. A kernel
    /// ends its dump there, with the code of `EMSGSIZE`, -90.
    pub fn push<T: NlType + Drop, P: ToBytes + Drop>(
        &mut self,
        alloc: Global,
        nl_type: T,
        nl_flags: NlmF,
        body: P,
    ) -> Result<(), SerError>
        ensures request { self.new.request ≡ self.old.request }
        ensures limit { self.new.limit ≡ self.old.limit }
        ensures put { OnOk result (put_wire self.old.limit (message_or_refusal T.wire_number P.wire
            (dump_message P.Size.wire_length self.old.request nl_type nl_flags body))
            (packed_in self.old) ≡ Ok (packed_in self.new)) }
        ensures refused { IfErr result
            (RefusesPut self.old.limit T.wire_number P.wire
            (dump_message P.Size.wire_length self.old.request nl_type nl_flags body)
            (packed_in self.old)) }
        ensures unchanged { OnErr result (packed_in self.new ≡ packed_in self.old) }
    {
        self.push_reply(alloc, nl_type, nl_flags | NlmF::MULTI, body)
    }

    /// Adds a message with only these flags: some families, as `netdev`, leave MULTI out before the end.
    ///
    /// Refused as [`Dump::push`] is.
    pub fn push_reply<T: NlType + Drop, P: ToBytes + Drop>(
        &mut self,
        alloc: Global,
        nl_type: T,
        nl_flags: NlmF,
        body: P,
    ) -> Result<(), SerError>
        ensures request { self.new.request ≡ self.old.request }
        ensures limit { self.new.limit ≡ self.old.limit }
        ensures put { OnOk result (put_wire self.old.limit (message_or_refusal T.wire_number P.wire
            (reply P.Size.wire_length self.old.request nl_type nl_flags body))
            (packed_in self.old) ≡ Ok (packed_in self.new)) }
        ensures refused { IfErr result
            (RefusesPut self.old.limit T.wire_number P.wire
            (reply P.Size.wire_length self.old.request nl_type nl_flags body)
            (packed_in self.old)) }
        ensures unchanged { OnErr result (packed_in self.new ≡ packed_in self.old) }
    {
        let frame = self.request.reply(alloc, nl_type, nl_flags, body)?;
        self.put(alloc, frame)
    }

    /// Begins a datagram, unless the last one is empty.
    ///
    /// Refused only if memory runs out; an empty one takes none. Then the dump is unchanged.
    pub fn begin_datagram(&mut self, alloc: Global) -> Result<(), NoMemory>
        ensures request { self.new.request ≡ self.old.request }
        ensures limit { self.new.limit ≡ self.old.limit }
        ensures begun { OnOk result (packed_in self.new ≡ begun (packed_in self.old)) }
        ensures unchanged { OnErr result (packed_in self.new ≡ packed_in self.old) }
        ensures memory { OnErr result ((packed_in self.old).1 ≢ []) }
    {
        if !self.last.is_empty() {
            self.full.reserve(1)?;
            let last = replace(&mut self.last, Vec::new(alloc));
            self.full.push(last)?;
        }
        Ok(())
    }

    /// Returns the datagrams, after one message more, the end: of type 3 (`NLMSG_DONE`), with these flags and MULTI,
    /// the code, which is 0 for success and below 0 for a failed dump, as -19 for `ENODEV`, and attributes. The end may
    /// be marked too, like the messages of [`Dump::push`].
    ///
    /// Refused as [`Dump::push`] is.
    pub fn finish(
        mut self,
        alloc: Global,
        nl_flags: NlmF,
        code: i32,
        ext_ack: ExtAck,
    ) -> Result<Vec<Vec<u8>>, SerError>
        ensures datagrams { IfOk result
            (λ datagrams. finished self.entry.limit
            (message_or_refusal (λ n. n) (λ b. Ok b)
            (dump_end self.entry.request nl_flags code ext_ack)) (packed_in self.entry)
            ≡ Ok (map (λ d. d.items) datagrams.items)) }
        ensures refused { IfErr result (RefusesPut self.entry.limit (λ n. n) (λ b. Ok b)
            (dump_end self.entry.request nl_flags code ext_ack) (packed_in self.entry)) }
    {
        self.push_end(alloc, nl_flags, code, ext_ack)?;
        Ok(self.datagrams()?)
    }

    /// Puts the end of [`Dump::finish`] behind the last message, or into a datagram of its own.
    ///
    /// Refused as [`Dump::push`] is.
    pub fn push_end(
        &mut self,
        alloc: Global,
        nl_flags: NlmF,
        code: i32,
        ext_ack: ExtAck,
    ) -> Result<(), SerError>
        ensures request { self.new.request ≡ self.old.request }
        ensures limit { self.new.limit ≡ self.old.limit }
        ensures put { OnOk result (put_wire self.old.limit (message_or_refusal (λ n. n) (λ b. Ok b)
            (dump_end self.old.request nl_flags code ext_ack)) (packed_in self.old)
            ≡ Ok (packed_in self.new)) }
        ensures refused { IfErr result (RefusesPut self.old.limit (λ n. n) (λ b. Ok b)
            (dump_end self.old.request nl_flags code ext_ack) (packed_in self.old)) }
        ensures unchanged { OnErr result (packed_in self.new ≡ packed_in self.old) }
    {
        let frame = self.request.dump_end(alloc, nl_flags, code, ext_ack)?;
        self.put(alloc, frame)
    }

    /// Puts a message behind the last one, or into a datagram of its own.
    fn put(&mut self, alloc: Global, frame: Vec<u8>) -> Result<(), SerError>
        ensures request { self.new.request ≡ self.old.request }
        ensures limit { self.new.limit ≡ self.old.limit }
        ensures put { OnOk result (put_wire self.old.limit (Ok frame.items) (packed_in self.old)
            ≡ Ok (packed_in self.new)) }
        ensures refused { IfErr result (IsRefusal ser_ran_out
            (put_wire self.old.limit (Ok frame.items) (packed_in self.old)) ⊤) }
        ensures unchanged { OnErr result (packed_in self.new ≡ packed_in self.old) }
    {
        if frame.len() > self.limit {
            return Err(SerError::Msg(MsgError::from_static("Message does not fit a datagram")));
        }
        if self.limit - frame.len() < self.last.len() {
            self.full.reserve(1)?;
            let last = replace(&mut self.last, frame);
            self.full.push(last)?;
        } else {
            self.last.extend_from_slice(frame.as_slice())?;
        }
        Ok(())
    }

    /// The datagram at a place, from 0 on; none past the last one, which may be empty before the end is put in.
    pub fn datagram(&self, k: usize) -> Option<&[u8]>
        ensures { option_map (λ d. d.now) result ≡ slice_get (datagrams_of (packed_in self.now)) k }
    {
        match self.full.get(k) {
            Some(datagram) => Some(datagram.as_slice()),
            None if k == self.full.len() => Some(self.last.as_slice()),
            None => None,
        }
    }

    /// All the datagrams.
    ///
    /// Refused only if memory runs out.
    #[tactic(auto, using(std::proofs::lemmas::List::map_push))]
    fn datagrams(self) -> Result<Vec<Vec<u8>>, NoMemory>
        ensures { IfOk result (λ datagrams. map (λ d. d.items) datagrams.items
            ≡ datagrams_of (packed_in self.entry)) }
    {
        let Dump { mut full, last, .. } = self;
        full.push(last)?;
        Ok(full)
    }
}
