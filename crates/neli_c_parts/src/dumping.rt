//! A dump as it grows, and as its datagrams are handed out.

ghost use Rattle.std.specs.Prelude.{◌≡◌, ◌≢◌, [], IfErr, IfOk, false, true};
ghost use Rattle.neli_c_parts.specs.Asked.{reply_wire, ser_code};
ghost use Rattle.neli_c_parts.specs.Codes.{ok, state};
ghost use Rattle.neli_c_parts.specs.DumpsHeld.{BeginsDatagram, HandsOut, PutsEnd, PutsMessage, PutsWire};
ghost use Rattle.neli_c_parts.specs.DumpsHeld.{dump_wire, end_wire, packed};
ghost use Rattle.neli_reader.specs.Answers.{ext_ack_in};

use crate::asking::of_ser;
use crate::bytes::copy;
use crate::code::{ITEM, MEMORY, OK, STATE, WAITS};
use crate::message::code_of;
use neli_attr::Buffer;
use neli_consts::NlmF;
use neli_kernel::{Dump, ExtAck, Request, read_ext_ack};
use neli_wire::{Constant, SerError};
use std::alloc::Global;

/// A dump, whether its end is put in, and how many of its datagrams were handed out.
#[derive(Drop)]
pub struct Dumping {
    dump: Dump<'static>,
    is_finished: bool,
    given: usize,
}

/// The code of what was put in.
fn of_put(put: Result<(), SerError>) -> i32
    ensures put { IfOk put (λ _. result ≡ ok) }
    ensures refused { IfErr put (λ e. (result ≡ ser_code e) × (result ≢ ok)) }
{
    match put {
        Ok(()) => OK,
        Err(error) => of_ser(&error),
    }
}

impl Dumping {
    /// A dump without a message, whose datagrams have at most `limit` bytes.
    pub fn new(alloc: Global, request: Request<'static>, limit: usize) -> Self
        ensures request { result.dump.request ≡ request.entry }
        ensures limit { result.dump.limit ≡ limit }
        ensures packed { packed result ≡ ([], []) }
        ensures finished { result.is_finished ≡ false }
        ensures given { result.given ≡ 0 }
    {
        Dumping {
            dump: request.dump(alloc, limit),
            is_finished: false,
            given: 0,
        }
    }

    /// One message more, with these flags and MULTI.
    pub fn push(&mut self, alloc: Global, nl_type: u16, flags: u16, body: &[u8]) -> i32
        ensures { PutsMessage result (dump_wire nl_type flags body.now) self.old self.new }
    {
        if self.is_finished {
            return STATE;
        }
        let Ok(body) = Buffer::from_slice(alloc, body) else {
            return MEMORY;
        };
        of_put(self.dump.push(alloc, nl_type, NlmF::from_wire(flags), body))
    }

    /// One message more, with these flags alone.
    pub fn push_reply(&mut self, alloc: Global, nl_type: u16, flags: u16, body: &[u8]) -> i32
        ensures { PutsMessage result (reply_wire nl_type flags body.now) self.old self.new }
    {
        if self.is_finished {
            return STATE;
        }
        let Ok(body) = Buffer::from_slice(alloc, body) else {
            return MEMORY;
        };
        of_put(
            self.dump
                .push_reply(alloc, nl_type, NlmF::from_wire(flags), body),
        )
    }

    /// Begins a datagram, unless the last one is empty.
    pub fn begin_datagram(&mut self, alloc: Global) -> i32
        ensures { BeginsDatagram result self.old self.new }
    {
        if self.is_finished {
            return STATE;
        }
        match self.dump.begin_datagram(alloc) {
            Ok(()) => OK,
            Err(_) => MEMORY,
        }
    }

    /// Puts the end in, with these flags and MULTI, this code and these attributes.
    fn put_end(&mut self, alloc: Global, flags: u16, error: i32, ext_ack: ExtAck) -> i32
        ensures put { PutsWire result (end_wire flags error self.old.dump.request ext_ack)
            self.old self.new }
        ensures finished { self.new.is_finished ≡ self.old.is_finished }
    {
        of_put(
            self.dump
                .push_end(alloc, NlmF::from_wire(flags), error, ext_ack),
        )
    }

    /// Puts the end in, with the attributes that these bytes list. From then on the datagrams are handed out.
    pub fn finish(&mut self, alloc: Global, flags: u16, error: i32, ext_ack: &[u8]) -> i32
        ensures again { self.old.is_finished ≡ true → (result ≡ state) × (self.new ≡ self.old) }
        ensures put { self.old.is_finished ≡ false
            → PutsEnd result (end_wire flags error self.old.dump.request) (ext_ack_in ext_ack.now)
            self.old self.new }
        ensures finished { self.old.is_finished ≡ false → result ≡ ok
            → self.new.is_finished ≡ true }
        ensures unfinished { self.old.is_finished ≡ false → result ≢ ok
            → self.new.is_finished ≡ false }
    {
        if self.is_finished {
            return STATE;
        }
        match read_ext_ack(alloc, ext_ack) {
            Ok(attrs) => {
                let code = self.put_end(alloc, flags, error, attrs);
                if code == OK {
                    self.is_finished = true;
                }
                code
            }
            Err(error) => code_of(&error),
        }
    }

    /// Copies the next datagram if there is room for all of it.
    pub fn next(&mut self, out: &mut [u8], size: &mut usize) -> i32
        ensures { HandsOut result self.old self.new out.old out.new size.old size.new }
    {
        if !self.is_finished {
            return WAITS;
        }
        let Some(datagram) = self.dump.datagram(self.given) else {
            return OK;
        };
        let code = copy(datagram, out, size);
        if code != OK {
            return code;
        }
        self.given += 1;
        ITEM
    }
}
