//! A router with its handles, and the item that was read last.

ghost use Rattle.std.specs.Prelude.{◌≡◌, ◌≢◌, ◌<◌, ℕ, IfSome, IsNone, IsSome, List, ◌∷◌, Some};
ghost use Rattle.std.specs.Prelude.{None, length};
ghost use Rattle.std.specs.Prelude.{option_map, slice_get, slice_set};
ghost use Rattle.std.specs.Prelude.{vec_capacity, vec_len};
ghost use Rattle.neli_router.specs.declared.handle.HandleState.{HandleState};
ghost use Rattle.neli_c_parts.specs.Codes.{no_handle, ok};
ghost use Rattle.neli_c_parts.specs.Sessions.{ClosesHandle, HasFree, Holds, IsNew, ReadsHandle, RefusesRequest};
ghost use Rattle.neli_c_parts.specs.Sessions.{SaysNeeded};
ghost use Rattle.neli_c_parts.specs.Sessions.{SendsExpecting, SendsNothing, SendsRequest, SetsNumber, TakesDatagram};
ghost use Rattle.neli_c_parts.specs.Sessions.{TakesFault, TakesKind, WritesItem};
ghost use Rattle.neli_c_parts.specs.Sessions.{error_flags, error_message, item_code, item_message};
ghost use Rattle.neli_c_parts.specs.Sessions.{shown_fields, reply_code, shown_of};
ghost use Rattle.neli_c_parts.specs.Verdicts.{GivesUpHandle, HearsHandle, TellsVerdict};
ghost use Rattle.neli_router.specs.Listening.{missed_with};
ghost use Rattle.neli_router.specs.declared.listening.Missed.TheVariants as missed;
ghost use Rattle.neli_reader.specs.SocketError.TheVariants as socket;
ghost use Rattle.std.specs.declared.io.ErrorKind.TheVariants as kind;
ghost use Rattle.neli_c_parts.specs.Listens.{HoldsNotice, Listens, Misses, MissesSame, MissesThen, notice_code};
ghost use Rattle.neli_c_parts.specs.Slots.{AreFree, handle_at, later_places, next_place, put_at};
ghost use Rattle.neli_c_parts.specs.declared.session.Slot.TheVariants as slot;

use crate::bytes::copy;
use crate::code::{HANDLE, ITEM, KERNEL_ERROR, LENGTH, LINK, MEMORY, OK, OVERRUN, ROOM, WAITS};
use crate::outcome::{filtered_byte, is_overrun, kind_of, of_error, of_verdict, verdict_error};
use neli_answers::Answering;
use neli_attr::Buffer;
use neli_consts::NlmF;
use neli_log::Log;
use neli_reader::{NlPayload, Nlmsghdr, NlmsghdrBuilder, RouterError, SocketError};
use neli_router::{Missed, NlRouter, NlRouterReceiverHandle, Notice, Reply};
use neli_util::Groups;
use neli_wire::{Constant, NoMemory, Size, ToBytes};
use std::alloc::Global;
use std::io::ErrorKind;
use std::mem::replace;

pub(crate) type Handle = NlRouterReceiverHandle<u16, Buffer>;

type Message = Nlmsghdr<u16, Buffer>;

type Item = Result<Message, RouterError<u16, Buffer>>;

/// A request that was sent.
#[repr(C)]
#[derive(Clone, Copy)]
pub struct NeliSent {
    /// The number of the request's bytes; with `ROOM`, the number that it needs.
    pub length: usize,
    /// The handle for its replies.
    pub handle: usize,
}

/// An item that was read: the header of a message.
#[repr(C)]
#[derive(Clone, Copy)]
pub struct NeliItem {
    pub message_type: u16,
    pub flags: u16,
    pub number: u32,
    pub port: u32,
    /// The code of an error, an acknowledgement or the end of a dump; 0 elsewhere.
    pub error: i32,
}

/// A verdict on an answer, beside its code.
#[repr(C)]
#[derive(Clone, Copy)]
pub struct NeliVerdict {
    /// The code of the kernel's error, or of the dump that failed; 0 elsewhere.
    pub error: i32,
    /// 1 if the kernel filtered the list, else 0.
    pub filtered: u8,
}

/// The content of a handle's place.
#[derive(Drop)]
pub enum Slot {
    /// The open handle.
    Open(Handle),
    /// None: the place that was freed before this one, or 0.
    Free(usize),
}

/// A router, its handles by their places, the place that was freed last, or 0, and the last item as a message.
#[derive(Drop)]
pub struct Session {
    pub(crate) router: NlRouter<Log>,
    pub(crate) handles: Vec<Slot>,
    freed: usize,
    held: Option<Message>,
}

/// The handle at a place, if there is one.
pub fn handle_of(handles: &[Slot], k: usize) -> Option<&Handle>
    ensures { option_map (λ h. h.now) result ≡ handle_at k handles.now }
{
    match handles.get(k) {
        Some(Slot::Open(handle)) => Some(handle),
        _ => None,
    }
}

/// Removes the handle from a place, if there is one, and returns the free place after it.
pub fn take(handles: &mut Vec<Slot>, k: usize, next: usize) -> Option<Handle>
    ensures taken { result ≡ handle_at k handles.old.items }
    ensures some { IsSome result → (k < length handles.new.items)
        × (handles.new.items ≡ slice_set handles.old.items k (slot.Free next)) }
    ensures none { IsNone result → handles.new ≡ handles.old }
{
    let Some(Slot::Open(_)) = handles.get(k) else {
        return None;
    };
    match replace(&mut handles[k], Slot::Free(next)) {
        Slot::Open(handle) => Some(handle),
        Slot::Free(_) => None,
    }
}

/// Removes the handle from a place, if there is one; the place is then the first free one, but that of multicast.
fn free(handles: &mut Vec<Slot>, freed: &mut usize, k: usize) -> Option<Handle>
    ensures taken { result ≡ handle_at k handles.old.items }
    ensures some { IsSome result
        → handles.new.items ≡ slice_set handles.old.items k (slot.Free freed.old) }
    ensures first { IsSome result → k ≢ 0 → (ks : List ℕ) → AreFree handles.old.items freed.old ks
        → AreFree handles.new.items freed.new (k ∷ ks) }
    ensures multicast { IsSome result → k ≡ 0 → (ks : List ℕ)
        → AreFree handles.old.items freed.old ks → AreFree handles.new.items freed.new ks }
    ensures none { IsNone result → (handles.new ≡ handles.old) × (freed.new ≡ freed.old) }
{
    let Some(handle) = take(handles, k, *freed) else {
        return None;
    };
    if k != 0 {
        *freed = k;
    }
    Some(handle)
}

/// The free place after the first one; none if no place is free.
fn next_free(handles: &[Slot], first: usize) -> Option<usize>
    ensures some { IfSome result
        (λ n. (first ≢ 0) × (slice_get handles.now first ≡ Some (slot.Free n))) }
    ensures none { IsNone result → (n : ℕ) → slice_get handles.now first ≡ Some (slot.Free n)
        → first ≡ 0 }
{
    if first == 0 {
        return None;
    }
    match handles.get(first) {
        Some(Slot::Free(next)) => Some(*next),
        _ => None,
    }
}

/// Puts a handle at the place that was freed last; at a new one if none is free, for which there must be room.
fn put(handles: &mut Vec<Slot>, freed: &mut usize, handle: Handle) -> usize
    requires { vec_len handles.old < vec_capacity handles.old }
    ensures free { handle_at result handles.old.items ≡ None }
    ensures put { handles.new.items ≡ put_at result handle handles.old.items }
    ensures handle { handle_at result handles.new.items ≡ Some handle }
    ensures again { (ks : List ℕ) → AreFree handles.old.items freed.old ks
        → (result ≡ next_place handles.old.items ks)
        × AreFree handles.new.items freed.new (later_places ks) }
{
    match next_free(handles, *freed) {
        Some(next) => {
            let k = replace(freed, next);
            handles[k] = Slot::Open(handle);
            k
        }
        None => {
            let k = handles.len();
            match handles.push(Slot::Open(handle)) {
                Ok(()) => k,
                Err(_) => k,
            }
        }
    }
}

/// The flags of an error message: whether only the header is echoed, and whether attributes follow.
fn error_flags(is_capped: bool, has_attributes: bool) -> NlmF
    ensures { result ≡ error_flags is_capped has_attributes }
{
    let capped = if is_capped {
        NlmF::CAPPED
    } else {
        NlmF::empty()
    };
    if has_attributes {
        capped | NlmF::ACK_TLVS
    } else {
        capped
    }
}

/// An error as the message in which it arrived.
fn error_message(
    flags: NlmF,
    number: u32,
    port: u32,
    payload: NlPayload<u16, Buffer>,
) -> Option<Message>
    ensures { result ≡ error_message flags number port payload }
{
    let built = NlmsghdrBuilder::default()
        .nl_type(2)
        .nl_flags(flags)
        .nl_seq(number)
        .nl_pid(port)
        .nl_payload(payload)
        .build();
    match built {
        Ok(message) => Some(message),
        Err(_) => None,
    }
}

/// The code of an item, and its message, if it has one.
fn split(item: Item) -> (i32, Option<Message>)
    ensures code { result.0 ≡ item_code item }
    ensures message { result.1 ≡ item_message item }
{
    match item {
        Ok(message) => (ITEM, Some(message)),
        Err(RouterError::Nlmsgerr(answer)) => {
            let flags = error_flags(false, answer.ext_ack().len() != 0);
            let number = *answer.nlmsg().nl_seq();
            let port = *answer.nlmsg().nl_pid();
            (
                KERNEL_ERROR,
                error_message(flags, number, port, NlPayload::Err(answer)),
            )
        }
        Err(RouterError::Capped(answer)) => {
            let flags = error_flags(true, answer.ext_ack().len() != 0);
            let number = *answer.nlmsg().nl_seq();
            let port = *answer.nlmsg().nl_pid();
            (
                KERNEL_ERROR,
                error_message(flags, number, port, NlPayload::Capped(answer)),
            )
        }
        Err(error) => (of_error(&error), None),
    }
}

/// The shown fields of a message, beside its bytes.
fn shown(message: &Message) -> NeliItem
    ensures { result ≡ shown_fields message.now }
{
    NeliItem {
        message_type: *message.nl_type(),
        flags: u16::from(*message.nl_flags()),
        number: *message.nl_seq(),
        port: *message.nl_pid(),
        error: match message.nl_payload() {
            NlPayload::Ack(answer) => *answer.error(),
            NlPayload::Capped(answer) => *answer.error(),
            NlPayload::DumpExtAck(answer) => *answer.error(),
            NlPayload::Err(answer) => *answer.error(),
            _ => 0,
        },
    }
}

/// Holds the message of an item, and shows it; an item without one is not shown.
fn keep(given: Item, held: &mut Option<Message>, item: &mut NeliItem) -> i32
    ensures code { result ≡ item_code given }
    ensures held { held.new ≡ item_message given }
    ensures shown { item.new ≡ shown_of (item_message given) item.old }
{
    let (code, message) = split(given);
    if let Some(message) = &message {
        *item = shown(message);
    }
    *held = message;
    code
}

/// Holds the message of a notice, and shows it; without an item both are unchanged.
fn notice(
    answer: Result<Notice<u16, Buffer>, NoMemory>,
    held: &mut Option<Message>,
    item: &mut NeliItem,
) -> i32
    ensures code { result ≡ notice_code answer }
    ensures held { HoldsNotice answer held.old held.new item.old item.new }
{
    match answer {
        Ok(Notice::Message(message)) => keep(Ok(message), held, item),
        Ok(Notice::Untyped(given)) => keep(given, held, item),
        Ok(Notice::Missed(Missed::Overrun)) => OVERRUN,
        Ok(Notice::Missed(Missed::Fault(_))) => LINK,
        Ok(Notice::Waits) => WAITS,
        Ok(Notice::Closed) => HANDLE,
        Err(_) => MEMORY,
    }
}

/// Holds the message that the router returns, and shows it; without an item both are unchanged.
fn hold(
    answer: Result<Reply<u16, Buffer>, NoMemory>,
    held: &mut Option<Message>,
    item: &mut NeliItem,
) -> i32
    ensures code { result ≡ reply_code answer }
    ensures held { Holds answer held.old held.new item.old item.new }
{
    match answer {
        Ok(Reply::Item(given)) => keep(given, held, item),
        Ok(Reply::End) => OK,
        Ok(Reply::Waits) => WAITS,
        Err(_) => MEMORY,
    }
}

impl Session {
    /// A new router, with the handle 0 for multicast.
    pub fn new(alloc: Global, port: u32) -> Option<Session>
        ensures { IfSome result (IsNew port) }
    {
        let (router, multicast) = NlRouter::<Log>::new(alloc, port);
        let mut handles = Vec::new(alloc);
        if handles.push(Slot::Open(multicast.retyped())).is_err() {
            return None;
        }
        Some(Session {
            router,
            handles,
            freed: 0,
            held: None,
        })
    }

    /// Sets the sequence number of the next request.
    pub fn set_number(&mut self, number: u32)
        ensures { SetsNumber number self.old self.new }
    {
        self.router.set_next_seq(number);
    }

    /// Writes a request as bytes to send; its flags say how it is answered.
    pub fn send(
        &mut self,
        alloc: Global,
        nl_type: u16,
        flags: u16,
        body: &[u8],
        out: &mut [u8],
        sent: &mut NeliSent,
    ) -> i32
        ensures sent { result ≡ ok
            → SendsRequest nl_type flags body.now self.old self.new out.old out.new sent.new }
        ensures unwritten { result ≢ ok → out.new ≡ out.old }
        ensures refused { result ≢ ok → SendsNothing self.old self.new }
        ensures why { result ≢ ok → RefusesRequest result body.now self.old out.old }
        ensures needed { result ≢ ok → SaysNeeded result body.now sent.old sent.new }
        ensures missed { MissesSame self.old self.new }
    {
        let answering = Answering::by_flags(NlmF::from_wire(flags));
        self.send_expecting(alloc, answering, nl_type, flags, body, out, sent)
    }

    /// Writes a request, which is answered so, as bytes to send.
    pub fn send_expecting(
        &mut self,
        alloc: Global,
        answering: Answering,
        nl_type: u16,
        flags: u16,
        body: &[u8],
        out: &mut [u8],
        sent: &mut NeliSent,
    ) -> i32
        ensures sent { result ≡ ok
            → SendsExpecting answering nl_type flags body.now self.old self.new
            out.old out.new sent.new }
        ensures unwritten { result ≢ ok → out.new ≡ out.old }
        ensures refused { result ≢ ok → SendsNothing self.old self.new }
        ensures why { result ≢ ok → RefusesRequest result body.now self.old out.old }
        ensures needed { result ≢ ok → SaysNeeded result body.now sent.old sent.new }
        ensures missed { MissesSame self.old self.new }
    {
        if body.len() > 0xffff_ffff - 19 {
            return LENGTH;
        }
        let wanted = (body.len() + 19) / 4 * 4;
        if out.len() < wanted {
            sent.length = wanted;
            return ROOM;
        }
        let Ok(buffer) = Buffer::from_slice(alloc, body) else {
            return MEMORY;
        };
        let Ok(()) = self.handles.reserve(1) else {
            return MEMORY;
        };
        let flags = NlmF::from_wire(flags);
        let payload = NlPayload::Payload(buffer);
        match self
            .router
            .send_expecting::<u16, Buffer, u16, Buffer>(alloc, answering, nl_type, flags, payload)
        {
            Ok((bytes, handle)) => {
                sent.handle = put(&mut self.handles, &mut self.freed, handle);
                copy(&bytes, out, &mut sent.length)
            }
            Err(error) => of_error(&error),
        }
    }

    /// Takes in a datagram that arrived for these groups.
    pub fn datagram(&mut self, alloc: Global, bytes: &[u8], groups: &[u32]) -> i32
        ensures taken { TakesDatagram result bytes.now groups.now self.old self.new }
        ensures missed { MissesSame self.old self.new }
    {
        let Ok(groups) = Groups::new_groups(alloc, groups) else {
            return MEMORY;
        };
        match self.router.receive(bytes, &groups) {
            Ok(()) => OK,
            Err(_) => MEMORY,
        }
    }

    /// Takes in a fault of the link, by its number in `errno.h`.
    pub fn fault(&mut self, errno: i32) -> i32
        ensures taken { TakesFault result errno self.old self.new }
        ensures missed { Misses result errno self.old self.new }
    {
        if is_overrun(errno) {
            return self.overran();
        }
        self.failed(kind_of(errno))
    }

    /// Takes in that the socket's buffer ran over.
    fn overran(&mut self) -> i32
        ensures taken { TakesKind result kind.Other self.old self.new }
        ensures missed { MissesThen result (Some missed.Overrun) self.old self.new }
    {
        match self.router.link_overran() {
            Ok(()) => OK,
            Err(_) => MEMORY,
        }
    }

    /// Takes in another fault of the link.
    fn failed(&mut self, error: ErrorKind) -> i32
        ensures taken { TakesKind result error self.old self.new }
        ensures missed { MissesThen result (missed_with self.old.router.missed (socket.Io error))
            self.old self.new }
    {
        match self.router.link_failed(SocketError::Io(error)) {
            Ok(()) => OK,
            Err(_) => MEMORY,
        }
    }

    /// Reads the next message for groups, which is held until the next one is read.
    pub fn listen(&mut self, alloc: Global, item: &mut NeliItem) -> i32
        ensures { Listens result self.old self.new item.old item.new }
    {
        let answer = self.router.listen::<u16, Buffer>(alloc);
        notice(answer, &mut self.held, item)
    }

    /// Reads the next item of a handle, whose message is held until the next one is read.
    pub fn read(&mut self, alloc: Global, k: usize, item: &mut NeliItem) -> i32
        ensures none { handle_at k self.old.handles.items ≡ None
            → (result ≡ no_handle) × (self.new ≡ self.old) × (item.new ≡ item.old) }
        ensures some { IfSome (handle_at k self.old.handles.items) (λ h. (after : HandleState)
            × (self.new.handles.items ≡ slice_set self.old.handles.items k (slot.Open after))
            × (self.new.freed ≡ self.old.freed)
            × ((ks : List ℕ) → HasFree self.old ks → HasFree self.new ks)
            × ReadsHandle result h after self.old self.new item.old item.new) }
        ensures heard { IfSome (handle_at k self.old.handles.items)
            (λ h. HearsHandle h self.old self.new) }
        ensures missed { MissesSame self.old self.new }
    {
        let Some(mut handle) = take(&mut self.handles, k, 0) else {
            return HANDLE;
        };
        let answer = self
            .router
            .next_typed::<u16, Buffer, _, _>(alloc, &mut handle);
        self.handles[k] = Slot::Open(handle);
        hold(answer, &mut self.held, item)
    }

    /// Copies the bytes of the held message.
    pub fn item(&self, alloc: Global, out: &mut [u8], size: &mut usize) -> i32
        ensures { WritesItem result self.now out.old out.new size.old size.new }
    {
        let Some(message) = &self.held else {
            return HANDLE;
        };
        let mut bytes = Vec::new(alloc);
        // Where this is refused, writing asks for room piece by piece.
        let _ = bytes.reserve(message.padded_size());
        match message.to_bytes(&mut bytes) {
            Ok(()) => copy(&bytes, out, size),
            Err(_) => MEMORY,
        }
    }

    /// The verdict on the answer to a handle's request, by the items read from it.
    pub fn verdict(&self, k: usize, verdict: &mut NeliVerdict) -> i32
        ensures { TellsVerdict result k self.now verdict.old verdict.new }
    {
        let Some(handle) = handle_of(&self.handles, k) else {
            return HANDLE;
        };
        let stands = self.router.verdict(handle);
        *verdict = NeliVerdict {
            error: verdict_error(stands),
            filtered: filtered_byte(self.router.heard(handle)),
        };
        of_verdict(stands)
    }

    /// Gives a handle up; its place is the next one used, but that of multicast.
    pub fn give_up(&mut self, alloc: Global, k: usize) -> i32
        ensures given_up { GivesUpHandle result k self.old self.new }
        ensures missed { MissesSame self.old self.new }
    {
        match free(&mut self.handles, &mut self.freed, k) {
            Some(handle) => match self.router.give_up(alloc, handle) {
                Ok(()) => OK,
                Err(_) => MEMORY,
            },
            None => HANDLE,
        }
    }

    /// Closes a handle; its place is the next one used, but that of multicast.
    pub fn close(&mut self, k: usize) -> i32
        ensures closed { ClosesHandle result k self.old self.new }
        ensures missed { MissesSame self.old self.new }
    {
        match free(&mut self.handles, &mut self.freed, k) {
            Some(handle) => {
                self.router.close(handle);
                OK
            }
            None => HANDLE,
        }
    }
}
