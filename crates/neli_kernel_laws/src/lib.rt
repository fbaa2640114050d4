//! Laws of a kernel's answers as a router returns them: the messages of an answer, item by item, and then the end.
//!
//! The calls do nothing: their contracts are the laws, over the definitions only. `specs/Complete.antt` defines which
//! messages are a whole answer, `specs/Turns.antt` the reply to each read then, `specs/Served.antt` which messages
//! arrived for a number in a history, and `specs/Exchanges.antt` which datagrams arrived for a request.
//! `neli_kernel::laws` states that the simulator's datagrams are cut into such messages;
//! [`acknowledged_request_is_answered`], [`refused_request_is_answered`], [`replied_request_is_answered`] and
//! [`dump_request_is_answered`] join both. `specs/Notified.antt` defines which datagrams arrived for groups, and
//! [`notifications_are_heard`] what multicast gets.
#![tactic(auto)]

ghost use Rattle.std.specs.Prelude.{◌≡◌, ◌≢◌, ◌<◌, ◌+◌, ◌++◌, ◌∷◌, [], ℕ, ℤ, Bool, true};
ghost use Rattle.std.specs.Prelude.{false, All, FitsSigned, List, Ok, Err, None, Some, flat_map, length, map, pos};
ghost use Rattle.std.specs.List.{slice_get};
ghost use Rattle.std.specs.Int.{w32};
ghost use Rattle.neli_consts.specs.declared.nlm_f.NlmF.{NlmF as Flags};
ghost use Rattle.neli_reader.specs.Agreement.{untyped_layout};
ghost use Rattle.neli_reader.specs.Answers.{Attributes, answer};
ghost use Rattle.neli_reader.specs.Cuts.{cut_of};
ghost use Rattle.neli_reader.specs.Framed.{Nlmsghdr as Typed};
ghost use Rattle.neli_reader.specs.Headers.{Header};
ghost use Rattle.neli_reader.specs.Kinds.{is_multi};
ghost use Rattle.neli_reader.specs.NlPayload.TheVariants as payload;
ghost use Rattle.neli_reader.specs.NlPayload.{NlPayload as Payload};
ghost use Rattle.neli_reader.specs.RouterError.{RouterError as Refusal};
ghost use Rattle.neli_lent.specs.Messages.{Lent};
ghost use Rattle.neli_deliveries.specs.Deliveries.{Untyped, is_reply, message};
ghost use Rattle.neli_deliveries.specs.Readings.{Item};
ghost use Rattle.neli_kernel.specs.Answers.{acknowledgement, capped_error, error, message_or_refusal};
ghost use Rattle.neli_kernel.specs.Delivered.{AreReadBack, IsAnswer, IsEnd, IsFor};
ghost use Rattle.neli_kernel.specs.Delivered.{IsReply, answer_kept, reply_kept, untyped};
ghost use Rattle.neli_kernel.specs.Datagrams.{AreRead};
ghost use Rattle.neli_kernel.specs.Dumps.{Packed, datagrams_of, dump_end, finished};
ghost use Rattle.neli_kernel.specs.declared.request.Request.{Request as Asked};
ghost use Rattle.neli_runs.specs.Deliveries.{deliveries};
ghost use Rattle.neli_runs.specs.History.{History, is_closed, items_of, next_number};
ghost use Rattle.neli_runs.specs.Outcomes.{IsAnswered, IsNextAnswer, outcome_of};
ghost use Rattle.neli_runs.specs.Regrouping.{Bytes};
ghost use Rattle.neli_runs.specs.Reply.{Reply as Answer};
ghost use Rattle.neli_runs.specs.Reply.TheVariants as reply;
ghost use Rattle.neli_runs.specs.Rule.{needs_ack};
ghost use Rattle.neli_kernel_laws.specs.Complete.{IsComplete, IsPart, IsWhole, is_acknowledgement};
ghost use Rattle.neli_kernel_laws.specs.Exchanges.{Exchange, IsServed, ReadsGive, history_of, own_handle};
ghost use Rattle.neli_kernel_laws.specs.Notified.{AreNotifications, group_datagrams, messages_cut_of};
ghost use Rattle.neli_kernel_laws.specs.Served.{AllAnswer, came, handle_after, history_sent, numbered};
ghost use Rattle.neli_kernel_laws.specs.Turns.{IsHeardInTurn, IsInTurn, IsReadAs};

use neli_consts::NlType;
use neli_kernel::laws::{
    acknowledgement_is_delivered, dump_is_delivered, error_is_delivered,
    finished_dump_is_delivered, reply_is_delivered,
};
use neli_runs::{Command, Outcome};
use neli_wire::{FromBytesWithInput, Size, ToBytes};

/// A whole answer is returned in turn: if the deliveries to a handle with a number are the messages of one, each read
/// returns the next of them, typed, an error as such; and past the last, or after an error, the end.
pub fn answers_are_given_in_turn<RT, RP>()
where
    RT: NlType,
    RP: FromBytesWithInput + Size,
    ensures { (needs : Bool) (us : List Untyped) (given : List (Item RT RP)) (r : Answer RT RP)
        → IsComplete needs us
        → IsNextAnswer RT.wire_value RT.wire_number RP.view RP.wire_length RP.read needs true
        (map message us) given r
        → IsInTurn (IsReadAs RT.wire_value RP.view RP.wire_length RP.read) us given r }
{}

/// The simulator's answers are whole: an acknowledgement, if one was requested; an error; a reply without MULTI,
/// followed by the acknowledgement if one was requested; the messages of a dump and its end.
#[tactic(auto, using(crate::proofs::Complete::whole_answers))]
pub fn answers_are_complete()
    ensures acknowledgement { (asked : Asked) (attrs : Attributes)
        → IsComplete true (answer_kept (acknowledgement asked attrs) ∷ []) }
    ensures capped { (needs : Bool) (asked : Asked) (code : ℤ) (attrs : Attributes)
        → IsComplete needs (answer_kept (capped_error asked code attrs) ∷ []) }
    ensures error { (needs : Bool) (asked : Asked) (code : ℤ) (attrs : Attributes)
        → IsComplete needs (answer_kept (error asked code attrs) ∷ []) }
    ensures reply { (message_type number port : ℕ) (flags : Flags) (text : List ℕ)
        → message_type < 65536 → is_multi flags ≡ false
        → IsComplete false (reply_kept message_type flags number port text ∷ []) }
    ensures reply_acknowledged { (message_type number port : ℕ) (flags : Flags) (text : List ℕ)
        (asked : Asked) (attrs : Attributes) → message_type < 65536 → is_multi flags ≡ false
        → IsComplete true
        (reply_kept message_type flags number port text ∷ answer_kept (acknowledgement asked attrs)
        ∷ []) }
    ensures dump { (parts : List Untyped) (h : Header ℕ) (code : ℤ) (attrs : Attributes)
        → All IsPart parts → h.message_type ≡ 3
        → IsComplete false (parts ++ (h, payload.DumpExtAck (answer code tt attrs)) ∷ []) }
{}

/// A datagram whose messages have one number and the router's port delivers them to the handle of that number, and
/// nothing to another one; so do several datagrams, as those of a dump. It answers a request if the number is open.
#[tactic(auto, using(crate::proofs::Complete::cut_answered))]
pub fn datagrams_bring_their_own()
    ensures own { (number port : ℕ) (datagram : List ℕ) (us : List Untyped)
        → cut_of untyped_layout datagram ≡ (us, None) → All (IsFor number port) us
        → numbered number datagram ≡ us }
    ensures others { (number port : ℕ) (datagram : List ℕ) (us : List Untyped)
        → cut_of untyped_layout datagram ≡ (us, None) → All (IsFor number port) us
        → (other : ℕ) → other ≢ number → numbered other datagram ≡ [] }
    ensures several { (number port : ℕ) (datagrams : List (List ℕ)) (us : List Untyped)
        → flat_map (λ d. (cut_of untyped_layout d).0) datagrams ≡ us → All (IsFor number port) us
        → (flat_map (numbered number) datagrams ≡ us)
        × All (λ d. All (IsFor number port) (cut_of untyped_layout d).0) datagrams }
    ensures open { (number port : ℕ) (datagram : List ℕ) (us : List Untyped) (is_open : ℕ → Bool)
        → cut_of untyped_layout datagram ≡ (us, None)
        → All (IsFor number port) us → is_open number ≡ true
        → All (λ u. is_reply port is_open u ≡ true) (cut_of untyped_layout datagram).0 }
{}

/// Each request of a run gets its own messages, in whatever order the datagrams arrive and whatever is sent, read or
/// closed meanwhile: if a request was sent and its handle is not closed, the link has not failed since, no datagram has
/// a fault, those for no group answer requests, and those of their messages that have its number are a whole answer,
/// then each read of its handle returns these, in turn, and then the end. A datagram for groups changes nothing of it,
/// whatever numbers and ports its messages have.
#[tactic(auto, using(crate::proofs::Came::came_delivered))]
pub fn requests_are_answered_in_turn<ST, SP, RT, RP>()
where
    RT: NlType,
    RP: FromBytesWithInput + Size,
    ensures deliveries { (port : ℕ) (t : ST) (flags : Flags) (body : Payload ST SP) (sent : Bytes)
        (before later : History ST SP RT RP)
        → is_closed (handle_after before) (later ++ history_sent before t flags body sent) ≡ false
        → AllAnswer port later (history_sent before t flags body sent)
        → deliveries port (handle_after before) (later ++ history_sent before t flags body sent)
        ≡ map message (came (next_number before) later) }
    ensures read { (port : ℕ) (t : ST) (flags : Flags) (body : Payload ST SP) (sent : Bytes)
        (before later : History ST SP RT RP) (o : Outcome ST SP RT RP)
        → is_closed (handle_after before) (later ++ history_sent before t flags body sent) ≡ false
        → AllAnswer port later (history_sent before t flags body sent)
        → IsComplete (needs_ack flags) (came (next_number before) later)
        → IsAnswered RT.wire_value RT.wire_number RP.view RP.wire_length RP.read port
        (later ++ history_sent before t flags body sent) (Command.Read (handle_after before)) o
        → (r : Answer RT RP) × IsInTurn (IsReadAs RT.wire_value RP.view RP.wire_length RP.read)
        (came (next_number before) later)
        (items_of (handle_after before) (later ++ history_sent before t flags body sent)) r
        × (o ≡ outcome_of r) }
{}

/// A request is answered by the datagrams that arrived for it: if its handle is not closed, these datagrams were taken
/// in since, and their messages have its number and the router's port and are a whole answer, each read of its handle
/// returns these messages, in turn, and then the end; whatever else is sent, read, closed or notified meanwhile. The
/// link has not failed since, no datagram has a fault, and one for no group without a message of this number answers
/// other requests: each of its messages has the router's port and an open number.
pub fn request_is_answered<ST, SP, RT, RP>()
where
    RT: NlType,
    RP: FromBytesWithInput + Size,
    ensures { (x : Exchange ST SP RT RP) (asked : Asked) (datagrams : List (List ℕ))
        (us : List Untyped) → flat_map (λ d. (cut_of untyped_layout d).0) datagrams ≡ us
        → All (λ d. (cut_of untyped_layout d).1 ≡ None) datagrams
        → All (IsFor asked.header.sequence_number asked.port) us → IsComplete (needs_ack x.flags) us
        → IsServed x asked datagrams
        → ReadsGive RT.wire_value RT.wire_number RP.view RP.wire_length RP.read asked.port us x }
{}

/// Messages after a whole answer are not returned: if the messages that arrived for a handle are a whole answer and
/// others after it, each read returns the same as without the others. So if no acknowledgement is needed, of several
/// messages without MULTI the reads return the first, after those of a dump before it, and then the end.
pub fn messages_after_an_answer_are_not_given<ST, SP, RT, RP>()
where
    RT: NlType,
    RP: FromBytesWithInput + Size,
    ensures turn { (needs : Bool) (whole more : List Untyped) (given : List (Item RT RP))
        (r : Answer RT RP) → IsComplete needs whole
        → IsNextAnswer RT.wire_value RT.wire_number RP.view RP.wire_length RP.read needs true
        (map message (whole ++ more)) given r
        → IsInTurn (IsReadAs RT.wire_value RP.view RP.wire_length RP.read) whole given r }
    ensures served { (x : Exchange ST SP RT RP) (asked : Asked) (datagrams : List (List ℕ))
        (whole more : List Untyped)
        → flat_map (λ d. (cut_of untyped_layout d).0) datagrams ≡ whole ++ more
        → All (λ d. (cut_of untyped_layout d).1 ≡ None) datagrams
        → All (IsFor asked.header.sequence_number asked.port) (whole ++ more)
        → IsComplete (needs_ack x.flags) whole → IsServed x asked datagrams
        → ReadsGive RT.wire_value RT.wire_number RP.view RP.wire_length RP.read asked.port whole x }
{}

/// A whole reply that needed an acknowledgement, and is followed by another message (as where a change of several
/// objects is echoed in several messages without MULTI), is returned; then an error that reports the missing
/// acknowledgement, or why the message cannot be read; and then the end.
pub fn unacknowledged_reply_is_an_error<RT, RP>()
where
    RT: NlType,
    RP: FromBytesWithInput + Size,
    ensures error { (u next : Untyped) (more : List Untyped) (m : Typed RT RP) (r : Answer RT RP)
        → IsWhole u → is_acknowledgement next.1 ≡ false
        → IsNextAnswer RT.wire_value RT.wire_number RP.view RP.wire_length RP.read true true
        (map message (u ∷ next ∷ more)) (Ok m ∷ []) r
        → (e : Refusal RT RP) × (r ≡ reply.Item (Err e)) }
    ensures end { (u next : Untyped) (more : List Untyped) (m : Typed RT RP)
        (second : Item RT RP) (given : List (Item RT RP)) (r : Answer RT RP) → IsWhole u
        → IsNextAnswer RT.wire_value RT.wire_number RP.view RP.wire_length RP.read true true
        (map message (u ∷ next ∷ more)) (Ok m ∷ second ∷ given) r → r ≡ reply.End }
{}

/// Multicast gets every message of every datagram that arrived for groups, each once, in order, and nothing else,
/// whatever is sent, answered, read or closed meanwhile and whatever faults the link has; of a datagram with a fault
/// the messages before it. So while its handle, 0, is not closed, each read of it returns the next of these messages,
/// as the caller's types, and past the last of them a wait; an acknowledgement, an error and a message that cannot be
/// read are returned as errors, and after one of these the end. If all these datagrams are notifications of the
/// simulator, of whatever numbers and ports, these are their messages.
#[tactic(auto, using(crate::proofs::Heard::groups_delivered))]
pub fn notifications_are_heard<ST, SP, RT, RP, T, P>()
where
    RT: NlType,
    RP: FromBytesWithInput + Size,
    T: NlType,
    P: ToBytes,
    ensures deliveries { (port : ℕ) (h : History ST SP RT RP) → is_closed 0 h ≡ false
        → deliveries port 0 h ≡ map message (messages_cut_of (group_datagrams h)) }
    ensures read { (port : ℕ) (h : History ST SP RT RP) (o : Outcome ST SP RT RP)
        → is_closed 0 h ≡ false
        → IsAnswered RT.wire_value RT.wire_number RP.view RP.wire_length RP.read port h
        (Command.Read 0) o
        → (r : Answer RT RP)
        × IsHeardInTurn (IsReadAs RT.wire_value RP.view RP.wire_length RP.read)
        (messages_cut_of (group_datagrams h)) (items_of 0 h) r × (o ≡ outcome_of r) }
    ensures notified { (port : ℕ) (h : History ST SP RT RP) (us : List Untyped)
        (o : Outcome ST SP RT RP) → is_closed 0 h ≡ false
        → AreNotifications T.wire_number P.wire P.Size.wire_length (group_datagrams h) us
        → IsAnswered RT.wire_value RT.wire_number RP.view RP.wire_length RP.read port h
        (Command.Read 0) o
        → (r : Answer RT RP)
        × IsHeardInTurn (IsReadAs RT.wire_value RP.view RP.wire_length RP.read) us
        (items_of 0 h) r × (o ≡ outcome_of r) }
{
    reply_is_delivered::<T, P>();
}

/// A request that needs an acknowledgement is answered by the simulator's: if its datagram arrived for the request, the
/// reads of the request's handle return it, once, and then the end.
pub fn acknowledged_request_is_answered<ST, SP, RT, RP>()
where
    RT: NlType,
    RP: FromBytesWithInput + Size,
    ensures { (x : Exchange ST SP RT RP) (asked : Asked) (attrs : Attributes) (text bytes : List ℕ)
        → needs_ack x.flags ≡ true → AreReadBack attrs text
        → IsAnswer asked (acknowledgement asked attrs) bytes → IsServed x asked (bytes ∷ [])
        → ReadsGive RT.wire_value RT.wire_number RP.view RP.wire_length RP.read asked.port
        (answer_kept (acknowledgement asked attrs) ∷ []) x }
{
    acknowledgement_is_delivered();
}

/// A request is answered by the simulator's error for it, whether it needs an acknowledgement or not: if the error's
/// datagram arrived for it, the reads of its handle return the error, once, and then the end.
pub fn refused_request_is_answered<ST, SP, RT, RP>()
where
    RT: NlType,
    RP: FromBytesWithInput + Size,
    ensures capped { (x : Exchange ST SP RT RP) (asked : Asked) (code : ℤ) (attrs : Attributes)
        (text bytes : List ℕ) → code ≢ pos 0 → FitsSigned w32 code → AreReadBack attrs text
        → IsAnswer asked (capped_error asked code attrs) bytes → IsServed x asked (bytes ∷ [])
        → ReadsGive RT.wire_value RT.wire_number RP.view RP.wire_length RP.read asked.port
        (answer_kept (capped_error asked code attrs) ∷ []) x }
    ensures whole { (x : Exchange ST SP RT RP) (asked : Asked) (code : ℤ) (attrs : Attributes)
        (text bytes : List ℕ) → code ≢ pos 0 → FitsSigned w32 code
        → asked.header.len ≡ 16 + length asked.payload.now → AreReadBack attrs text
        → IsAnswer asked (error asked code attrs) bytes → IsServed x asked (bytes ∷ [])
        → ReadsGive RT.wire_value RT.wire_number RP.view RP.wire_length RP.read asked.port
        (answer_kept (error asked code attrs) ∷ []) x }
{
    error_is_delivered();
}

/// A request is answered by the simulator's reply: if it needs no acknowledgement, and the reply's datagram arrived for
/// it, the reads of its handle return the reply, once, and then the end; if it needs one, and that arrived after the
/// reply in a datagram of its own, they return both. The reply is without MULTI, and of a type that is neither 2 nor 3.
/// One that cannot be read as the caller's types is an error, and the last item.
pub fn replied_request_is_answered<ST, SP, RT, RP, T, P>()
where
    RT: NlType,
    RP: FromBytesWithInput + Size,
    T: NlType,
    P: ToBytes,
    ensures alone { (x : Exchange ST SP RT RP) (asked : Asked) (t : T) (flags : Flags) (body : P)
        (text bytes : List ℕ) → needs_ack x.flags ≡ false → is_multi flags ≡ false
        → IsReply T.wire_number P.wire P.Size.wire_length t flags asked.header.sequence_number
        asked.port body text bytes → IsServed x asked (bytes ∷ [])
        → ReadsGive RT.wire_value RT.wire_number RP.view RP.wire_length RP.read asked.port
        (reply_kept (T.wire_number t) flags asked.header.sequence_number asked.port text ∷ []) x }
    ensures acknowledged { (x : Exchange ST SP RT RP) (asked : Asked) (t : T) (flags : Flags)
        (body : P) (text bytes : List ℕ) (attrs : Attributes) (attrs_text ack_bytes : List ℕ)
        → needs_ack x.flags ≡ true → is_multi flags ≡ false
        → IsReply T.wire_number P.wire P.Size.wire_length t flags asked.header.sequence_number
        asked.port body text bytes → AreReadBack attrs attrs_text
        → IsAnswer asked (acknowledgement asked attrs) ack_bytes
        → IsServed x asked (bytes ∷ ack_bytes ∷ [])
        → ReadsGive RT.wire_value RT.wire_number RP.view RP.wire_length RP.read asked.port
        (reply_kept (T.wire_number t) flags asked.header.sequence_number asked.port text
        ∷ answer_kept (acknowledgement asked attrs) ∷ []) x }
{
    reply_is_delivered::<T, P>();
    acknowledgement_is_delivered();
}

/// A request that needs no acknowledgement, as each request for a dump, is answered by the simulator's dump: if the
/// dump's contents are read as messages with MULTI, stored as `ms`, with the request's number and the router's port,
/// and the datagrams of [`Dump::finish`](neli_kernel::Dump::finish) arrived for the request, in their order, the reads
/// of its handle return `ms`, then the end of the dump, and then the end. A message that cannot be read as the caller's
/// types is an error, and the last item.
pub fn dump_request_is_answered<ST, SP, RT, RP>()
where
    RT: NlType,
    RP: FromBytesWithInput + Size,
    ensures { (x : Exchange ST SP RT RP) (limit : ℕ) (asked : Asked) (flags : Flags) (code : ℤ)
        (attrs : Attributes) (text : List ℕ) (p : Packed) (said : List (Lent ℕ)) (ms : List Untyped)
        (datagrams : List (List ℕ)) → needs_ack x.flags ≡ false → IsEnd asked flags code
        → AreReadBack attrs text → AreRead (datagrams_of p) said
        → map untyped said ≡ map (λ m. Ok m) ms
        → All (IsFor asked.header.sequence_number asked.port) ms → All IsPart ms
        → finished limit (message_or_refusal (λ n. n) (λ b. Ok b) (dump_end asked flags code attrs))
        p ≡ Ok datagrams → IsServed x asked datagrams
        → ReadsGive RT.wire_value RT.wire_number RP.view RP.wire_length RP.read asked.port
        (ms ++ answer_kept (dump_end asked flags code attrs) ∷ []) x }
{
    finished_dump_is_delivered();
    dump_is_delivered();
}

/// The marks of an answer are kept: if a read of a request's handle returns a message, not an error, it has the flags
/// of the message in its place, and if that is the end of a dump, its code. So if a message of a dump or its end has
/// DUMP_INTR or DUMP_FILTERED, the returned one has it too; and a dump that failed ends in a message with its code.
pub fn marks_are_given<ST, SP, RT, RP>()
where
    RT: NlType,
    RP: FromBytesWithInput + Size,
    ensures flags { (port : ℕ) (us : List Untyped) (x : Exchange ST SP RT RP) (m : Typed RT RP)
        → ReadsGive RT.wire_value RT.wire_number RP.view RP.wire_length RP.read port us x
        → IsAnswered RT.wire_value RT.wire_number RP.view RP.wire_length RP.read port (history_of x)
        (Command.Read (own_handle x)) (Outcome.Item (Ok m))
        → (u : Untyped)
        × (slice_get us (length (items_of (own_handle x) (history_of x))) ≡ Some u)
        × (m.header.flags ≡ u.0.flags) }
    ensures code { (port : ℕ) (us : List Untyped) (x : Exchange ST SP RT RP) (m : Typed RT RP)
        (h : Header ℕ) (code : ℤ) (attrs : Attributes)
        → ReadsGive RT.wire_value RT.wire_number RP.view RP.wire_length RP.read port us x
        → IsAnswered RT.wire_value RT.wire_number RP.view RP.wire_length RP.read port (history_of x)
        (Command.Read (own_handle x)) (Outcome.Item (Ok m))
        → slice_get us (length (items_of (own_handle x) (history_of x)))
        ≡ Some (h, payload.DumpExtAck (answer code tt attrs))
        → m.payload ≡ payload.DumpExtAck (answer code tt attrs) }
{}
