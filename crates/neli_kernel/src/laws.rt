//! Laws of answers, over the definitions only. The calls do nothing: their contracts are the laws.

ghost use Rattle.std.specs.Prelude.{◌≡◌, ◌≢◌, ◌<◌, ◌+◌, ◌++◌, ◌∷◌, [], ℕ, ℤ, true, All};
ghost use Rattle.std.specs.Prelude.{Bool, FitsSigned, List, Option, Ok, None, Some, flat_map, length, map, pos};
ghost use Rattle.std.specs.Int.{w32};
ghost use Rattle.neli_wire.specs.Numbers.{signed_bytes};
ghost use Rattle.neli_consts.specs.declared.nlm_f.NlmF.{NlmF as Flags};
ghost use Rattle.neli_reader.specs.Agreement.{untyped_layout};
ghost use Rattle.neli_reader.specs.Answers.{Attributes, answer};
ghost use Rattle.neli_reader.specs.Cuts.{cut_of};
ghost use Rattle.neli_reader.specs.Headers.{Header, flags_of};
ghost use Rattle.neli_reader.specs.Kinds.{is_multi};
ghost use Rattle.neli_reader.specs.NlPayload.TheVariants as payload;
ghost use Rattle.neli_reader.specs.NlPayload.{NlPayload as Payload};
ghost use Rattle.neli_lent.specs.Messages.{Lent, messages_in};
ghost use Rattle.neli_lent.specs.Written.{IsWalked};
ghost use Rattle.neli_deliveries.specs.Deliveries.{Untyped, datagram_share, message};
ghost use Rattle.neli_kernel.specs.Answers.{IsAddressed, acknowledgement, capped_error, control};
ghost use Rattle.neli_kernel.specs.Answers.{error, message_or_refusal, message_with};
ghost use Rattle.neli_kernel.specs.declared.request.Request.{Request as Asked};
ghost use Rattle.neli_kernel.specs.Datagrams.{AreRead, AreWithin};
ghost use Rattle.neli_kernel.specs.Delivered.{AreReadBack, IsAnswer, IsDelivered, IsEnd, IsFor};
ghost use Rattle.neli_kernel.specs.Delivered.{IsPlain, IsPlainAttribute, IsReply, answer_kept, end_said};
ghost use Rattle.neli_kernel.specs.Delivered.{kept, reply_kept, shares, untyped};
ghost use Rattle.neli_kernel.specs.Dumps.{Packed, begun, datagrams_of, dump_end, dump_message};
ghost use Rattle.neli_kernel.specs.Dumps.{finished, put_wire};
ghost use Rattle.neli_kernel.specs.Marks.{HasMarksOf};

use neli_consts::NlType;
use neli_wire::ToBytes;

/// An answer is one message: read as a datagram its bytes are one message, with that type, those flags, number and
/// port, and with the payload's bytes and zeros up to a multiple of four; and no fault.
pub fn message_is_one_frame<T: NlType, P: ToBytes>()
    ensures { (t : T) (flags : Flags) (number port : ℕ) (payload : Payload T P) (bytes : List ℕ)
        → T.wire_number t < 65536 → flags.0 < 65536 → number < 4294967296 → port < 4294967296
        → message_or_refusal T.wire_number P.wire
        (message_with P.Size.wire_length t flags number port payload) ≡ Ok bytes
        → IsWalked T.wire_number P.wire
        (message_with P.Size.wire_length t flags number port payload) bytes }
{}

/// So an acknowledgement and an error are one message, if the request's number and port fit their fields: of type 2,
/// with the request's number, to its port, with the code, the echo and the attributes as payload.
pub fn answers_are_one_frame()
    ensures acknowledgement { (asked : Asked) (attrs : Attributes) (bytes : List ℕ)
        → IsAddressed asked
        → message_or_refusal (λ n. n) (λ b. Ok b) (acknowledgement asked attrs) ≡ Ok bytes
        → IsWalked (λ n. n) (λ b. Ok b) (acknowledgement asked attrs) bytes }
    ensures capped_error { (asked : Asked) (code : ℤ) (attrs : Attributes) (bytes : List ℕ)
        → IsAddressed asked
        → message_or_refusal (λ n. n) (λ b. Ok b) (capped_error asked code attrs) ≡ Ok bytes
        → IsWalked (λ n. n) (λ b. Ok b) (capped_error asked code attrs) bytes }
    ensures error { (asked : Asked) (code : ℤ) (attrs : Attributes) (bytes : List ℕ)
        → IsAddressed asked
        → message_or_refusal (λ n. n) (λ b. Ok b) (error asked code attrs) ≡ Ok bytes
        → IsWalked (λ n. n) (λ b. Ok b) (error asked code attrs) bytes }
{}

/// A dump is read as its messages: if the datagrams so far are read as some messages, without a fault, then after one
/// more message they are read as these and that one, whether it begins the next datagram or not. So the datagrams of a
/// dump are read as all messages that were put in, in order, and the end is the last one.
pub fn dump_is_read_as_its_messages()
    ensures nothing { AreRead (datagrams_of ([], [])) [] }
    ensures put { (limit : ℕ) (frame : List ℕ) (m : Lent ℕ) (p q : Packed) (said : List (Lent ℕ))
        → messages_in (λ n. n) frame ≡ (m ∷ [], None) → put_wire limit (Ok frame) p ≡ Ok q
        → AreRead (datagrams_of p) said → AreRead (datagrams_of q) (said ++ m ∷ []) }
    ensures begun { (p : Packed) (said : List (Lent ℕ)) → AreRead (datagrams_of p) said
        → AreRead (datagrams_of (begun p)) said }
{}

/// No datagram of a dump has more bytes than the limit.
pub fn datagrams_keep_the_limit()
    ensures nothing { (limit : ℕ) → AreWithin limit (datagrams_of ([], [])) }
    ensures put { (limit : ℕ) (frame : List ℕ) (p q : Packed) → put_wire limit (Ok frame) p ≡ Ok q
        → AreWithin limit (datagrams_of p) → AreWithin limit (datagrams_of q) }
    ensures begun { (limit : ℕ) (p : Packed) → AreWithin limit (datagrams_of p)
        → AreWithin limit (datagrams_of (begun p)) }
{}

/// A reply is delivered to the requesting handle, once, and to no other one: if a router has the reply's port and the
/// request's number is still open there, a datagram of the reply's bytes is one message for that handle, with the
/// body's bytes and zeros up to a multiple of four, and nothing for each other handle and for the one for multicast. So
/// is each message of [`Request::reply`](crate::Request::reply) whose type is neither 2 (an error) nor 3 (the end of a
/// dump).
pub fn reply_is_delivered<T: NlType, P: ToBytes>()
    ensures one_message { (t : T) (flags : Flags) (number port : ℕ) (body : P) (text bytes : List ℕ)
        → IsReply T.wire_number P.wire P.Size.wire_length t flags number port body text bytes
        → cut_of untyped_layout bytes
        ≡ (reply_kept (T.wire_number t) flags number port text ∷ [], None) }
    ensures asker { (t : T) (flags : Flags) (number port : ℕ) (body : P) (text bytes : List ℕ)
        (is_open : ℕ → Bool)
        → IsReply T.wire_number P.wire P.Size.wire_length t flags number port body text bytes
        → is_open number ≡ true
        → datagram_share port is_open (Some number) (cut_of untyped_layout bytes) []
        ≡ message (reply_kept (T.wire_number t) flags number port text) ∷ [] }
    ensures others { (t : T) (flags : Flags) (number port : ℕ) (body : P) (text bytes : List ℕ)
        (is_open : ℕ → Bool)
        → IsReply T.wire_number P.wire P.Size.wire_length t flags number port body text bytes
        → is_open number ≡ true → (other : Option ℕ) → other ≢ Some number
        → datagram_share port is_open other (cut_of untyped_layout bytes) [] ≡ [] }
{}

/// Attributes of an extended acknowledgement are read back from their bytes, as the laws below require: if there are
/// none, and if each one's length is that of its header and payload and fits 16 bits, and its type is that of its
/// 14-bit number. A builder sets such a length. A type without a name has such a number if it is 5 or more, and below
/// 16384.
pub fn attributes_are_read_back()
    ensures nothing { AreReadBack [] [] }
    ensures plain { (attrs : Attributes) → All IsPlainAttribute attrs
        → (text : List ℕ) × AreReadBack attrs text }
{}

/// A dump is delivered to the requesting handle, message by message and in order, and to no other one: if its datagrams
/// are read as some messages, each with the router's port and a number that is still open there, and `ms` are these as
/// the router stores them, then the handle of the number gets all of `ms` from the datagrams, one after the other, and
/// each other handle nothing; the datagrams are cut into them, without a fault. A message whose type is neither 2 nor 3
/// is stored with its bytes as body, and an end with its code and with attributes that are read back.
pub fn dump_is_delivered()
    ensures asker { (datagrams : List (List ℕ)) (said : List (Lent ℕ)) (ms : List Untyped)
        (number port : ℕ) (is_open : ℕ → Bool) → AreRead datagrams said
        → map untyped said ≡ map (λ m. Ok m) ms → All (IsFor number port) ms → is_open number ≡ true
        → shares port is_open (Some number) datagrams ≡ map message ms }
    ensures others { (datagrams : List (List ℕ)) (said : List (Lent ℕ)) (ms : List Untyped)
        (number port : ℕ) (is_open : ℕ → Bool) → AreRead datagrams said
        → map untyped said ≡ map (λ m. Ok m) ms → All (IsFor number port) ms → is_open number ≡ true
        → (other : Option ℕ) → other ≢ Some number → shares port is_open other datagrams ≡ [] }
    ensures cut { (datagrams : List (List ℕ)) (said : List (Lent ℕ)) (ms : List Untyped)
        → AreRead datagrams said → map untyped said ≡ map (λ m. Ok m) ms
        → (flat_map (λ d. (cut_of untyped_layout d).0) datagrams ≡ ms)
        × All (λ d. (cut_of untyped_layout d).1 ≡ None) datagrams }
    ensures plain { (m : Lent ℕ) → IsPlain m.0.message_type → untyped m ≡ Ok (kept m) }
    ensures end { (h : Header ℕ) (code : ℤ) (attrs : Attributes) (text : List ℕ)
        → h.message_type ≡ 3 → is_multi h.flags ≡ true → FitsSigned w32 code
        → AreReadBack attrs text
        → untyped (h, signed_bytes w32 4 code ++ text)
        ≡ Ok (h, payload.DumpExtAck (answer code tt attrs)) }
{}

/// A finished dump is delivered whole: if its contents are read as some messages, stored as `ms`, with the request's
/// number and port, the datagrams of [`Dump::finish`](crate::Dump::finish) deliver to the handle of that number `ms`
/// and then the end with its code and attributes, and to each other handle nothing; however they were cut. The
/// attributes must be read back from their bytes.
pub fn finished_dump_is_delivered()
    ensures read { (limit : ℕ) (asked : Asked) (flags : Flags) (code : ℤ) (attrs : Attributes)
        (text : List ℕ) (p : Packed) (said : List (Lent ℕ)) (datagrams : List (List ℕ))
        → IsEnd asked flags code → AreReadBack attrs text → AreRead (datagrams_of p) said
        → finished limit (message_or_refusal (λ n. n) (λ b. Ok b) (dump_end asked flags code attrs))
        p ≡ Ok datagrams → AreRead datagrams (said ++ end_said asked flags code attrs text ∷ []) }
    ensures kept { (asked : Asked) (flags : Flags) (code : ℤ) (attrs : Attributes) (text : List ℕ)
        (said : List (Lent ℕ)) (ms : List Untyped) → FitsSigned w32 code → AreReadBack attrs text
        → map untyped said ≡ map (λ m. Ok m) ms
        → map untyped (said ++ end_said asked flags code attrs text ∷ [])
        ≡ map (λ m. Ok m) (ms ++ answer_kept (dump_end asked flags code attrs) ∷ []) }
    ensures asker { (limit : ℕ) (asked : Asked) (flags : Flags) (code : ℤ) (attrs : Attributes)
        (text : List ℕ) (p : Packed) (said : List (Lent ℕ)) (ms : List Untyped)
        (datagrams : List (List ℕ)) (is_open : ℕ → Bool) → IsEnd asked flags code
        → AreReadBack attrs text → AreRead (datagrams_of p) said
        → map untyped said ≡ map (λ m. Ok m) ms
        → All (IsFor asked.header.sequence_number asked.port) ms
        → is_open asked.header.sequence_number ≡ true
        → finished limit (message_or_refusal (λ n. n) (λ b. Ok b) (dump_end asked flags code attrs))
        p ≡ Ok datagrams
        → shares asked.port is_open (Some asked.header.sequence_number) datagrams
        ≡ map message (ms ++ answer_kept (dump_end asked flags code attrs) ∷ []) }
    ensures others { (limit : ℕ) (asked : Asked) (flags : Flags) (code : ℤ) (attrs : Attributes)
        (text : List ℕ) (p : Packed) (said : List (Lent ℕ)) (ms : List Untyped)
        (datagrams : List (List ℕ)) (is_open : ℕ → Bool) (other : Option ℕ)
        → other ≢ Some asked.header.sequence_number → IsEnd asked flags code
        → AreReadBack attrs text → AreRead (datagrams_of p) said
        → map untyped said ≡ map (λ m. Ok m) ms
        → All (IsFor asked.header.sequence_number asked.port) ms
        → is_open asked.header.sequence_number ≡ true
        → finished limit (message_or_refusal (λ n. n) (λ b. Ok b) (dump_end asked flags code attrs))
        p ≡ Ok datagrams → shares asked.port is_open other datagrams ≡ [] }
{}

/// An acknowledgement is delivered to the requesting handle, once, and to no other one: if a router has the port of the
/// request's socket and the request's number is still open there, a datagram of its bytes is one message for that
/// handle, an acknowledgement with code 0 that echoes the request's header and has its attributes, and nothing for each
/// other handle and for the one for multicast. The attributes must be read back from their bytes.
pub fn acknowledgement_is_delivered()
    ensures one_message { (asked : Asked) (attrs : Attributes) (text bytes : List ℕ)
        → AreReadBack attrs text → IsAnswer asked (acknowledgement asked attrs) bytes
        → cut_of untyped_layout bytes ≡ (answer_kept (acknowledgement asked attrs) ∷ [], None) }
    ensures asker { (asked : Asked) (attrs : Attributes) (text bytes : List ℕ)
        → AreReadBack attrs text → IsAnswer asked (acknowledgement asked attrs) bytes
        → (is_open : ℕ → Bool) → is_open asked.header.sequence_number ≡ true
        → datagram_share asked.port is_open (Some asked.header.sequence_number)
        (cut_of untyped_layout bytes) []
        ≡ message (answer_kept (acknowledgement asked attrs)) ∷ [] }
    ensures others { (asked : Asked) (attrs : Attributes) (text bytes : List ℕ)
        → AreReadBack attrs text → IsAnswer asked (acknowledgement asked attrs) bytes
        → (is_open : ℕ → Bool) → is_open asked.header.sequence_number ≡ true
        → (other : Option ℕ) → other ≢ Some asked.header.sequence_number
        → datagram_share asked.port is_open other (cut_of untyped_layout bytes) [] ≡ [] }
{}

/// An error is delivered to the requesting handle, once, and to no other one, if its code is not 0 and fits 32 bits: a
/// capped one with that code, the request's header and its attributes, and a whole one with the request's payload too,
/// if the request states its own length. The attributes must be read back from their bytes.
pub fn error_is_delivered()
    ensures capped { (asked : Asked) (code : ℤ) (attrs : Attributes) (text bytes : List ℕ)
        → code ≢ pos 0 → FitsSigned w32 code → AreReadBack attrs text
        → IsAnswer asked (capped_error asked code attrs) bytes
        → IsDelivered asked (capped_error asked code attrs) bytes }
    ensures whole { (asked : Asked) (code : ℤ) (attrs : Attributes) (text bytes : List ℕ)
        → code ≢ pos 0 → FitsSigned w32 code → asked.header.len ≡ 16 + length asked.payload.now
        → AreReadBack attrs text → IsAnswer asked (error asked code attrs) bytes
        → IsDelivered asked (error asked code attrs) bytes }
{}

/// A dump keeps the marks of its messages: DUMP_INTR and DUMP_FILTERED are set in a message of
/// [`Dump::push`](crate::Dump::push), and in the end of [`Dump::finish`](crate::Dump::finish), if they are in the flags
/// of the call, whatever MULTI and ACK_TLVS are.
pub fn dump_keeps_its_marks<T: NlType, P: ToBytes>()
    ensures message { (asked : Asked) (t : T) (flags : Flags) (body : P) → HasMarksOf flags
        (dump_message P.Size.wire_length asked t flags body).header.flags }
    ensures end { (asked : Asked) (flags : Flags) (code : ℤ) (attrs : Attributes)
        → HasMarksOf flags (dump_end asked flags code attrs).header.flags }
{}

/// A message of no operation and one of an overrun are replies as the laws on replies require, without MULTI and
/// without a body.
pub fn control_messages_are_replies()
    ensures no_operation { (asked : Asked) (bytes : List ℕ) → IsAddressed asked
        → message_or_refusal (λ n. n) (λ b. Ok b) (control asked 1) ≡ Ok bytes
        → IsReply (λ n. n) (λ b. Ok b) length 1 (flags_of 0) asked.header.sequence_number
        asked.port [] [] bytes }
    ensures overrun { (asked : Asked) (bytes : List ℕ) → IsAddressed asked
        → message_or_refusal (λ n. n) (λ b. Ok b) (control asked 4) ≡ Ok bytes
        → IsReply (λ n. n) (λ b. Ok b) length 4 (flags_of 0) asked.header.sequence_number
        asked.port [] [] bytes }
{}

/// A notification is delivered to multicast, once, and to no handle with a number, whatever its own number and port
/// are, and whatever port the router has: if it arrived for a group, a datagram of its bytes is one message for the
/// handle for multicast, with the body's bytes and zeros up to a multiple of four. So is each
/// [`notification`](crate::notification) whose type is neither 2 nor 3.
pub fn notification_is_delivered<T: NlType, P: ToBytes>()
    ensures multicast { (t : T) (flags : Flags) (number port : ℕ) (body : P) (text bytes : List ℕ)
        (own group : ℕ) (groups : List ℕ) (is_open : ℕ → Bool)
        → IsReply T.wire_number P.wire P.Size.wire_length t flags number port body text bytes
        → datagram_share own is_open None (cut_of untyped_layout bytes) (group ∷ groups)
        ≡ message (reply_kept (T.wire_number t) flags number port text) ∷ [] }
    ensures numbered { (t : T) (flags : Flags) (number port : ℕ) (body : P) (text bytes : List ℕ)
        (own group q : ℕ) (groups : List ℕ) (is_open : ℕ → Bool)
        → IsReply T.wire_number P.wire P.Size.wire_length t flags number port body text bytes
        → datagram_share own is_open (Some q) (cut_of untyped_layout bytes) (group ∷ groups) ≡ [] }
{}
