//! Laws of runs, over the definitions only. The calls do nothing: their contracts are the laws.

ghost use Rattle.std.specs.Prelude.{◌≡◌, ◌≢◌, ◌<◌, ◌↔◌, ◌++◌, ◌∷◌, ◌==◌, if◌then◌else◌, ℕ, suc, Bool, false, [], List, Ok};
ghost use Rattle.std.specs.Prelude.{length, nat_lt};
ghost use Rattle.neli_consts.specs.declared.nlm_f.NlmF.{NlmF as Flags};
ghost use Rattle.neli_reader.specs.Agreement.{untyped_layout};
ghost use Rattle.neli_reader.specs.Cuts.{cut_of, messages_before};
ghost use Rattle.neli_reader.specs.Messages.{message_layout};
ghost use Rattle.neli_reader.specs.NlPayload.{NlPayload as Payload};
ghost use Rattle.neli_lent.specs.Written.{IsWalked};
ghost use Rattle.neli_deliveries.specs.declared.delivery.Delivery.{Delivery as Waiting};
ghost use Rattle.neli_deliveries.specs.Readings.{Item};
ghost use Rattle.neli_router.specs.declared.reply.Reply.{Reply as Answer};
ghost use Rattle.neli_router.specs.declared.reply.Reply.TheVariants as reply;
ghost use Rattle.neli_router.specs.Rule.{answer, ends_at, item_of, last_place, single_place};
ghost use Rattle.neli_router.specs.Verdicts.{given_of, is_filtered, verdict, verdict_of_items, verdict_with};
ghost use Rattle.neli_answers.specs.declared.answering.Answering.TheVariants as answered;
ghost use Rattle.neli_router.specs.declared.verdict.Verdict.TheVariants as stands;
ghost use Rattle.neli_router.specs.Sends.{frame_or_refusal, request};
ghost use Rattle.neli_runs.specs.Deliveries.{deliveries};
ghost use Rattle.neli_runs.specs.History.{History, is_handle_open, is_open, is_sent, items_of, needs_of};
ghost use Rattle.neli_runs.specs.History.{list_of_handle};
ghost use Rattle.neli_runs.specs.OtherReads.{NoneReads};
ghost use Rattle.neli_runs.specs.Outcomes.{AreReadings, EachAfter, IsAnswered, IsNextAnswer, IsSent, items_in};
ghost use Rattle.neli_runs.specs.Outcomes.{outcome_of};
ghost use Rattle.neli_runs.specs.Regrouping.{Bytes, IsRegrouped, IsWhole, history_with};
ghost use Rattle.neli_runs.specs.Whole.{AreAnswers, EndsDump, IsWholeAnswer};

use crate::{Command, Outcome};
use neli_consts::NlType;
use neli_wire::{FromBytesWithInput, Size, ToBytes};

/// The bytes of a sent request are one frame: read as a datagram they are one message, with the type, the flags and
/// REQUEST, the sequence number and the port, and with the payload's bytes and zeros up to a multiple of four; and no
/// fault.
pub fn request_is_one_frame<ST: NlType, SP: ToBytes>()
    ensures { (port number : ℕ) (in_use : Bool) (t : ST) (flags : Flags) (payload : Payload ST SP)
        (bytes : List ℕ) → port < 4294967296 → number < 4294967296 → ST.wire_number t < 65536
        → flags.0 < 65536 → frame_or_refusal ST.wire_number SP.wire SP.Size.wire_length port number
        in_use t flags payload ≡ Ok bytes
        → IsWalked ST.wire_number SP.wire (request ST.wire_number SP.wire SP.Size.wire_length port
        number t flags payload) bytes }
{}

/// Answers only grow: with more deliveries an item stays the same item and the end stays the end. Only a wait may
/// become something else.
pub fn answers_only_grow<RT: NlType, RP>()
    ensures item { (needs numbered : Bool) (items more : List (Item RT RP)) (i : ℕ) (x : Item RT RP)
        → answer RT.wire_number needs numbered items i ≡ reply.Item x
        → answer RT.wire_number needs numbered (items ++ more) i ≡ reply.Item x }
    ensures end { (needs numbered : Bool) (items more : List (Item RT RP)) (i : ℕ)
        → answer RT.wire_number needs numbered items i ≡ reply.End
        → answer RT.wire_number needs numbered (items ++ more) i ≡ reply.End }
{}

/// Deliveries only grow: one more command keeps those of a handle, and may add to them.
pub fn deliveries_only_grow<ST, SP, RT, RP>()
    ensures { (port k : ℕ) (c : Command ST SP) (o : Outcome ST SP RT RP)
        (h : History ST SP RT RP) → (more : List Waiting)
        × (deliveries port k ((c, o) ∷ h) ≡ deliveries port k h ++ more) }
{}

/// So later commands change no answer: an item or the end that is right for a read after some history is right after
/// every history that begins with that one.
pub fn later_commands_leave_answers<ST, SP, RT, RP>()
where
    RT: NlType,
    RP: FromBytesWithInput + Size,
    ensures deliveries { (port k : ℕ) (before later : History ST SP RT RP) → (more : List Waiting)
        × (deliveries port k (later ++ before) ≡ deliveries port k before ++ more) }
    ensures answer { (port k : ℕ) (needs numbered : Bool) (given : List (Item RT RP))
        (r : Answer RT RP) (before later : History ST SP RT RP) → r ≢ reply.Waits
        → IsNextAnswer RT.wire_value RT.wire_number RP.view RP.wire_length RP.read needs numbered
        (deliveries port k before) given r
        → IsNextAnswer RT.wire_value RT.wire_number RP.view RP.wire_length RP.read needs numbered
        (deliveries port k (later ++ before)) given r }
{}

/// A read of one handle changes nothing of another: neither its deliveries nor the items that its reads returned. The
/// handle itself gains the item that its read returned.
#[tactic(auto, using(crate::proofs::OtherReads::read_items))]
pub fn reads_of_others_change_nothing<ST, SP, RT, RP>()
    ensures deliveries { (port j k : ℕ) (r : Answer RT RP) (h : History ST SP RT RP)
        → deliveries port k ((Command.Read j, outcome_of r) ∷ h) ≡ deliveries port k h }
    ensures items { (j k : ℕ) (r : Answer RT RP) (h : History ST SP RT RP)
        → items_of k ((Command.Read j, outcome_of r) ∷ h)
        ≡ (if j == k then items_of k h ++ items_in r else items_of k h) }
    ensures needs { (j k : ℕ) (r : Answer RT RP) (h : History ST SP RT RP)
        → needs_of k ((Command.Read j, outcome_of r) ∷ h) ≡ needs_of k h }
    ensures whose { (j k : ℕ) (r : Answer RT RP) (h : History ST SP RT RP)
        → list_of_handle k ((Command.Read j, outcome_of r) ∷ h) ≡ list_of_handle k h }
    ensures live { (j k : ℕ) (r : Answer RT RP) (h : History ST SP RT RP)
        → is_handle_open k ((Command.Read j, outcome_of r) ∷ h) ≡ is_handle_open k h }
{}

/// So it changes no outcome: whether handle `j` was read at some point of a history or not, the same outcomes are right
/// for the commands that follow, of which none reads `j`. The read may have any outcome but bytes to be sent, which no
/// read has.
pub fn reads_of_others_leave_outcomes<ST, SP, RT, RP>()
where
    ST: NlType,
    SP: ToBytes,
    RT: NlType,
    RP: FromBytesWithInput + Size,
    // A request is sent as the same bytes even where they read `j`.
    ensures sent { (port j : ℕ) (o : Outcome ST SP RT RP) (before later : History ST SP RT RP)
        (commands : List (Command ST SP)) (outcomes : List (Outcome ST SP RT RP))
        → is_sent o ≡ false
        → (EachAfter (IsSent ST.wire_number SP.wire SP.Size.wire_length port)
        (later ++ before) commands outcomes
        ↔ EachAfter (IsSent ST.wire_number SP.wire SP.Size.wire_length port)
        (later ++ (Command.Read j, o) ∷ before) commands outcomes) }
    ensures read { (port j : ℕ) (o : Outcome ST SP RT RP) (before later : History ST SP RT RP)
        (commands : List (Command ST SP)) (outcomes : List (Outcome ST SP RT RP))
        → is_sent o ≡ false → NoneReads j commands
        → (EachAfter (IsAnswered RT.wire_value RT.wire_number RP.view RP.wire_length RP.read port)
        (later ++ before) commands outcomes
        ↔ EachAfter (IsAnswered RT.wire_value RT.wire_number RP.view RP.wire_length RP.read port)
        (later ++ (Command.Read j, o) ∷ before) commands outcomes) }
{}

/// A notification changes nothing for requests, whatever numbers and ports its messages have: whether a datagram
/// without a fault arrived for groups at some point of a history or not, each handle with a number gets the same
/// deliveries, and the same outcomes are right for the commands that follow, of which none reads multicast.
pub fn notifications_leave_outcomes<ST, SP, RT, RP>()
where
    ST: NlType,
    SP: ToBytes,
    RT: NlType,
    RP: FromBytesWithInput + Size,
    ensures deliveries { (port k group : ℕ) (groups : List ℕ) (b : Bytes)
        (before later : History ST SP RT RP) → IsWhole untyped_layout b.items
        → deliveries port (suc k)
        (later ++ (Command.Datagram b (group ∷ groups), Outcome.Done) ∷ before)
        ≡ deliveries port (suc k) (later ++ before) }
    // A request is sent as the same bytes even where they read multicast.
    ensures sent { (port group : ℕ) (groups : List ℕ) (b : Bytes)
        (before later : History ST SP RT RP) (commands : List (Command ST SP))
        (outcomes : List (Outcome ST SP RT RP)) → IsWhole untyped_layout b.items
        → (EachAfter (IsSent ST.wire_number SP.wire SP.Size.wire_length port)
        (later ++ before) commands outcomes
        ↔ EachAfter (IsSent ST.wire_number SP.wire SP.Size.wire_length port)
        (later ++ (Command.Datagram b (group ∷ groups), Outcome.Done) ∷ before) commands outcomes) }
    ensures read { (port group : ℕ) (groups : List ℕ) (b : Bytes)
        (before later : History ST SP RT RP) (commands : List (Command ST SP))
        (outcomes : List (Outcome ST SP RT RP)) → IsWhole untyped_layout b.items
        → NoneReads 0 commands
        → (EachAfter (IsAnswered RT.wire_value RT.wire_number RP.view RP.wire_length RP.read port)
        (later ++ before) commands outcomes
        ↔ EachAfter (IsAnswered RT.wire_value RT.wire_number RP.view RP.wire_length RP.read port)
        (later ++ (Command.Datagram b (group ∷ groups), Outcome.Done) ∷ before) commands outcomes) }
{}

/// Bytes without a fault and bytes after them have the messages of both, and then the fault of the later ones, if
/// there is one.
pub fn cuts_join<T: NlType, P: FromBytesWithInput>()
    ensures typed { (a b : List ℕ) → IsWhole (message_layout T.wire_value T.wire_number P.read) a
        → cut_of (message_layout T.wire_value T.wire_number P.read) (a ++ b)
        ≡ messages_before (cut_of (message_layout T.wire_value T.wire_number P.read) a).0
        (cut_of (message_layout T.wire_value T.wire_number P.read) b) }
    ensures untyped { (a b : List ℕ) → IsWhole untyped_layout a → cut_of untyped_layout (a ++ b)
        ≡ messages_before (cut_of untyped_layout a).0 (cut_of untyped_layout b) }
{}

/// Datagrams may be regrouped: if consecutive ones for the same groups are replaced by others with the same bytes,
/// every handle gets the same deliveries, whatever arrived before them and after them. Of the old datagrams and of the
/// new ones only the last may have a fault. The same handles and numbers are open.
pub fn regrouping_leaves_deliveries<ST, SP, RT, RP>()
    ensures deliveries { (port k : ℕ) (groups : List ℕ) (bs cs : List Bytes)
        (before later : History ST SP RT RP) → IsRegrouped bs cs
        → deliveries port k (later ++ history_with groups bs before)
        ≡ deliveries port k (later ++ history_with groups cs before) }
    ensures live { (k : ℕ) (groups : List ℕ) (bs cs : List Bytes)
        (before later : History ST SP RT RP)
        → is_handle_open k (later ++ history_with groups bs before)
        ≡ is_handle_open k (later ++ history_with groups cs before) }
    ensures open { (q : ℕ) (groups : List ℕ) (bs cs : List Bytes)
        (before later : History ST SP RT RP)
        → is_open q (later ++ history_with groups bs before)
        ≡ is_open q (later ++ history_with groups cs before) }
{}

/// So every outcome that is right after the old datagrams is right after the new ones.
pub fn regrouping_leaves_outcomes<ST, SP, RT, RP>()
where
    ST: NlType,
    SP: ToBytes,
    RT: NlType,
    RP: FromBytesWithInput + Size,
    ensures sent { (port : ℕ) (groups : List ℕ) (bs cs : List Bytes) (before : History ST SP RT RP)
        (commands : List (Command ST SP)) (outcomes : List (Outcome ST SP RT RP))
        → IsRegrouped bs cs
        → EachAfter (IsSent ST.wire_number SP.wire SP.Size.wire_length port)
        (history_with groups bs before) commands outcomes
        → EachAfter (IsSent ST.wire_number SP.wire SP.Size.wire_length port)
        (history_with groups cs before) commands outcomes }
    ensures read { (port : ℕ) (groups : List ℕ) (bs cs : List Bytes) (before : History ST SP RT RP)
        (commands : List (Command ST SP)) (outcomes : List (Outcome ST SP RT RP))
        → IsRegrouped bs cs
        → EachAfter (IsAnswered RT.wire_value RT.wire_number RP.view RP.wire_length RP.read port)
        (history_with groups bs before) commands outcomes
        → EachAfter (IsAnswered RT.wire_value RT.wire_number RP.view RP.wire_length RP.read port)
        (history_with groups cs before) commands outcomes }
{}

/// A verdict follows all reads: before the first it is pending; and one item more, of a handle whose answers have not
/// ended, changes it and the returned items exactly as `NlRouter::next_typed` does.
pub fn verdicts_follow_reads<RT: NlType, RP>()
    ensures none { (needs numbered : Bool)
        → verdict {K = RT} {P = RP} RT.wire_number needs numbered [] ≡ stands.Pending }
    ensures verdict { (needs numbered : Bool) (items : List (Item RT RP)) (x : Item RT RP)
        → nat_lt (last_place RT.wire_number needs numbered items) (length items) ≡ false
        → verdict RT.wire_number needs numbered (items ++ x ∷ [])
        ≡ verdict_with (verdict RT.wire_number needs numbered items)
        (ends_at RT.wire_number needs numbered
        (nat_lt (single_place RT.wire_number numbered items) (length items)) x)
        (item_of RT.wire_number needs numbered
        (nat_lt (single_place RT.wire_number numbered items) (length items)) x) }
    ensures given { (needs numbered : Bool) (items : List (Item RT RP)) (x : Item RT RP)
        → nat_lt (last_place RT.wire_number needs numbered items) (length items) ≡ false
        → given_of RT.wire_number needs numbered (items ++ x ∷ [])
        ≡ given_of RT.wire_number needs numbered items
        ++ item_of RT.wire_number needs numbered
        (nat_lt (single_place RT.wire_number numbered items) (length items)) x ∷ [] }
{}

/// Every verdict but pending is final: no later delivery changes it. So an interrupted answer never becomes complete.
pub fn verdicts_stay<RT: NlType, RP>()
    ensures { (needs numbered : Bool) (items more : List (Item RT RP))
        → verdict RT.wire_number needs numbered items ≢ stands.Pending
        → verdict RT.wire_number needs numbered (items ++ more)
        ≡ verdict RT.wire_number needs numbered items }
{}

/// What a handle was given stands as what was delivered to it: the items that reads returned have the verdict of the
/// answer, and say of filtering what the answer says. So `neli_router::verdict_of`, by a list of them, is the answer's.
pub fn given_items_stand_alike<RT: NlType, RP>()
    ensures verdict { (needs numbered : Bool) (items : List (Item RT RP))
        → verdict RT.wire_number needs numbered (given_of RT.wire_number needs numbered items)
        ≡ verdict RT.wire_number needs numbered items }
    ensures filtered { (needs numbered : Bool) (items : List (Item RT RP))
        → is_filtered RT.wire_number needs numbered (given_of RT.wire_number needs numbered items)
        ≡ is_filtered RT.wire_number needs numbered items }
{}

/// Where the verdict is `Complete`, the items given are all messages of the answer, each once, in order and as it was
/// read, none of them marked as interrupted, and the end came with code 0.
pub fn complete_answers_are_whole<RT, RP>()
where
    RT: NlType,
    RP: FromBytesWithInput + Size,
    ensures { (needs numbered : Bool) (ds : List Waiting) (items : List (Item RT RP))
        → AreReadings RT.wire_value RP.view RP.wire_length RP.read ds items
        → verdict RT.wire_number needs numbered items ≡ stands.Complete
        → IsWholeAnswer RT.wire_value RT.wire_number RP.view RP.wire_length RP.read needs numbered ds items }
{}

/// Of a request that is answered by a dump the verdict is `Complete` only at its end: the last item is of type 3
/// (`NLMSG_DONE`), with code 0, whether the messages of the dump have `NLM_F_MULTI` or not.
pub fn complete_dumps_have_ended<RT: NlType, RP>()
    ensures { (items : List (Item RT RP)) → AreAnswers RT.wire_number items
        → verdict_of_items RT.wire_number answered.Dump false items ≡ stands.Complete
        → EndsDump RT.wire_number items }
{}
