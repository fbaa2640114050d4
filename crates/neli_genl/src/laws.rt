//! Laws over the definitions: what is written of a body is read again as its equal, and what bodies state about
//! themselves. The functions do nothing: their contracts are the laws.

ghost use Rattle.std.specs.Prelude.{◌≡◌, ◌+◌, ◌<◌, ◌++◌, List, [], Ok, ℕ, length, min};
ghost use Rattle.neli_wire.specs.Constants.{IsEquality};
ghost use Rattle.neli_wire.specs.Numbers.{AreBytes};
ghost use Rattle.neli_wire.specs.laws.Values.{AreSame, AreWrittenAs, OnlyWhere};
ghost use Rattle.neli_body.specs.Bodies.{body_of, body_takes_memory, body_wire};
ghost use Rattle.neli_body.specs.RoundTrips.{ReadsBack};
ghost use Rattle.neli_genl.specs.CnMsg.{IsPlainCnMsg, cn_msg_bytes, cn_msg_header};
ghost use Rattle.neli_genl.specs.Genlmsghdr.{genlmsghdr_of, genlmsghdr_size, genlmsghdr_takes_memory, genlmsghdr_wire};
ghost use Rattle.neli_genl.specs.ProcEventHeader.{IsPlainProcEvent, proc_event_bytes, proc_event_of};
ghost use Rattle.neli_genl.specs.ProcEventHeader.{proc_event_size, proc_event_takes_memory};
ghost use Rattle.neli_genl.specs.RoundTrips.{ArePlainNlattrs, GenlReadsBack, GenlReadsBackWhole, IsPlainGenlmsghdr};
ghost use Rattle.neli_genl.specs.declared.cn_msg.CnMsg.{CnMsg as Connector};
ghost use Rattle.neli_genl.specs.declared.genlmsghdr.Genlmsghdr.{Genlmsghdr as Generic};
ghost use Rattle.neli_genl.specs.declared.proc_event_header.ProcEventHeader.{ProcEventHeader as Event};

use crate::{CnMsg, Genlmsghdr, NoUserHeader, ProcEvent, ProcEventHeader};
use neli_attr::TryClone;
use neli_consts::{Cmd, NlAttrType};
use neli_wire::{FromBytes, FromBytesWithInput, Header, Size, ToBytes, TypeSize};

/// A connector message's wire bytes are read as its fields, and the payload's bytes as they are read alone, if each
/// field is read from its number. Bytes that are read as the fields are written back as the same bytes.
pub fn cn_msg_is_read_back<P: ToBytes + FromBytesWithInput>()
    ensures back { (m : Connector P) → IsPlainCnMsg m.header
        → ReadsBack 20 cn_msg_bytes cn_msg_header P.read m.header (P.wire m.payload) }
    ensures bytes { (s : List ℕ) → length s ≡ 20 → AreBytes s → cn_msg_bytes (cn_msg_header s) ≡ s }
{}

/// The wire bytes of a message of generic netlink are read as its fields, and those of the family's header and of the
/// attributes as they are read alone, if the command is read from its number, the other fields fit theirs, and the
/// family's header has a multiple of four bytes. The two bytes without a meaning stay as they are. If that header is
/// read back from its own bytes too, each attribute's length is that of its header and payload, and each type is read
/// from its number of 14 bits, the whole is read back.
pub fn genlmsghdr_is_read_back<C: Cmd, T: NlAttrType, H: TypeSize>()
    ensures back { (m : Generic C T H) → IsPlainGenlmsghdr H.width C.wire_number C.wire_value m
        → GenlReadsBack H.width C.wire_number C.wire_value T.wire_number T.wire_value
        H.ToBytes.wire H.FromBytes.read m }
    ensures whole { (m : Generic C T H) → IsPlainGenlmsghdr H.width C.wire_number C.wire_value m
        → ArePlainNlattrs T.wire_number T.wire_value m.attrs
        → GenlReadsBackWhole H.width C.wire_number C.wire_value T.wire_number T.wire_value
        H.ToBytes.wire H.FromBytes.read H.FromBytes.view m }
{}

/// A process event with its header is read back, if each number fits its field. Whatever follows its bytes is skipped.
pub fn proc_event_is_read_back()
    ensures back { (h : Event) → IsPlainProcEvent h
        → proc_event_of (proc_event_bytes h) ≡ Ok h }
    ensures skipped { (h : Event) (rest : List ℕ) → IsPlainProcEvent h
        → proc_event_of (proc_event_bytes h ++ rest) ≡ Ok h }
{}

/// `==` of messages of generic netlink and of the connector is true exactly where the two values are equal, field by
/// field, if the commands, types, headers and payloads in them have such an `==`; so is that of process events.
pub fn equality<C: PartialEq, T: PartialEq, H: PartialEq, P: PartialEq>()
    ensures user_header { IsEquality ⟦<NoUserHeader as PartialEq>⟧.eq }
    ensures generic { IsEquality C.eq → IsEquality T.eq → IsEquality H.eq
        → IsEquality ⟦<Genlmsghdr<C, T, H> as PartialEq>⟧.eq }
    ensures connector { IsEquality P.eq → IsEquality ⟦<CnMsg<P> as PartialEq>⟧.eq }
    ensures event { IsEquality ⟦<ProcEvent as PartialEq>⟧.eq }
    ensures event_with_header { IsEquality ⟦<ProcEventHeader as PartialEq>⟧.eq }
{
    neli_consts_system::laws::equality();
}

/// A family without a header of its own has no bytes there: nothing is written or read, without memory.
pub fn no_user_header_has_no_bytes()
    ensures written { AreWrittenAs ⟦<NoUserHeader as ToBytes>⟧.wire
        ⟦<NoUserHeader as Size>⟧.unpadded_length (λ v. []) }
    ensures read { AreSame ⟦<NoUserHeader as FromBytes>⟧.read (λ s. Ok (tt, s)) }
    ensures memory { OnlyWhere ⟦<NoUserHeader as FromBytes>⟧.takes_memory (λ s. ⊥) }
    ensures width { ⟦<NoUserHeader as TypeSize>⟧.width ≡ 0 }
{}

/// The attributes of a message of generic netlink begin after four bytes and the family's own header. It is written and
/// read in this form; a read takes memory if there are attributes or that header's read does, a copy if there are
/// attributes.
pub fn genlmsghdr_is_its_fields<C: Cmd, T: NlAttrType, H: TypeSize + Copy>()
    ensures header { ⟦<Genlmsghdr<C, T, H> as Header>⟧.header ≡ min (4 + H.width) usize.MAX }
    ensures written { AreSame ⟦<Genlmsghdr<C, T, H> as ToBytes>⟧.wire
        (genlmsghdr_wire C.wire_number T.wire_number H.ToBytes.wire) }
    ensures size { AreSame ⟦<Genlmsghdr<C, T, H> as Size>⟧.unpadded_length
        (genlmsghdr_size H.Size.wire_length) }
    ensures read { AreSame ⟦<Genlmsghdr<C, T, H> as FromBytesWithInput>⟧.read
        (genlmsghdr_of H.width C.wire_value T.wire_value H.FromBytes.read) }
    ensures memory { OnlyWhere ⟦<Genlmsghdr<C, T, H> as FromBytesWithInput>⟧.takes_memory
        (genlmsghdr_takes_memory H.width H.FromBytes.read H.FromBytes.takes_memory) }
    ensures copy { OnlyWhere ⟦<Genlmsghdr<C, T, H> as TryClone>⟧.copy_takes_memory
        (λ m. 0 < length m.attrs) }
{}

/// The payload of a connector message begins after 20 bytes. It is written and read in this form; reads and copies take
/// memory where those of the payload do.
pub fn cn_msg_is_its_fields<W: ToBytes, R: FromBytesWithInput, P: TryClone>()
    ensures header { ⟦<CnMsg<W> as Header>⟧.header ≡ 20 }
    ensures written { AreSame ⟦<CnMsg<W> as ToBytes>⟧.wire
        (λ m. body_wire (cn_msg_bytes m.header) (W.wire m.payload)) }
    ensures size { AreSame ⟦<CnMsg<W> as Size>⟧.unpadded_length (λ m. 20 + W.Size.wire_length m.payload) }
    ensures read { AreSame ⟦<CnMsg<R> as FromBytesWithInput>⟧.read (body_of 20 cn_msg_header R.read) }
    ensures memory { OnlyWhere ⟦<CnMsg<R> as FromBytesWithInput>⟧.takes_memory
        (body_takes_memory 20 R.takes_memory) }
    ensures copy { OnlyWhere ⟦<CnMsg<P> as TryClone>⟧.copy_takes_memory
        (λ m. P.copy_takes_memory m.payload) }
{}

/// A process event is written and read by its fields. A copy takes no memory.
pub fn proc_event_is_its_fields()
    ensures written { AreSame ⟦<ProcEventHeader as ToBytes>⟧.wire (λ h. Ok (proc_event_bytes h)) }
    ensures size { AreSame ⟦<ProcEventHeader as Size>⟧.unpadded_length proc_event_size }
    ensures read { AreSame ⟦<ProcEventHeader as FromBytesWithInput>⟧.read proc_event_of }
    ensures memory { OnlyWhere ⟦<ProcEventHeader as FromBytesWithInput>⟧.takes_memory
        proc_event_takes_memory }
    ensures copy { OnlyWhere ⟦<ProcEventHeader as TryClone>⟧.copy_takes_memory (λ h. ⊥) }
{}
