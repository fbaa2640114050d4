//! Laws over the definitions alone: what is written is read again as its equal, what each type is written and read as,
//! and where two values are equal. The functions do nothing: their contracts are the laws.

ghost use Rattle.std.specs.Prelude.{◌≡◌, ◌+◌, ◌<◌, List, Ok, Some, ℕ, length};
ghost use Rattle.neli_wire.specs.Constants.{IsEquality};
ghost use Rattle.neli_wire.specs.Numbers.{AreBytes};
ghost use Rattle.neli_wire.specs.laws.Values.{AreReadAs, AreSame, OnlyWhere};
ghost use Rattle.neli_body.specs.Attributes.{attrs_of, attrs_size, attrs_wire};
ghost use Rattle.neli_body.specs.Bodies.{body_of, body_takes_memory, body_wire};
ghost use Rattle.neli_body.specs.RoundTrips.{ArePlainAttrs, ReadsBack, ReadsBackWhole};
ghost use Rattle.neli_consts_linux.specs.IflaStats.{ifla_stats_number, ifla_stats_of};
ghost use Rattle.neli_consts_linux.specs.Mdba.{mdba_number, mdba_of};
ghost use Rattle.neli_consts_linux.specs.Ndta.{ndta_number, ndta_of};
ghost use Rattle.neli_consts_linux.specs.Nha.{nha_number, nha_of};
ghost use Rattle.neli_rtnl_linux.specs.declared.gnet_stats_basic.GnetStatsBasic.{GnetStatsBasic};
ghost use Rattle.neli_rtnl_linux.specs.declared.gnet_stats_queue.GnetStatsQueue.{GnetStatsQueue};
ghost use Rattle.neli_rtnl_linux.specs.BrPortMsg.{IsPlainBrPortMsg, BrPortMsg, br_port_msg_bytes, br_port_msg_header};
ghost use Rattle.neli_rtnl_linux.specs.IfStatsMsg.{IsPlainIfStatsMsg, IfStatsMsg};
ghost use Rattle.neli_rtnl_linux.specs.IfStatsMsg.{if_stats_msg_bytes, if_stats_msg_header};
ghost use Rattle.neli_rtnl_linux.specs.Ndtmsg.{IsPlainNdtmsg, Ndtmsg, ndtmsg_bytes, ndtmsg_header};
ghost use Rattle.neli_rtnl_linux.specs.Nhmsg.{IsPlainNhmsg, Nhmsg, nhmsg_bytes, nhmsg_header};
ghost use Rattle.neli_rtnl_linux.specs.GnetStatsBasic.{IsPlainGnetStatsBasic, gnet_stats_basic_bytes};
ghost use Rattle.neli_rtnl_linux.specs.GnetStatsBasic.{gnet_stats_basic_header};
ghost use Rattle.neli_rtnl_linux.specs.GnetStatsQueue.{IsPlainGnetStatsQueue, gnet_stats_queue_bytes};
ghost use Rattle.neli_rtnl_linux.specs.GnetStatsQueue.{gnet_stats_queue_header};
ghost use Rattle.neli_rtnl_linux.specs.TcHandle.{handle_text};

use crate::br_port_msg::BrPortMsgHeader;
use crate::if_stats_msg::IfStatsMsgHeader;
use crate::ndtmsg::NdtmsgHeader;
use crate::nhmsg::NhmsgHeader;
use neli_attr::{Buffer, RtBuffer, TryClone};
use neli_body::FixedHeader;
use neli_body::laws::{attributes_are_read_back, body_is_read_back};
use neli_consts_attrs::RtaType;
use neli_consts_linux::{IflaStats, Mdba, Ndta, Nha};
use neli_wire::{Constant, FromBytes, FromBytesWithInput, Header, Size, ToBytes};
use std::fmt;

/// A next hop is read back from its wire bytes, if each field is read from its number; with its attributes, if each
/// one's length is that of its header and payload, and its type is read from its number. Bytes that are read as the
/// fields are written back as the same bytes.
pub fn nhmsg_is_read_back()
    ensures back { (m : Nhmsg) → IsPlainNhmsg m.header
        → ReadsBack 8 nhmsg_bytes nhmsg_header (attrs_of nha_of) m.header
        (attrs_wire nha_number m.rtattrs) }
    ensures whole { (m : Nhmsg) → IsPlainNhmsg m.header
        → ArePlainAttrs nha_number nha_of m.rtattrs
        → ReadsBackWhole 8 nhmsg_bytes nhmsg_header nha_number nha_of
        m.header m.rtattrs }
    ensures bytes { (s : List ℕ) → length s ≡ 8 → AreBytes s
        → nhmsg_bytes (nhmsg_header s) ≡ s }
{
    body_is_read_back::<NhmsgHeader, RtBuffer<Nha, Buffer>>();
    attributes_are_read_back::<NhmsgHeader, Nha>();
}

/// A bridge's groups are read back from their wire bytes, if each field is read from its number; with their
/// attributes, if each one's length is that of its header and payload, and its type is read from its number. Bytes
/// that are read as the fields are written back as the same bytes.
pub fn br_port_msg_is_read_back()
    ensures back { (m : BrPortMsg) → IsPlainBrPortMsg m.header
        → ReadsBack 8 br_port_msg_bytes br_port_msg_header (attrs_of mdba_of) m.header
        (attrs_wire mdba_number m.rtattrs) }
    ensures whole { (m : BrPortMsg) → IsPlainBrPortMsg m.header
        → ArePlainAttrs mdba_number mdba_of m.rtattrs
        → ReadsBackWhole 8 br_port_msg_bytes br_port_msg_header mdba_number mdba_of
        m.header m.rtattrs }
    ensures bytes { (s : List ℕ) → length s ≡ 8 → AreBytes s
        → br_port_msg_bytes (br_port_msg_header s) ≡ s }
{
    body_is_read_back::<BrPortMsgHeader, RtBuffer<Mdba, Buffer>>();
    attributes_are_read_back::<BrPortMsgHeader, Mdba>();
}

/// A link's statistics are read back from their wire bytes, if each field is read from its number; with their
/// attributes, if each one's length is that of its header and payload, and its type is read from its number. Bytes
/// that are read as the fields are written back as the same bytes.
pub fn if_stats_msg_is_read_back()
    ensures back { (m : IfStatsMsg) → IsPlainIfStatsMsg m.header
        → ReadsBack 12 if_stats_msg_bytes if_stats_msg_header (attrs_of ifla_stats_of) m.header
        (attrs_wire ifla_stats_number m.rtattrs) }
    ensures whole { (m : IfStatsMsg) → IsPlainIfStatsMsg m.header
        → ArePlainAttrs ifla_stats_number ifla_stats_of m.rtattrs
        → ReadsBackWhole 12 if_stats_msg_bytes if_stats_msg_header ifla_stats_number ifla_stats_of
        m.header m.rtattrs }
    ensures bytes { (s : List ℕ) → length s ≡ 12 → AreBytes s
        → if_stats_msg_bytes (if_stats_msg_header s) ≡ s }
{
    body_is_read_back::<IfStatsMsgHeader, RtBuffer<IflaStats, Buffer>>();
    attributes_are_read_back::<IfStatsMsgHeader, IflaStats>();
}

/// A neighbour table is read back from its wire bytes, if each field is read from its number; with its attributes, if
/// each one's length is that of its header and payload, and its type is read from its number. Bytes that are read as
/// the fields are written back as the same bytes.
pub fn ndtmsg_is_read_back()
    ensures back { (m : Ndtmsg) → IsPlainNdtmsg m.header
        → ReadsBack 4 ndtmsg_bytes ndtmsg_header (attrs_of ndta_of) m.header
        (attrs_wire ndta_number m.rtattrs) }
    ensures whole { (m : Ndtmsg) → IsPlainNdtmsg m.header
        → ArePlainAttrs ndta_number ndta_of m.rtattrs
        → ReadsBackWhole 4 ndtmsg_bytes ndtmsg_header ndta_number ndta_of
        m.header m.rtattrs }
    ensures bytes { (s : List ℕ) → length s ≡ 4 → AreBytes s
        → ndtmsg_bytes (ndtmsg_header s) ≡ s }
{
    body_is_read_back::<NdtmsgHeader, RtBuffer<Ndta, Buffer>>();
    attributes_are_read_back::<NdtmsgHeader, Ndta>();
}

/// Counters of queues are read back, if each field has a number of its size. Bytes that are read as them are written
/// back as the same bytes.
pub fn counters_are_read_back()
    ensures basic_back { (v : GnetStatsBasic) → IsPlainGnetStatsBasic v
        → gnet_stats_basic_header (gnet_stats_basic_bytes v) ≡ v }
    ensures basic_bytes { (s : List ℕ) → length s ≡ 16 → AreBytes s
        → gnet_stats_basic_bytes (gnet_stats_basic_header s) ≡ s }
    ensures queue_back { (v : GnetStatsQueue) → IsPlainGnetStatsQueue v
        → gnet_stats_queue_header (gnet_stats_queue_bytes v) ≡ v }
    ensures queue_bytes { (s : List ℕ) → length s ≡ 20 → AreBytes s
        → gnet_stats_queue_bytes (gnet_stats_queue_header s) ≡ s }
{}

/// `==` is true exactly where the two values are equal, field by field.
pub fn equality()
    ensures nhmsg { IsEquality ⟦<crate::Nhmsg as PartialEq>⟧.eq }
    ensures br_port_msg { IsEquality ⟦<crate::BrPortMsg as PartialEq>⟧.eq }
    ensures if_stats_msg { IsEquality ⟦<crate::IfStatsMsg as PartialEq>⟧.eq }
    ensures ndtmsg { IsEquality ⟦<crate::Ndtmsg as PartialEq>⟧.eq }
    ensures gnet_stats_basic { IsEquality ⟦<crate::GnetStatsBasic as PartialEq>⟧.eq }
    ensures gnet_stats_queue { IsEquality ⟦<crate::GnetStatsQueue as PartialEq>⟧.eq }
    ensures tc_handle { IsEquality ⟦<crate::TcHandle as PartialEq>⟧.eq }
{
    neli_consts_routing::laws::equality();
    neli_consts_linux::laws::equality();
}

/// The attributes of a body begin after this many bytes of its fields.
pub fn attributes_begin_after_the_fields()
    ensures nhmsg { ⟦<crate::Nhmsg as Header>⟧.header ≡ 8 }
    ensures br_port_msg { ⟦<crate::BrPortMsg as Header>⟧.header ≡ 8 }
    ensures if_stats_msg { ⟦<crate::IfStatsMsg as Header>⟧.header ≡ 12 }
    ensures ndtmsg { ⟦<crate::Ndtmsg as Header>⟧.header ≡ 4 }
{}

/// A body is written as the bytes of its fields and those of its attributes.
pub fn bodies_are_written()
    ensures nhmsg { AreSame ⟦<crate::Nhmsg as ToBytes>⟧.wire
        (λ m. body_wire (nhmsg_bytes m.header) (attrs_wire nha_number m.rtattrs)) }
    ensures br_port_msg { AreSame ⟦<crate::BrPortMsg as ToBytes>⟧.wire
        (λ m. body_wire (br_port_msg_bytes m.header) (attrs_wire mdba_number m.rtattrs)) }
    ensures if_stats_msg { AreSame ⟦<crate::IfStatsMsg as ToBytes>⟧.wire
        (λ m. body_wire (if_stats_msg_bytes m.header) (attrs_wire ifla_stats_number m.rtattrs)) }
    ensures ndtmsg { AreSame ⟦<crate::Ndtmsg as ToBytes>⟧.wire
        (λ m. body_wire (ndtmsg_bytes m.header) (attrs_wire ndta_number m.rtattrs)) }
{}

/// A body is read as its fields and as the bytes after them are read.
pub fn bodies_are_read()
    ensures nhmsg { AreSame ⟦<crate::Nhmsg as FromBytesWithInput>⟧.read
        (body_of 8 nhmsg_header (attrs_of nha_of)) }
    ensures br_port_msg { AreSame ⟦<crate::BrPortMsg as FromBytesWithInput>⟧.read
        (body_of 8 br_port_msg_header (attrs_of mdba_of)) }
    ensures if_stats_msg { AreSame ⟦<crate::IfStatsMsg as FromBytesWithInput>⟧.read
        (body_of 12 if_stats_msg_header (attrs_of ifla_stats_of)) }
    ensures ndtmsg { AreSame ⟦<crate::Ndtmsg as FromBytesWithInput>⟧.read
        (body_of 4 ndtmsg_header (attrs_of ndta_of)) }
{}

/// Counters of queues are written and read as their fields. A read takes no memory.
pub fn counters_are_their_fields()
    ensures basic_written { AreSame ⟦<crate::GnetStatsBasic as ToBytes>⟧.wire (λ v. Ok (gnet_stats_basic_bytes v)) }
    ensures basic_size { AreSame ⟦<crate::GnetStatsBasic as Size>⟧.unpadded_length (λ v. 16) }
    ensures basic_read { AreReadAs ⟦<crate::GnetStatsBasic as FromBytes>⟧.read
        ⟦<crate::GnetStatsBasic as FromBytes>⟧.takes_memory 16 gnet_stats_basic_header }
    ensures basic_seen { AreSame ⟦<crate::GnetStatsBasic as FromBytes>⟧.view (λ v. v) }
    ensures queue_written { AreSame ⟦<crate::GnetStatsQueue as ToBytes>⟧.wire (λ v. Ok (gnet_stats_queue_bytes v)) }
    ensures queue_size { AreSame ⟦<crate::GnetStatsQueue as Size>⟧.unpadded_length (λ v. 20) }
    ensures queue_read { AreReadAs ⟦<crate::GnetStatsQueue as FromBytes>⟧.read
        ⟦<crate::GnetStatsQueue as FromBytes>⟧.takes_memory 20 gnet_stats_queue_header }
    ensures queue_seen { AreSame ⟦<crate::GnetStatsQueue as FromBytes>⟧.view (λ v. v) }
{}

/// A handle is one number on the wire, and prints as `tc` prints it.
pub fn handle_is_its_number_and_its_text()
    ensures number { AreSame ⟦<crate::TcHandle as Constant>⟧.wire_number (λ handle. handle.0) }
    ensures value { AreSame ⟦<crate::TcHandle as Constant>⟧.wire_value (λ n. record { 0 = n }) }
    ensures printed { AreSame ⟦<crate::TcHandle as fmt::Display>⟧.output
        (λ handle. Some (handle_text handle.0)) }
{}

/// A header of fixed size is plain wherever each of its fields has a number of its size, so the laws on what is written
/// and read back speak of all such headers.
pub fn headers_are_plain_by_their_fields()
    ensures nhmsg { OnlyWhere IsPlainNhmsg ⟦<NhmsgHeader as FixedHeader>⟧.IsPlain }
    ensures br_port_msg { OnlyWhere IsPlainBrPortMsg ⟦<BrPortMsgHeader as FixedHeader>⟧.IsPlain }
    ensures if_stats_msg { OnlyWhere IsPlainIfStatsMsg ⟦<IfStatsMsgHeader as FixedHeader>⟧.IsPlain }
    ensures ndtmsg { OnlyWhere IsPlainNdtmsg ⟦<NdtmsgHeader as FixedHeader>⟧.IsPlain }
    ensures gnet_stats_basic { OnlyWhere IsPlainGnetStatsBasic ⟦<crate::GnetStatsBasic as FixedHeader>⟧.IsPlain }
    ensures gnet_stats_queue { OnlyWhere IsPlainGnetStatsQueue ⟦<crate::GnetStatsQueue as FixedHeader>⟧.IsPlain }
{}
