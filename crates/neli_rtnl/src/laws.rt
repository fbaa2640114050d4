//! Laws over the definitions alone: what is written of a body is read again as its equal, and where two bodies are
//! equal. The functions do nothing: their contracts are the laws.

ghost use Rattle.std.specs.Prelude.{◌≡◌, ◌+◌, ◌<◌, List, Ok, ℕ, length};
ghost use Rattle.neli_wire.specs.Constants.{IsEquality};
ghost use Rattle.neli_wire.specs.Numbers.{AreBytes};
ghost use Rattle.neli_wire.specs.laws.Values.{AreReadAs, AreSame, OnlyWhere};
ghost use Rattle.neli_body.specs.Attributes.{attrs_of, attrs_size, attrs_wire};
ghost use Rattle.neli_body.specs.Bodies.{body_of, body_takes_memory, body_wire};
ghost use Rattle.neli_body.specs.RoundTrips.{ArePlainAttrs, ReadsBack, ReadsBackWhole};
ghost use Rattle.neli_consts_attrs.specs.Frattr.{frattr_number, frattr_of};
ghost use Rattle.neli_consts_attrs.specs.Ifa.{ifa_number, ifa_of};
ghost use Rattle.neli_consts_attrs.specs.Ifla.{ifla_number, ifla_of};
ghost use Rattle.neli_consts_attrs.specs.Nda.{nda_number, nda_of};
ghost use Rattle.neli_consts_attrs.specs.Rta.{rta_number, rta_of};
ghost use Rattle.neli_consts_attrs.specs.Tca.{tca_number, tca_of};
ghost use Rattle.neli_rtnl.specs.declared.ifla_vlan_flags.IflaVlanFlags.{IflaVlanFlags};
ghost use Rattle.neli_rtnl.specs.declared.ifla_vlan_qos_mapping.IflaVlanQosMapping.{IflaVlanQosMapping};
ghost use Rattle.neli_rtnl.specs.declared.nda_cacheinfo.NdaCacheinfo.{NdaCacheinfo};
ghost use Rattle.neli_rtnl.specs.Fibmsg.{IsPlainFibmsg, Fibmsg, fibmsg_bytes, fibmsg_header};
ghost use Rattle.neli_rtnl.specs.Ifaddrmsg.{IsPlainIfaddrmsg, Ifaddrmsg, ifaddrmsg_bytes, ifaddrmsg_header};
ghost use Rattle.neli_rtnl.specs.Ifinfomsg.{IsPlainIfinfomsg, Ifinfomsg, ifinfomsg_bytes, ifinfomsg_header};
ghost use Rattle.neli_rtnl.specs.IflaVlanFlags.{IsPlainIflaVlanFlags, ifla_vlan_flags_bytes, ifla_vlan_flags_header};
ghost use Rattle.neli_rtnl.specs.IflaVlanQosMapping.{IsPlainIflaVlanQosMapping, ifla_vlan_qos_mapping_bytes, ifla_vlan_qos_mapping_header};
ghost use Rattle.neli_rtnl.specs.NdaCacheinfo.{IsPlainNdaCacheinfo, nda_cacheinfo_bytes, nda_cacheinfo_header};
ghost use Rattle.neli_rtnl.specs.Ndmsg.{IsPlainNdmsg, Ndmsg, ndmsg_bytes, ndmsg_header};
ghost use Rattle.neli_rtnl.specs.Rtgenmsg.{IsPlainRtgenmsg, Rtgenmsg, rtgenmsg_bytes, rtgenmsg_header};
ghost use Rattle.neli_rtnl.specs.Rtmsg.{IsPlainRtmsg, Rtmsg, rtmsg_bytes, rtmsg_header};
ghost use Rattle.neli_rtnl.specs.Tcmsg.{IsPlainTcmsg, Tcmsg, tcmsg_bytes, tcmsg_header};

use crate::body::{Body, Fields};
use crate::fibmsg::FibmsgHeader;
use crate::ifaddrmsg::IfaddrmsgHeader;
use crate::ifinfomsg::IfinfomsgHeader;
use crate::ndmsg::NdmsgHeader;
use crate::rtgenmsg::RtgenmsgHeader;
use crate::rtmsg::RtmsgHeader;
use crate::tcmsg::TcmsgHeader;
use neli_attr::{Buffer, RtBuffer, TryClone};
use neli_body::laws::{attributes_are_read_back, body_is_read_back};
use neli_consts_attrs::{Frattr, Ifa, Ifla, Nda, Rta, RtaType, Tca};
use neli_wire::{FromBytes, FromBytesWithInput, Header, Size, ToBytes};

/// A route's wire bytes are read as its fields, and the attributes' bytes as they are read alone, if each field is read
/// from its number. Bytes that are read as the fields are written back as the same bytes. If also each attribute's
/// length is that of its header and payload, and its type is read from its number, the whole is read back.
pub fn rtmsg_is_read_back()
    ensures back { (m : Rtmsg) → IsPlainRtmsg m.header
        → ReadsBack 12 rtmsg_bytes rtmsg_header (attrs_of rta_of) m.header
        (attrs_wire rta_number m.rtattrs) }
    ensures whole { (m : Rtmsg) → IsPlainRtmsg m.header
        → ArePlainAttrs rta_number rta_of m.rtattrs
        → ReadsBackWhole 12 rtmsg_bytes rtmsg_header rta_number rta_of
        m.header m.rtattrs }
    ensures bytes { (s : List ℕ) → length s ≡ 12 → AreBytes s → rtmsg_bytes (rtmsg_header s) ≡ s }
{
    body_is_read_back::<RtmsgHeader, RtBuffer<Rta, Buffer>>();
    attributes_are_read_back::<RtmsgHeader, Rta>();
}

/// A queueing discipline's wire bytes are read as its fields, and the attributes' bytes as they are read alone, if each
/// field is read from its number. Bytes that are read as the fields are written back as the same bytes. If also each
/// attribute's length is that of its header and payload, and its type is read from its number, the whole is read back.
pub fn tcmsg_is_read_back()
    ensures back { (m : Tcmsg) → IsPlainTcmsg m.header
        → ReadsBack 20 tcmsg_bytes tcmsg_header (attrs_of tca_of) m.header
        (attrs_wire tca_number m.rtattrs) }
    ensures whole { (m : Tcmsg) → IsPlainTcmsg m.header
        → ArePlainAttrs tca_number tca_of m.rtattrs
        → ReadsBackWhole 20 tcmsg_bytes tcmsg_header tca_number tca_of
        m.header m.rtattrs }
    ensures bytes { (s : List ℕ) → length s ≡ 20 → AreBytes s → tcmsg_bytes (tcmsg_header s) ≡ s }
{
    body_is_read_back::<TcmsgHeader, RtBuffer<Tca, Buffer>>();
    attributes_are_read_back::<TcmsgHeader, Tca>();
}

/// A rule's wire bytes are read as its fields, and the attributes' bytes as they are read alone, if each field is read
/// from its number. Bytes that are read as the fields are written back as the same bytes. If also each attribute's
/// length is that of its header and payload, and its type is read from its number, the whole is read back.
pub fn fibmsg_is_read_back()
    ensures back { (m : Fibmsg) → IsPlainFibmsg m.header
        → ReadsBack 12 fibmsg_bytes fibmsg_header (attrs_of frattr_of) m.header
        (attrs_wire frattr_number m.rtattrs) }
    ensures whole { (m : Fibmsg) → IsPlainFibmsg m.header
        → ArePlainAttrs frattr_number frattr_of m.rtattrs
        → ReadsBackWhole 12 fibmsg_bytes fibmsg_header frattr_number frattr_of
        m.header m.rtattrs }
    ensures bytes { (s : List ℕ) → length s ≡ 12 → AreBytes s → fibmsg_bytes (fibmsg_header s) ≡ s }
{
    body_is_read_back::<FibmsgHeader, RtBuffer<Frattr, Buffer>>();
    attributes_are_read_back::<FibmsgHeader, Frattr>();
}

/// The wire bytes of a request by family are read as its fields, and the attributes' bytes as they are read alone, if
/// each field is read from its number. Bytes that are read as the fields are written back as the same bytes. If also
/// each attribute's length is that of its header and payload, and its type is read from its number, the whole is read
/// back.
pub fn rtgenmsg_is_read_back()
    ensures back { (m : Rtgenmsg) → IsPlainRtgenmsg m.header
        → ReadsBack 4 rtgenmsg_bytes rtgenmsg_header (attrs_of ifa_of) m.header
        (attrs_wire ifa_number m.rtattrs) }
    ensures whole { (m : Rtgenmsg) → IsPlainRtgenmsg m.header
        → ArePlainAttrs ifa_number ifa_of m.rtattrs
        → ReadsBackWhole 4 rtgenmsg_bytes rtgenmsg_header ifa_number ifa_of
        m.header m.rtattrs }
    ensures bytes { (s : List ℕ) → length s ≡ 4 → AreBytes s
        → rtgenmsg_bytes (rtgenmsg_header s) ≡ s }
{
    body_is_read_back::<RtgenmsgHeader, RtBuffer<Ifa, Buffer>>();
    attributes_are_read_back::<RtgenmsgHeader, Ifa>();
}

/// A link's wire bytes are read as its fields, and the attributes' bytes as they are read alone, if each field is read
/// from its number. Bytes that are read as the fields are written back as the same bytes. If also each attribute's
/// length is that of its header and payload, and its type is read from its number, the whole is read back.
pub fn ifinfomsg_is_read_back()
    ensures back { (m : Ifinfomsg) → IsPlainIfinfomsg m.header
        → ReadsBack 16 ifinfomsg_bytes ifinfomsg_header (attrs_of ifla_of) m.header
        (attrs_wire ifla_number m.rtattrs) }
    ensures whole { (m : Ifinfomsg) → IsPlainIfinfomsg m.header
        → ArePlainAttrs ifla_number ifla_of m.rtattrs
        → ReadsBackWhole 16 ifinfomsg_bytes ifinfomsg_header ifla_number ifla_of
        m.header m.rtattrs }
    ensures bytes { (s : List ℕ) → length s ≡ 16 → AreBytes s
        → ifinfomsg_bytes (ifinfomsg_header s) ≡ s }
{
    body_is_read_back::<IfinfomsgHeader, RtBuffer<Ifla, Buffer>>();
    attributes_are_read_back::<IfinfomsgHeader, Ifla>();
}

/// An address's wire bytes are read as its fields, and the attributes' bytes as they are read alone, if each field is
/// read from its number. Bytes that are read as the fields are written back as the same bytes. If also each attribute's
/// length is that of its header and payload, and its type is read from its number, the whole is read back.
pub fn ifaddrmsg_is_read_back()
    ensures back { (m : Ifaddrmsg) → IsPlainIfaddrmsg m.header
        → ReadsBack 8 ifaddrmsg_bytes ifaddrmsg_header (attrs_of ifa_of) m.header
        (attrs_wire ifa_number m.rtattrs) }
    ensures whole { (m : Ifaddrmsg) → IsPlainIfaddrmsg m.header
        → ArePlainAttrs ifa_number ifa_of m.rtattrs
        → ReadsBackWhole 8 ifaddrmsg_bytes ifaddrmsg_header ifa_number ifa_of
        m.header m.rtattrs }
    ensures bytes { (s : List ℕ) → length s ≡ 8 → AreBytes s
        → ifaddrmsg_bytes (ifaddrmsg_header s) ≡ s }
{
    body_is_read_back::<IfaddrmsgHeader, RtBuffer<Ifa, Buffer>>();
    attributes_are_read_back::<IfaddrmsgHeader, Ifa>();
}

/// A neighbour's wire bytes are read as its fields, and the attributes' bytes as they are read alone, if each field is
/// read from its number. Bytes that are read as the fields are written back as the same bytes. If also each attribute's
/// length is that of its header and payload, and its type is read from its number, the whole is read back.
pub fn ndmsg_is_read_back()
    ensures back { (m : Ndmsg) → IsPlainNdmsg m.header
        → ReadsBack 12 ndmsg_bytes ndmsg_header (attrs_of nda_of) m.header
        (attrs_wire nda_number m.rtattrs) }
    ensures whole { (m : Ndmsg) → IsPlainNdmsg m.header
        → ArePlainAttrs nda_number nda_of m.rtattrs
        → ReadsBackWhole 12 ndmsg_bytes ndmsg_header nda_number nda_of
        m.header m.rtattrs }
    ensures bytes { (s : List ℕ) → length s ≡ 12 → AreBytes s → ndmsg_bytes (ndmsg_header s) ≡ s }
{
    body_is_read_back::<NdmsgHeader, RtBuffer<Nda, Buffer>>();
    attributes_are_read_back::<NdmsgHeader, Nda>();
}

/// A neighbour's cache entry is read back, if each field is read from its number. Bytes that are read as one are
/// written back as the same bytes.
pub fn nda_cacheinfo_is_read_back()
    ensures back { (v : NdaCacheinfo) → IsPlainNdaCacheinfo v
        → nda_cacheinfo_header (nda_cacheinfo_bytes v) ≡ v }
    ensures bytes { (s : List ℕ) → length s ≡ 16 → AreBytes s
        → nda_cacheinfo_bytes (nda_cacheinfo_header s) ≡ s }
{}

/// A virtual LAN's pair of flags is read back, if each field is read from its number. Bytes that are read as one are
/// written back as the same bytes.
pub fn ifla_vlan_flags_is_read_back()
    ensures back { (v : IflaVlanFlags) → IsPlainIflaVlanFlags v
        → ifla_vlan_flags_header (ifla_vlan_flags_bytes v) ≡ v }
    ensures bytes { (s : List ℕ) → length s ≡ 2 → AreBytes s
        → ifla_vlan_flags_bytes (ifla_vlan_flags_header s) ≡ s }
{}

/// A mapping of priorities is read back, if each field is read from its number. Bytes that are read as one are written
/// back as the same bytes.
pub fn ifla_vlan_qos_mapping_is_read_back()
    ensures back { (v : IflaVlanQosMapping) → IsPlainIflaVlanQosMapping v
        → ifla_vlan_qos_mapping_header (ifla_vlan_qos_mapping_bytes v) ≡ v }
    ensures bytes { (s : List ℕ) → length s ≡ 8 → AreBytes s
        → ifla_vlan_qos_mapping_bytes (ifla_vlan_qos_mapping_header s) ≡ s }
{}

/// `==` of routes, queueing disciplines, rules and requests by family is true exactly where the two values are equal,
/// field by field.
pub fn equality_of_routes()
    ensures rtmsg { IsEquality ⟦<crate::Rtmsg as PartialEq>⟧.eq }
    ensures tcmsg { IsEquality ⟦<crate::Tcmsg as PartialEq>⟧.eq }
    ensures fibmsg { IsEquality ⟦<crate::Fibmsg as PartialEq>⟧.eq }
    ensures rtgenmsg { IsEquality ⟦<crate::Rtgenmsg as PartialEq>⟧.eq }
{
    neli_consts_routing::laws::equality();
    neli_consts_attrs::laws::equality();
    neli_consts_flags::laws::equality();
}

/// `==` of links, addresses and neighbours, and of the values that their attributes carry, is true exactly where the
/// two values are equal, field by field.
pub fn equality_of_links()
    ensures ifinfomsg { IsEquality ⟦<crate::Ifinfomsg as PartialEq>⟧.eq }
    ensures ifaddrmsg { IsEquality ⟦<crate::Ifaddrmsg as PartialEq>⟧.eq }
    ensures ndmsg { IsEquality ⟦<crate::Ndmsg as PartialEq>⟧.eq }
    ensures nda_cacheinfo { IsEquality ⟦<crate::NdaCacheinfo as PartialEq>⟧.eq }
    ensures ifla_vlan_flags { IsEquality ⟦<crate::IflaVlanFlags as PartialEq>⟧.eq }
    ensures ifla_vlan_qos_mapping { IsEquality ⟦<crate::IflaVlanQosMapping as PartialEq>⟧.eq }
{
    neli_consts_routing::laws::equality();
    neli_consts_attrs::laws::equality();
    neli_consts_flags::laws::equality();
}

/// The attributes of a body begin after this many bytes of its fields.
pub fn attributes_begin_after_the_fields()
    ensures rtmsg { ⟦<crate::Rtmsg as Header>⟧.header ≡ 12 }
    ensures tcmsg { ⟦<crate::Tcmsg as Header>⟧.header ≡ 20 }
    ensures fibmsg { ⟦<crate::Fibmsg as Header>⟧.header ≡ 12 }
    ensures rtgenmsg { ⟦<crate::Rtgenmsg as Header>⟧.header ≡ 4 }
    ensures ifinfomsg { ⟦<crate::Ifinfomsg as Header>⟧.header ≡ 16 }
    ensures ifaddrmsg { ⟦<crate::Ifaddrmsg as Header>⟧.header ≡ 8 }
    ensures ndmsg { ⟦<crate::Ndmsg as Header>⟧.header ≡ 12 }
{}

/// A body is written as the bytes of its fields and those of its attributes.
pub fn bodies_are_written()
    ensures rtmsg { AreSame ⟦<crate::Rtmsg as ToBytes>⟧.wire
        (λ m. body_wire (rtmsg_bytes m.header) (attrs_wire rta_number m.rtattrs)) }
    ensures tcmsg { AreSame ⟦<crate::Tcmsg as ToBytes>⟧.wire
        (λ m. body_wire (tcmsg_bytes m.header) (attrs_wire tca_number m.rtattrs)) }
    ensures fibmsg { AreSame ⟦<crate::Fibmsg as ToBytes>⟧.wire
        (λ m. body_wire (fibmsg_bytes m.header) (attrs_wire frattr_number m.rtattrs)) }
    ensures rtgenmsg { AreSame ⟦<crate::Rtgenmsg as ToBytes>⟧.wire
        (λ m. body_wire (rtgenmsg_bytes m.header) (attrs_wire ifa_number m.rtattrs)) }
    ensures ifinfomsg { AreSame ⟦<crate::Ifinfomsg as ToBytes>⟧.wire
        (λ m. body_wire (ifinfomsg_bytes m.header) (attrs_wire ifla_number m.rtattrs)) }
    ensures ifaddrmsg { AreSame ⟦<crate::Ifaddrmsg as ToBytes>⟧.wire
        (λ m. body_wire (ifaddrmsg_bytes m.header) (attrs_wire ifa_number m.rtattrs)) }
    ensures ndmsg { AreSame ⟦<crate::Ndmsg as ToBytes>⟧.wire
        (λ m. body_wire (ndmsg_bytes m.header) (attrs_wire nda_number m.rtattrs)) }
{}

/// A body is read as its fields and as the bytes after them are read.
pub fn bodies_are_read()
    ensures rtmsg { AreSame ⟦<crate::Rtmsg as FromBytesWithInput>⟧.read
        (body_of 12 rtmsg_header (attrs_of rta_of)) }
    ensures tcmsg { AreSame ⟦<crate::Tcmsg as FromBytesWithInput>⟧.read
        (body_of 20 tcmsg_header (attrs_of tca_of)) }
    ensures fibmsg { AreSame ⟦<crate::Fibmsg as FromBytesWithInput>⟧.read
        (body_of 12 fibmsg_header (attrs_of frattr_of)) }
    ensures rtgenmsg { AreSame ⟦<crate::Rtgenmsg as FromBytesWithInput>⟧.read
        (body_of 4 rtgenmsg_header (attrs_of ifa_of)) }
    ensures ifinfomsg { AreSame ⟦<crate::Ifinfomsg as FromBytesWithInput>⟧.read
        (body_of 16 ifinfomsg_header (attrs_of ifla_of)) }
    ensures ifaddrmsg { AreSame ⟦<crate::Ifaddrmsg as FromBytesWithInput>⟧.read
        (body_of 8 ifaddrmsg_header (attrs_of ifa_of)) }
    ensures ndmsg { AreSame ⟦<crate::Ndmsg as FromBytesWithInput>⟧.read
        (body_of 12 ndmsg_header (attrs_of nda_of)) }
{}

/// A read of a body takes memory only where a byte follows its fields, and a copy only where it has attributes.
pub fn bodies_take_memory_for_attributes<H: Fields, A: RtaType>()
    ensures size { AreSame ⟦<Body<H, A> as Size>⟧.unpadded_length (λ m. H.width + attrs_size m.rtattrs) }
    ensures read { OnlyWhere ⟦<Body<H, A> as FromBytesWithInput>⟧.takes_memory
        (body_takes_memory H.width (λ s. 0 < length s)) }
    ensures copy { OnlyWhere ⟦<Body<H, A> as TryClone>⟧.copy_takes_memory (λ m. 0 < length m.rtattrs) }
{}

/// A neighbour's cache entry, a virtual LAN's pair of flags and a mapping of priorities are written and read as their
/// fields. Neither a read nor a copy takes memory.
pub fn payloads_are_their_fields()
    ensures nda_cacheinfo_written { AreSame ⟦<crate::NdaCacheinfo as ToBytes>⟧.wire
        (λ v. Ok (nda_cacheinfo_bytes v)) }
    ensures nda_cacheinfo_read { AreReadAs ⟦<crate::NdaCacheinfo as FromBytes>⟧.read
        ⟦<crate::NdaCacheinfo as FromBytes>⟧.takes_memory 16 nda_cacheinfo_header }
    ensures nda_cacheinfo_copy { OnlyWhere ⟦<crate::NdaCacheinfo as TryClone>⟧.copy_takes_memory
        (λ v. ⊥) }
    ensures ifla_vlan_flags_written { AreSame ⟦<crate::IflaVlanFlags as ToBytes>⟧.wire
        (λ v. Ok (ifla_vlan_flags_bytes v)) }
    ensures ifla_vlan_flags_read { AreReadAs ⟦<crate::IflaVlanFlags as FromBytes>⟧.read
        ⟦<crate::IflaVlanFlags as FromBytes>⟧.takes_memory 2 ifla_vlan_flags_header }
    ensures ifla_vlan_flags_copy { OnlyWhere ⟦<crate::IflaVlanFlags as TryClone>⟧.copy_takes_memory
        (λ v. ⊥) }
    ensures ifla_vlan_qos_mapping_written { AreSame ⟦<crate::IflaVlanQosMapping as ToBytes>⟧.wire
        (λ v. Ok (ifla_vlan_qos_mapping_bytes v)) }
    ensures ifla_vlan_qos_mapping_read { AreReadAs ⟦<crate::IflaVlanQosMapping as FromBytes>⟧.read
        ⟦<crate::IflaVlanQosMapping as FromBytes>⟧.takes_memory 8 ifla_vlan_qos_mapping_header }
    ensures ifla_vlan_qos_mapping_copy { OnlyWhere
        ⟦<crate::IflaVlanQosMapping as TryClone>⟧.copy_takes_memory (λ v. ⊥) }
{}
