//! Laws over the definitions: what is written of a value is read back, where two values are equal, and what payloads
//! state about themselves. The functions do nothing: their contracts are the laws.

ghost use Rattle.std.specs.Iterator.{YieldsFirstBy};
ghost use Rattle.std.specs.Prelude.{◌≡◌, ◌+◌, ◌≤◌, List, Ok, ℕ, Some, codes, length};
ghost use Rattle.std.specs.Result.{result_ok};
ghost use Rattle.neli_wire.specs.Constants.{IsEquality};
ghost use Rattle.neli_wire.specs.Numbers.{AreBytes};
ghost use Rattle.neli_wire.specs.laws.Values.{AreReadAs, AreSame, AreWrittenAs, GivesOnly, OnlyWhere};
ghost use Rattle.neli_lent.specs.Walks.{items_of, map_ok};
ghost use Rattle.neli_lent.specs.laws.Walks.{StepsOnly};
ghost use Rattle.neli_payloads.specs.declared.ifa_cacheinfo.IfaCacheinfo.{IfaCacheinfo};
ghost use Rattle.neli_payloads.specs.declared.rta_cacheinfo.RtaCacheinfo.{RtaCacheinfo};
ghost use Rattle.neli_payloads.specs.declared.vf_guid.VfGuid.{VfGuid};
ghost use Rattle.neli_payloads.specs.declared.vf_mac.VfMac.{VfMac};
ghost use Rattle.neli_payloads.specs.declared.vf_rate.VfRate.{VfRate};
ghost use Rattle.neli_payloads.specs.declared.vf_setting.VfSetting.{VfSetting};
ghost use Rattle.neli_payloads.specs.declared.vf_vlan.VfVlan.{VfVlan};
ghost use Rattle.neli_payloads.specs.declared.vf_vlan_info.VfVlanInfo.{VfVlanInfo};
ghost use Rattle.neli_payloads.specs.HardwareAddress.{hardware_address, hardware_text};
ghost use Rattle.neli_payloads.specs.HardwareText.{hardware_parsed};
ghost use Rattle.neli_payloads.specs.IfaCacheinfo.{IsPlainIfaCacheinfo, ifa_cacheinfo_bytes, ifa_cacheinfo_header};
ghost use Rattle.neli_payloads.specs.LinkStats64.{link_stats64_of};
ghost use Rattle.neli_payloads.specs.NextHops.{next_hop_view, next_hops_at};
ghost use Rattle.neli_payloads.specs.RtaCacheinfo.{IsPlainRtaCacheinfo, rta_cacheinfo_bytes, rta_cacheinfo_header};
ghost use Rattle.neli_payloads.specs.VfGuid.{IsPlainVfGuid, vf_guid_bytes, vf_guid_header};
ghost use Rattle.neli_payloads.specs.VfMac.{IsPlainVfMac, vf_mac_bytes, vf_mac_header};
ghost use Rattle.neli_payloads.specs.VfRate.{IsPlainVfRate, vf_rate_bytes, vf_rate_header};
ghost use Rattle.neli_payloads.specs.VfSetting.{IsPlainVfSetting, vf_setting_bytes, vf_setting_header};
ghost use Rattle.neli_payloads.specs.VfVlan.{IsPlainVfVlan, vf_vlan_bytes, vf_vlan_header};
ghost use Rattle.neli_payloads.specs.VfVlanInfo.{IsPlainVfVlanInfo, vf_vlan_info_bytes, vf_vlan_info_header};

use neli_body::FixedHeader;
use neli_wire::{FromBytes, FromBytesWithInput, Size, ToBytes};
use std::fmt;
use std::str::FromStr;

/// The printed text of a hardware address is read as that address.
pub fn hardware_text_is_read_back()
    ensures { (bytes : List ℕ) → length bytes ≤ 32 → AreBytes bytes
        → hardware_parsed (hardware_text bytes) ≡ Some bytes }
{}

/// The lifetimes of an address are read back, if each field has a number of its size. Bytes that are read as them are
/// written back as the same bytes.
pub fn ifa_cacheinfo_is_read_back()
    ensures back { (v : IfaCacheinfo) → IsPlainIfaCacheinfo v
        → ifa_cacheinfo_header (ifa_cacheinfo_bytes v) ≡ v }
    ensures bytes { (s : List ℕ) → length s ≡ 16 → AreBytes s
        → ifa_cacheinfo_bytes (ifa_cacheinfo_header s) ≡ s }
{}

/// A route's cache entry is read back, if each field has a number of its size. Bytes that are read as one are written
/// back as the same bytes.
pub fn rta_cacheinfo_is_read_back()
    ensures back { (v : RtaCacheinfo) → IsPlainRtaCacheinfo v
        → rta_cacheinfo_header (rta_cacheinfo_bytes v) ≡ v }
    ensures bytes { (s : List ℕ) → length s ≡ 32 → AreBytes s
        → rta_cacheinfo_bytes (rta_cacheinfo_header s) ≡ s }
{}

/// The settings of a virtual function are read back, if each field has a number of its size. Bytes that are read as
/// such a structure are written back as the same bytes.
pub fn virtual_functions_are_read_back()
    ensures setting_back { (v : VfSetting) → IsPlainVfSetting v
        → vf_setting_header (vf_setting_bytes v) ≡ v }
    ensures setting_bytes { (s : List ℕ) → length s ≡ 8 → AreBytes s
        → vf_setting_bytes (vf_setting_header s) ≡ s }
    ensures rate_back { (v : VfRate) → IsPlainVfRate v → vf_rate_header (vf_rate_bytes v) ≡ v }
    ensures rate_bytes { (s : List ℕ) → length s ≡ 12 → AreBytes s
        → vf_rate_bytes (vf_rate_header s) ≡ s }
    ensures vlan_back { (v : VfVlan) → IsPlainVfVlan v → vf_vlan_header (vf_vlan_bytes v) ≡ v }
    ensures vlan_bytes { (s : List ℕ) → length s ≡ 12 → AreBytes s
        → vf_vlan_bytes (vf_vlan_header s) ≡ s }
    ensures vlan_info_back { (v : VfVlanInfo) → IsPlainVfVlanInfo v
        → vf_vlan_info_header (vf_vlan_info_bytes v) ≡ v }
    ensures vlan_info_bytes { (s : List ℕ) → length s ≡ 16 → AreBytes s
        → vf_vlan_info_bytes (vf_vlan_info_header s) ≡ s }
    ensures mac_back { (v : VfMac) → IsPlainVfMac v → vf_mac_header (vf_mac_bytes v) ≡ v }
    ensures mac_bytes { (s : List ℕ) → length s ≡ 36 → AreBytes s
        → vf_mac_bytes (vf_mac_header s) ≡ s }
    ensures guid_back { (v : VfGuid) → IsPlainVfGuid v → vf_guid_header (vf_guid_bytes v) ≡ v }
    ensures guid_bytes { (s : List ℕ) → length s ≡ 16 → AreBytes s
        → vf_guid_bytes (vf_guid_header s) ≡ s }
{}

/// `==` of the lifetimes of addresses, of routes' cache entries, of counters and of the settings of virtual functions
/// is true exactly where the two values are equal, field by field; that of addresses of devices, where they have the
/// same bytes.
pub fn equality()
    ensures hardware_address { IsEquality ⟦<crate::HardwareAddress as PartialEq>⟧.eq }
    ensures ifa_cacheinfo { IsEquality ⟦<crate::IfaCacheinfo as PartialEq>⟧.eq }
    ensures rta_cacheinfo { IsEquality ⟦<crate::RtaCacheinfo as PartialEq>⟧.eq }
    ensures link_stats64 { IsEquality ⟦<crate::LinkStats64 as PartialEq>⟧.eq }
    ensures vf_setting { IsEquality ⟦<crate::VfSetting as PartialEq>⟧.eq }
    ensures vf_rate { IsEquality ⟦<crate::VfRate as PartialEq>⟧.eq }
    ensures vf_vlan { IsEquality ⟦<crate::VfVlan as PartialEq>⟧.eq }
    ensures vf_vlan_info { IsEquality ⟦<crate::VfVlanInfo as PartialEq>⟧.eq }
    ensures vf_mac { IsEquality ⟦<crate::VfMac as PartialEq>⟧.eq }
    ensures vf_guid { IsEquality ⟦<crate::VfGuid as PartialEq>⟧.eq }
{}

/// The lifetimes of an address and a route's cache entry are written and read as their fields. A read takes no memory.
pub fn cache_entries_are_their_fields()
    ensures ifa_cacheinfo_written { AreSame ⟦<crate::IfaCacheinfo as ToBytes>⟧.wire (λ v. Ok (ifa_cacheinfo_bytes v)) }
    ensures ifa_cacheinfo_size { AreSame ⟦<crate::IfaCacheinfo as Size>⟧.unpadded_length (λ v. 16) }
    ensures ifa_cacheinfo_read { AreReadAs ⟦<crate::IfaCacheinfo as FromBytes>⟧.read
        ⟦<crate::IfaCacheinfo as FromBytes>⟧.takes_memory 16 ifa_cacheinfo_header }
    ensures ifa_cacheinfo_seen { AreSame ⟦<crate::IfaCacheinfo as FromBytes>⟧.view (λ v. v) }
    ensures rta_cacheinfo_written { AreSame ⟦<crate::RtaCacheinfo as ToBytes>⟧.wire (λ v. Ok (rta_cacheinfo_bytes v)) }
    ensures rta_cacheinfo_size { AreSame ⟦<crate::RtaCacheinfo as Size>⟧.unpadded_length (λ v. 32) }
    ensures rta_cacheinfo_read { AreReadAs ⟦<crate::RtaCacheinfo as FromBytes>⟧.read
        ⟦<crate::RtaCacheinfo as FromBytes>⟧.takes_memory 32 rta_cacheinfo_header }
    ensures rta_cacheinfo_seen { AreSame ⟦<crate::RtaCacheinfo as FromBytes>⟧.view (λ v. v) }
{}

/// The settings of a virtual function are written and read as their fields. A read takes no memory.
pub fn virtual_functions_are_their_fields()
    ensures vf_setting_written { AreSame ⟦<crate::VfSetting as ToBytes>⟧.wire (λ v. Ok (vf_setting_bytes v)) }
    ensures vf_setting_size { AreSame ⟦<crate::VfSetting as Size>⟧.unpadded_length (λ v. 8) }
    ensures vf_setting_read { AreReadAs ⟦<crate::VfSetting as FromBytes>⟧.read
        ⟦<crate::VfSetting as FromBytes>⟧.takes_memory 8 vf_setting_header }
    ensures vf_setting_seen { AreSame ⟦<crate::VfSetting as FromBytes>⟧.view (λ v. v) }
    ensures vf_rate_written { AreSame ⟦<crate::VfRate as ToBytes>⟧.wire (λ v. Ok (vf_rate_bytes v)) }
    ensures vf_rate_size { AreSame ⟦<crate::VfRate as Size>⟧.unpadded_length (λ v. 12) }
    ensures vf_rate_read { AreReadAs ⟦<crate::VfRate as FromBytes>⟧.read
        ⟦<crate::VfRate as FromBytes>⟧.takes_memory 12 vf_rate_header }
    ensures vf_rate_seen { AreSame ⟦<crate::VfRate as FromBytes>⟧.view (λ v. v) }
    ensures vf_vlan_written { AreSame ⟦<crate::VfVlan as ToBytes>⟧.wire (λ v. Ok (vf_vlan_bytes v)) }
    ensures vf_vlan_size { AreSame ⟦<crate::VfVlan as Size>⟧.unpadded_length (λ v. 12) }
    ensures vf_vlan_read { AreReadAs ⟦<crate::VfVlan as FromBytes>⟧.read
        ⟦<crate::VfVlan as FromBytes>⟧.takes_memory 12 vf_vlan_header }
    ensures vf_vlan_seen { AreSame ⟦<crate::VfVlan as FromBytes>⟧.view (λ v. v) }
    ensures vf_vlan_info_written { AreSame ⟦<crate::VfVlanInfo as ToBytes>⟧.wire (λ v. Ok (vf_vlan_info_bytes v)) }
    ensures vf_vlan_info_size { AreSame ⟦<crate::VfVlanInfo as Size>⟧.unpadded_length (λ v. 16) }
    ensures vf_vlan_info_read { AreReadAs ⟦<crate::VfVlanInfo as FromBytes>⟧.read
        ⟦<crate::VfVlanInfo as FromBytes>⟧.takes_memory 16 vf_vlan_info_header }
    ensures vf_vlan_info_seen { AreSame ⟦<crate::VfVlanInfo as FromBytes>⟧.view (λ v. v) }
    ensures vf_mac_written { AreSame ⟦<crate::VfMac as ToBytes>⟧.wire (λ v. Ok (vf_mac_bytes v)) }
    ensures vf_mac_size { AreSame ⟦<crate::VfMac as Size>⟧.unpadded_length (λ v. 4 + length v.mac) }
    ensures vf_mac_read { AreReadAs ⟦<crate::VfMac as FromBytes>⟧.read
        ⟦<crate::VfMac as FromBytes>⟧.takes_memory 36 vf_mac_header }
    ensures vf_mac_seen { AreSame ⟦<crate::VfMac as FromBytes>⟧.view (λ v. v) }
    ensures vf_guid_written { AreSame ⟦<crate::VfGuid as ToBytes>⟧.wire (λ v. Ok (vf_guid_bytes v)) }
    ensures vf_guid_size { AreSame ⟦<crate::VfGuid as Size>⟧.unpadded_length (λ v. 16) }
    ensures vf_guid_read { AreReadAs ⟦<crate::VfGuid as FromBytes>⟧.read
        ⟦<crate::VfGuid as FromBytes>⟧.takes_memory 16 vf_guid_header }
    ensures vf_guid_seen { AreSame ⟦<crate::VfGuid as FromBytes>⟧.view (λ v. v) }
{}

/// A hardware address is its bytes, when it is written, read and parsed, and the counters of a link are read as theirs.
/// A read takes no memory.
pub fn addresses_and_counters_are_their_bytes()
    ensures address_written { AreWrittenAs ⟦<crate::HardwareAddress as ToBytes>⟧.wire
        ⟦<crate::HardwareAddress as Size>⟧.unpadded_length (λ bytes. bytes) }
    ensures address_read { AreSame ⟦<crate::HardwareAddress as FromBytesWithInput>⟧.read
        hardware_address }
    ensures address_seen { AreSame ⟦<crate::HardwareAddress as FromBytesWithInput>⟧.view
        (λ bytes. bytes) }
    ensures address_memory { OnlyWhere
        ⟦<crate::HardwareAddress as FromBytesWithInput>⟧.takes_memory (λ s. ⊥) }
    ensures counters_read { AreSame ⟦<crate::LinkStats64 as FromBytesWithInput>⟧.read
        (λ s. Ok (link_stats64_of s)) }
    ensures counters_seen { AreSame ⟦<crate::LinkStats64 as FromBytesWithInput>⟧.view (λ v. v) }
    ensures counters_memory { OnlyWhere ⟦<crate::LinkStats64 as FromBytesWithInput>⟧.takes_memory
        (λ s. ⊥) }
{}

/// A step of a walk over next hops gives the first item of the rest, a next hop or else the fault, and leaves what
/// follows it; it gives the end if nothing is left.
pub fn walk_gives_what_is_left()
    ensures { StepsOnly ⟦<crate::NextHops<'static> as Iterator>⟧.next_gives
        (YieldsFirstBy (map_ok next_hop_view) (λ place. items_of (next_hops_at place))) }
{}

/// A header of fixed size is plain wherever each of its fields has a number of its size, so the laws on what is written
/// and read back speak of all such headers.
pub fn headers_are_plain_by_their_fields()
    ensures ifa_cacheinfo { OnlyWhere IsPlainIfaCacheinfo ⟦<crate::IfaCacheinfo as FixedHeader>⟧.IsPlain }
    ensures rta_cacheinfo { OnlyWhere IsPlainRtaCacheinfo ⟦<crate::RtaCacheinfo as FixedHeader>⟧.IsPlain }
    ensures vf_setting { OnlyWhere IsPlainVfSetting ⟦<crate::VfSetting as FixedHeader>⟧.IsPlain }
    ensures vf_rate { OnlyWhere IsPlainVfRate ⟦<crate::VfRate as FixedHeader>⟧.IsPlain }
    ensures vf_vlan { OnlyWhere IsPlainVfVlan ⟦<crate::VfVlan as FixedHeader>⟧.IsPlain }
    ensures vf_vlan_info { OnlyWhere IsPlainVfVlanInfo ⟦<crate::VfVlanInfo as FixedHeader>⟧.IsPlain }
    ensures vf_guid { OnlyWhere IsPlainVfGuid ⟦<crate::VfGuid as FixedHeader>⟧.IsPlain }
{}

/// A hardware address prints as its text, by `Debug` too, and is parsed from the texts that spell one.
pub fn hardware_address_is_its_text()
    ensures printed { AreSame ⟦<crate::HardwareAddress as fmt::Display>⟧.output
        (λ bytes. Some (hardware_text bytes)) }
    ensures shown { AreSame ⟦<crate::HardwareAddress as fmt::Debug>⟧.debug_output
        (λ bytes. Some (hardware_text bytes)) }
    ensures parsed { GivesOnly ⟦<crate::HardwareAddress as FromStr>⟧.from_str_gives
        (λ text r. result_ok r ≡ hardware_parsed text) }
    ensures refused { AreSame ⟦<crate::HardwareAddressError as fmt::Display>⟧.output
        (λ _. Some (codes "no hardware address")) }
{}
