//! Routing netlink: the bodies of links, addresses, neighbours, routes, queues and rules, their attributes, and the
//! payloads of these: hardware addresses, counters, cache entries, next hops and settings of virtual functions. The
//! module [`linux`] has bodies and payloads that the Rust crate lacks.

pub use neli_attr::{RtAttrHandle, Rtattr, RtattrBuilder, RtattrBuilderError};
pub use neli_payloads::{
    HardwareAddress, HardwareAddressError, IfaCacheinfo, LinkStats64, NextHop, NextHops,
    RtaCacheinfo, VfGuid, VfMac, VfRate, VfSetting, VfVlan, VfVlanInfo,
};
pub use neli_rtnl::{
    Body, Fibmsg, FibmsgBuilder, FibmsgBuilderError, Fields, Ifaddrmsg, IfaddrmsgBuilder,
    IfaddrmsgBuilderError, Ifinfomsg, IfinfomsgBuilder, IfinfomsgBuilderError, IflaVlanFlags,
    IflaVlanFlagsBuilder, IflaVlanFlagsBuilderError, IflaVlanQosMapping, IflaVlanQosMappingBuilder,
    IflaVlanQosMappingBuilderError, NdaCacheinfo, NdaCacheinfoBuilder, NdaCacheinfoBuilderError,
    Ndmsg, NdmsgBuilder, NdmsgBuilderError, Rtgenmsg, RtgenmsgBuilder, RtgenmsgBuilderError, Rtmsg,
    RtmsgBuilder, RtmsgBuilderError, Tcmsg, TcmsgBuilder, TcmsgBuilderError,
};

/// Laws: written values are read back, values are their fields, and `==` is equality.
pub mod laws {
    pub use neli_payloads::laws::{
        addresses_and_counters_are_their_bytes, cache_entries_are_their_fields,
        equality as equality_of_payloads, hardware_address_is_its_text, hardware_text_is_read_back,
        headers_are_plain_by_their_fields, ifa_cacheinfo_is_read_back, rta_cacheinfo_is_read_back,
        virtual_functions_are_read_back, virtual_functions_are_their_fields,
        walk_gives_what_is_left,
    };
    pub use neli_rtnl::laws::{
        attributes_begin_after_the_fields, bodies_are_read, bodies_are_written,
        bodies_take_memory_for_attributes, equality_of_links, equality_of_routes,
        fibmsg_is_read_back, ifaddrmsg_is_read_back, ifinfomsg_is_read_back,
        ifla_vlan_flags_is_read_back, ifla_vlan_qos_mapping_is_read_back,
        nda_cacheinfo_is_read_back, ndmsg_is_read_back, payloads_are_their_fields,
        rtgenmsg_is_read_back, rtmsg_is_read_back, tcmsg_is_read_back,
    };
}

/// Bodies and payloads that the Rust crate lacks: next hops, the multicast groups of bridges, the statistics of links,
/// neighbour tables, the counters and the handles of queueing disciplines.
pub mod linux {
    pub use neli_rtnl_linux::{
        BrPortMsg, BrPortMsgHeader, GnetStatsBasic, GnetStatsQueue, IfStatsMsg, IfStatsMsgHeader,
        Ndtmsg, NdtmsgHeader, Nhmsg, NhmsgHeader, TcHandle, laws,
    };
}
