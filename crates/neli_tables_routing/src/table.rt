//! Which tables there are. Written by `tables/into-crates`.

ghost use Rattle.std.specs.Prelude.{◌≡◌, find};
ghost use Rattle.std.specs.Option.{option_copied};
ghost use Rattle.std.specs.Str.{bytes_eq};
ghost use Rattle.neli_tables_routing.specs.Tables.{Begins, all, heading_of, name_of, table_named};

use crate::{
    rt_addr, rt_addrlabel, rt_bridge, rt_dcb, rt_link, rt_neigh, rt_netconf, rt_nsid, rt_prefix,
    rt_report, rt_route, rt_rule, rt_tunnel, tc,
};

/// A table of routing and traffic control, by the name of its file.
#[derive(Clone, Copy, Debug, PartialEq, Eq)]
pub enum RoutingTable {
    /// `rt_addr`.
    RtAddr,
    /// `rt_addrlabel`.
    RtAddrlabel,
    /// `rt_bridge`.
    RtBridge,
    /// `rt_dcb`.
    RtDcb,
    /// `rt_link`.
    RtLink,
    /// `rt_neigh`.
    RtNeigh,
    /// `rt_netconf`.
    RtNetconf,
    /// `rt_nsid`.
    RtNsid,
    /// `rt_prefix`.
    RtPrefix,
    /// `rt_report`.
    RtReport,
    /// `rt_route`.
    RtRoute,
    /// `rt_rule`.
    RtRule,
    /// `rt_tunnel`.
    RtTunnel,
    /// `tc`.
    Tc,
}

/// All, in the order of their names.
static ALL: [RoutingTable; 14] = [
    RoutingTable::RtAddr,
    RoutingTable::RtAddrlabel,
    RoutingTable::RtBridge,
    RoutingTable::RtDcb,
    RoutingTable::RtLink,
    RoutingTable::RtNeigh,
    RoutingTable::RtNetconf,
    RoutingTable::RtNsid,
    RoutingTable::RtPrefix,
    RoutingTable::RtReport,
    RoutingTable::RtRoute,
    RoutingTable::RtRule,
    RoutingTable::RtTunnel,
    RoutingTable::Tc,
];

/// The first of these tables with this name.
fn find_table<'t>(tables: &'t [RoutingTable], name: &[u8]) -> Option<&'t RoutingTable>
    ensures { option_copied result
        ≡ find (λ table. bytes_eq (name_of table) name.now) tables.now }
{
    tables.iter().find(|table| table.name() == name)
}

impl RoutingTable {
    /// All, in the order of their names.
    #[tactic(auto, unfolding(crate::specs::Tables::all))]
    pub fn all() -> &'static [RoutingTable]
        ensures { result.now ≡ all }
    {
        &ALL
    }

    /// The name of its file in `tables/`, without the ending, as `rt_addr`.
    pub fn name(self) -> &'static [u8]
        ensures { result.now ≡ name_of self }
    {
        match self {
            RoutingTable::RtAddr => b"rt_addr",
            RoutingTable::RtAddrlabel => b"rt_addrlabel",
            RoutingTable::RtBridge => b"rt_bridge",
            RoutingTable::RtDcb => b"rt_dcb",
            RoutingTable::RtLink => b"rt_link",
            RoutingTable::RtNeigh => b"rt_neigh",
            RoutingTable::RtNetconf => b"rt_netconf",
            RoutingTable::RtNsid => b"rt_nsid",
            RoutingTable::RtPrefix => b"rt_prefix",
            RoutingTable::RtReport => b"rt_report",
            RoutingTable::RtRoute => b"rt_route",
            RoutingTable::RtRule => b"rt_rule",
            RoutingTable::RtTunnel => b"rt_tunnel",
            RoutingTable::Tc => b"tc",
        }
    }

    /// The table with this name; `None` where there is none.
    pub fn named(name: &[u8]) -> Option<RoutingTable>
        ensures { result ≡ table_named name.now }
    {
        find_table(RoutingTable::all(), name).copied()
    }

    /// The text in the form of docs/TABLES.md, byte by byte that of its file. The clause says how
    /// it begins, up to the line of its family; the rest is held by a test.
    pub fn text(self) -> &'static [u8]
        ensures { Begins result.now (heading_of self) }
    {
        match self {
            RoutingTable::RtAddr => rt_addr::text(),
            RoutingTable::RtAddrlabel => rt_addrlabel::text(),
            RoutingTable::RtBridge => rt_bridge::text(),
            RoutingTable::RtDcb => rt_dcb::text(),
            RoutingTable::RtLink => rt_link::text(),
            RoutingTable::RtNeigh => rt_neigh::text(),
            RoutingTable::RtNetconf => rt_netconf::text(),
            RoutingTable::RtNsid => rt_nsid::text(),
            RoutingTable::RtPrefix => rt_prefix::text(),
            RoutingTable::RtReport => rt_report::text(),
            RoutingTable::RtRoute => rt_route::text(),
            RoutingTable::RtRule => rt_rule::text(),
            RoutingTable::RtTunnel => rt_tunnel::text(),
            RoutingTable::Tc => tc::text(),
        }
    }
}
