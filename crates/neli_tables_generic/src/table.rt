//! Which tables there are. Written by `tables/into-crates`.

ghost use Rattle.std.specs.Prelude.{◌≡◌, find};
ghost use Rattle.std.specs.Option.{option_copied};
ghost use Rattle.std.specs.Str.{bytes_eq};
ghost use Rattle.neli_tables_generic.specs.Tables.{Begins, all, heading_of, name_of, table_named};

use crate::{
    devlink, dpll, ethtool, fou, handshake, ioam6, ipvs, l2tp, macsec, mptcp_pm, netdev, nfsd,
    nl80211, nlctrl, ovs_datapath, ovs_flow, ovs_vport, seg6, tcp_metrics, team, wireguard,
};

/// A table of families of generic netlink, by the name of its file.
#[derive(Clone, Copy, Debug, PartialEq, Eq)]
pub enum GenericTable {
    /// `devlink`.
    Devlink,
    /// `dpll`.
    Dpll,
    /// `ethtool`.
    Ethtool,
    /// `fou`.
    Fou,
    /// `handshake`.
    Handshake,
    /// `ioam6`.
    Ioam6,
    /// `ipvs`.
    Ipvs,
    /// `l2tp`.
    L2tp,
    /// `macsec`.
    Macsec,
    /// `mptcp_pm`.
    MptcpPm,
    /// `netdev`.
    Netdev,
    /// `nfsd`.
    Nfsd,
    /// `nl80211`.
    Nl80211,
    /// `nlctrl`.
    Nlctrl,
    /// `ovs_datapath`.
    OvsDatapath,
    /// `ovs_flow`.
    OvsFlow,
    /// `ovs_vport`.
    OvsVport,
    /// `seg6`.
    Seg6,
    /// `tcp_metrics`.
    TcpMetrics,
    /// `team`.
    Team,
    /// `wireguard`.
    Wireguard,
}

/// All, in the order of their names.
static ALL: [GenericTable; 21] = [
    GenericTable::Devlink,
    GenericTable::Dpll,
    GenericTable::Ethtool,
    GenericTable::Fou,
    GenericTable::Handshake,
    GenericTable::Ioam6,
    GenericTable::Ipvs,
    GenericTable::L2tp,
    GenericTable::Macsec,
    GenericTable::MptcpPm,
    GenericTable::Netdev,
    GenericTable::Nfsd,
    GenericTable::Nl80211,
    GenericTable::Nlctrl,
    GenericTable::OvsDatapath,
    GenericTable::OvsFlow,
    GenericTable::OvsVport,
    GenericTable::Seg6,
    GenericTable::TcpMetrics,
    GenericTable::Team,
    GenericTable::Wireguard,
];

/// The first of these tables with this name.
fn find_table<'t>(tables: &'t [GenericTable], name: &[u8]) -> Option<&'t GenericTable>
    ensures { option_copied result
        ≡ find (λ table. bytes_eq (name_of table) name.now) tables.now }
{
    tables.iter().find(|table| table.name() == name)
}

impl GenericTable {
    /// All, in the order of their names.
    #[tactic(auto, unfolding(crate::specs::Tables::all))]
    pub fn all() -> &'static [GenericTable]
        ensures { result.now ≡ all }
    {
        &ALL
    }

    /// The name of its file in `tables/`, without the ending, as `devlink`.
    pub fn name(self) -> &'static [u8]
        ensures { result.now ≡ name_of self }
    {
        match self {
            GenericTable::Devlink => b"devlink",
            GenericTable::Dpll => b"dpll",
            GenericTable::Ethtool => b"ethtool",
            GenericTable::Fou => b"fou",
            GenericTable::Handshake => b"handshake",
            GenericTable::Ioam6 => b"ioam6",
            GenericTable::Ipvs => b"ipvs",
            GenericTable::L2tp => b"l2tp",
            GenericTable::Macsec => b"macsec",
            GenericTable::MptcpPm => b"mptcp_pm",
            GenericTable::Netdev => b"netdev",
            GenericTable::Nfsd => b"nfsd",
            GenericTable::Nl80211 => b"nl80211",
            GenericTable::Nlctrl => b"nlctrl",
            GenericTable::OvsDatapath => b"ovs_datapath",
            GenericTable::OvsFlow => b"ovs_flow",
            GenericTable::OvsVport => b"ovs_vport",
            GenericTable::Seg6 => b"seg6",
            GenericTable::TcpMetrics => b"tcp_metrics",
            GenericTable::Team => b"team",
            GenericTable::Wireguard => b"wireguard",
        }
    }

    /// The table with this name; `None` where there is none.
    pub fn named(name: &[u8]) -> Option<GenericTable>
        ensures { result ≡ table_named name.now }
    {
        find_table(GenericTable::all(), name).copied()
    }

    /// The text in the form of docs/TABLES.md, byte by byte that of its file. The clause says how
    /// it begins, up to the line of its family; the rest is held by a test.
    pub fn text(self) -> &'static [u8]
        ensures { Begins result.now (heading_of self) }
    {
        match self {
            GenericTable::Devlink => devlink::text(),
            GenericTable::Dpll => dpll::text(),
            GenericTable::Ethtool => ethtool::text(),
            GenericTable::Fou => fou::text(),
            GenericTable::Handshake => handshake::text(),
            GenericTable::Ioam6 => ioam6::text(),
            GenericTable::Ipvs => ipvs::text(),
            GenericTable::L2tp => l2tp::text(),
            GenericTable::Macsec => macsec::text(),
            GenericTable::MptcpPm => mptcp_pm::text(),
            GenericTable::Netdev => netdev::text(),
            GenericTable::Nfsd => nfsd::text(),
            GenericTable::Nl80211 => nl80211::text(),
            GenericTable::Nlctrl => nlctrl::text(),
            GenericTable::OvsDatapath => ovs_datapath::text(),
            GenericTable::OvsFlow => ovs_flow::text(),
            GenericTable::OvsVport => ovs_vport::text(),
            GenericTable::Seg6 => seg6::text(),
            GenericTable::TcpMetrics => tcp_metrics::text(),
            GenericTable::Team => team::text(),
            GenericTable::Wireguard => wireguard::text(),
        }
    }
}
