//! Which tables there are. Written by `tables/into-crates`.

ghost use Rattle.std.specs.Prelude.{◌≡◌, find};
ghost use Rattle.std.specs.Option.{option_copied};
ghost use Rattle.std.specs.Str.{bytes_eq};
ghost use Rattle.neli_tables_system.specs.Tables.{Begins, all, heading_of, name_of, table_named};

use crate::{conntrack, ipset, nflog, nfqueue, nftables, nlmsg, proc_event, sock_diag, xfrm};

/// A table of filters, sockets, IPsec, processes and every protocol, by the name of its file.
#[derive(Clone, Copy, Debug, PartialEq, Eq)]
pub enum SystemTable {
    /// `conntrack`.
    Conntrack,
    /// `ipset`.
    Ipset,
    /// `nflog`.
    Nflog,
    /// `nfqueue`.
    Nfqueue,
    /// `nftables`.
    Nftables,
    /// `nlmsg`.
    Nlmsg,
    /// `proc_event`.
    ProcEvent,
    /// `sock_diag`.
    SockDiag,
    /// `xfrm`.
    Xfrm,
}

/// All, in the order of their names.
static ALL: [SystemTable; 9] = [
    SystemTable::Conntrack,
    SystemTable::Ipset,
    SystemTable::Nflog,
    SystemTable::Nfqueue,
    SystemTable::Nftables,
    SystemTable::Nlmsg,
    SystemTable::ProcEvent,
    SystemTable::SockDiag,
    SystemTable::Xfrm,
];

/// The first of these tables with this name.
fn find_table<'t>(tables: &'t [SystemTable], name: &[u8]) -> Option<&'t SystemTable>
    ensures { option_copied result
        ≡ find (λ table. bytes_eq (name_of table) name.now) tables.now }
{
    tables.iter().find(|table| table.name() == name)
}

impl SystemTable {
    /// All, in the order of their names.
    #[tactic(auto, unfolding(crate::specs::Tables::all))]
    pub fn all() -> &'static [SystemTable]
        ensures { result.now ≡ all }
    {
        &ALL
    }

    /// The name of its file in `tables/`, without the ending, as `conntrack`.
    pub fn name(self) -> &'static [u8]
        ensures { result.now ≡ name_of self }
    {
        match self {
            SystemTable::Conntrack => b"conntrack",
            SystemTable::Ipset => b"ipset",
            SystemTable::Nflog => b"nflog",
            SystemTable::Nfqueue => b"nfqueue",
            SystemTable::Nftables => b"nftables",
            SystemTable::Nlmsg => b"nlmsg",
            SystemTable::ProcEvent => b"proc_event",
            SystemTable::SockDiag => b"sock_diag",
            SystemTable::Xfrm => b"xfrm",
        }
    }

    /// The table with this name; `None` where there is none.
    pub fn named(name: &[u8]) -> Option<SystemTable>
        ensures { result ≡ table_named name.now }
    {
        find_table(SystemTable::all(), name).copied()
    }

    /// The text in the form of docs/TABLES.md, byte by byte that of its file. The clause says how
    /// it begins, up to the line of its family; the rest is held by a test.
    pub fn text(self) -> &'static [u8]
        ensures { Begins result.now (heading_of self) }
    {
        match self {
            SystemTable::Conntrack => conntrack::text(),
            SystemTable::Ipset => ipset::text(),
            SystemTable::Nflog => nflog::text(),
            SystemTable::Nfqueue => nfqueue::text(),
            SystemTable::Nftables => nftables::text(),
            SystemTable::Nlmsg => nlmsg::text(),
            SystemTable::ProcEvent => proc_event::text(),
            SystemTable::SockDiag => sock_diag::text(),
            SystemTable::Xfrm => xfrm::text(),
        }
    }
}
