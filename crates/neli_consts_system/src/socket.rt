//! Families of sockets.

ghost use Rattle.std.proofs.Common.{rules};
ghost use Rattle.std.specs.Prelude.{◌≡◌};
ghost use Rattle.neli_consts_system.specs.AddrFamily.{addr_family_number, addr_family_of, addr_family_is_unrecognized};
ghost use Rattle.neli_consts_system.specs.NlFamily.{nl_family_number, nl_family_of, nl_family_is_unrecognized};
ghost use Rattle.neli_wire.specs.laws.Constants.{first_with_int-number};

use neli_wire::Constant;

/// Address families: `AF_*` of `linux/socket.h`.
#[derive(Clone, Copy, Debug, PartialEq, Eq)]
pub enum AddrFamily {
    /// Within the host.
    UnixOrLocal,
    /// Version 4 of the internet protocol.
    Inet,
    /// Version 6 of the internet protocol.
    Inet6,
    /// IPX.
    Ipx,
    /// Netlink.
    Netlink,
    /// X.25.
    X25,
    /// AX.25, of amateur radio.
    Ax25,
    /// Permanent virtual circuits of ATM.
    Atmpvc,
    /// AppleTalk.
    Appletalk,
    /// Frames as they are on the link.
    Packet,
    /// The kernel's cipher and digest functions.
    Alg,
    /// A number without a name.
    UnrecognizedConst(i32),
}

impl AddrFamily {
    /// Whether the value is a number without a name, an `UnrecognizedConst`.
    pub fn is_unrecognized(&self) -> bool
        ensures { result ≡ addr_family_is_unrecognized self.now }
    {
        matches!(self, AddrFamily::UnrecognizedConst(_))
    }
}

impl From<i32> for AddrFamily {
    ghost from_gives = { λ number value. value ≡ addr_family_of number };

    fn from(number: i32) -> AddrFamily {
        match number {
            1 => AddrFamily::UnixOrLocal,
            2 => AddrFamily::Inet,
            10 => AddrFamily::Inet6,
            4 => AddrFamily::Ipx,
            16 => AddrFamily::Netlink,
            9 => AddrFamily::X25,
            3 => AddrFamily::Ax25,
            8 => AddrFamily::Atmpvc,
            5 => AddrFamily::Appletalk,
            17 => AddrFamily::Packet,
            38 => AddrFamily::Alg,
            _ => AddrFamily::UnrecognizedConst(number),
        }
    }
}

impl From<AddrFamily> for i32 {
    ghost from_gives = { λ value number. number ≡ addr_family_number value };

    fn from(value: AddrFamily) -> i32 {
        match value {
            AddrFamily::UnixOrLocal => 1,
            AddrFamily::Inet => 2,
            AddrFamily::Inet6 => 10,
            AddrFamily::Ipx => 4,
            AddrFamily::Netlink => 16,
            AddrFamily::X25 => 9,
            AddrFamily::Ax25 => 3,
            AddrFamily::Atmpvc => 8,
            AddrFamily::Appletalk => 5,
            AddrFamily::Packet => 17,
            AddrFamily::Alg => 38,
            AddrFamily::UnrecognizedConst(number) => number,
        }
    }
}

impl From<&AddrFamily> for i32 {
    ghost from_gives = { λ value number. number ≡ addr_family_number value.now };

    fn from(value: &AddrFamily) -> i32 {
        i32::from(*value)
    }
}

impl Constant for AddrFamily {
    type Number = i32;

    ghost wire_number = { addr_family_number };

    ghost wire_value = { addr_family_of };

    fn from_wire(number: i32) -> AddrFamily {
        AddrFamily::from(number)
    }

    fn to_wire(&self) -> i32 {
        i32::from(self)
    }

    ghost back_to_number = { λ n _. Prim.search (first_with_int-number, rules) };
}

/// Netlink's families, the protocols of its sockets: `NETLINK_*` of `linux/netlink.h`.
#[derive(Clone, Copy, Debug, PartialEq, Eq)]
pub enum NlFamily {
    /// Links, addresses, routes and what belongs to them.
    Route,
    /// Not used.
    Unused,
    /// For programs, among themselves.
    Usersock,
    /// No longer used by the kernel.
    Firewall,
    /// Data about sockets (`NETLINK_SOCK_DIAG`, once `NETLINK_INET_DIAG`).
    SockOrInetDiag,
    /// No longer used by the kernel: logging is [`NlFamily::Netfilter`]'s.
    Nflog,
    /// IPsec.
    Xfrm,
    /// Events of SELinux.
    Selinux,
    /// iSCSI.
    Iscsi,
    /// Auditing.
    Audit,
    /// Look-ups in the routing tables.
    FibLookup,
    /// The connector: events of processes, among others.
    Connector,
    /// Netfilter: filters of packets, connections, logging.
    Netfilter,
    /// No longer used by the kernel.
    Ip6Fw,
    /// DECnet routing.
    Dnrtmsg,
    /// The kernel's announcements of devices, which are texts.
    KobjectUevent,
    /// Generic netlink.
    Generic,
    /// SCSI transports.
    Scsitransport,
    /// The file system eCryptfs.
    Ecryptfs,
    /// Remote direct memory access.
    Rdma,
    /// The kernel's cipher and digest functions.
    Crypto,
    /// A number without a name.
    UnrecognizedConst(i32),
}

impl NlFamily {
    /// Whether the value is a number without a name, an `UnrecognizedConst`.
    pub fn is_unrecognized(&self) -> bool
        ensures { result ≡ nl_family_is_unrecognized self.now }
    {
        matches!(self, NlFamily::UnrecognizedConst(_))
    }
}

impl From<i32> for NlFamily {
    ghost from_gives = { λ number value. value ≡ nl_family_of number };

    fn from(number: i32) -> NlFamily {
        match number {
            0 => NlFamily::Route,
            1 => NlFamily::Unused,
            2 => NlFamily::Usersock,
            3 => NlFamily::Firewall,
            4 => NlFamily::SockOrInetDiag,
            5 => NlFamily::Nflog,
            6 => NlFamily::Xfrm,
            7 => NlFamily::Selinux,
            8 => NlFamily::Iscsi,
            9 => NlFamily::Audit,
            10 => NlFamily::FibLookup,
            11 => NlFamily::Connector,
            12 => NlFamily::Netfilter,
            13 => NlFamily::Ip6Fw,
            14 => NlFamily::Dnrtmsg,
            15 => NlFamily::KobjectUevent,
            16 => NlFamily::Generic,
            18 => NlFamily::Scsitransport,
            19 => NlFamily::Ecryptfs,
            20 => NlFamily::Rdma,
            21 => NlFamily::Crypto,
            _ => NlFamily::UnrecognizedConst(number),
        }
    }
}

impl From<NlFamily> for i32 {
    ghost from_gives = { λ value number. number ≡ nl_family_number value };

    fn from(value: NlFamily) -> i32 {
        match value {
            NlFamily::Route => 0,
            NlFamily::Unused => 1,
            NlFamily::Usersock => 2,
            NlFamily::Firewall => 3,
            NlFamily::SockOrInetDiag => 4,
            NlFamily::Nflog => 5,
            NlFamily::Xfrm => 6,
            NlFamily::Selinux => 7,
            NlFamily::Iscsi => 8,
            NlFamily::Audit => 9,
            NlFamily::FibLookup => 10,
            NlFamily::Connector => 11,
            NlFamily::Netfilter => 12,
            NlFamily::Ip6Fw => 13,
            NlFamily::Dnrtmsg => 14,
            NlFamily::KobjectUevent => 15,
            NlFamily::Generic => 16,
            NlFamily::Scsitransport => 18,
            NlFamily::Ecryptfs => 19,
            NlFamily::Rdma => 20,
            NlFamily::Crypto => 21,
            NlFamily::UnrecognizedConst(number) => number,
        }
    }
}

impl From<&NlFamily> for i32 {
    ghost from_gives = { λ value number. number ≡ nl_family_number value.now };

    fn from(value: &NlFamily) -> i32 {
        i32::from(*value)
    }
}

impl Constant for NlFamily {
    type Number = i32;

    ghost wire_number = { nl_family_number };

    ghost wire_value = { nl_family_of };

    fn from_wire(number: i32) -> NlFamily {
        NlFamily::from(number)
    }

    fn to_wire(&self) -> i32 {
        i32::from(self)
    }

    ghost back_to_number = { λ n _. Prim.search (first_with_int-number, rules) };
}
