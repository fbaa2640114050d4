//! Statistics of links and of queueing disciplines.

ghost use Rattle.std.proofs.Common.{rules};
ghost use Rattle.std.specs.Prelude.{◌≡◌};
ghost use Rattle.neli_consts_linux.specs.IflaStats.{ifla_stats_number, ifla_stats_of, ifla_stats_is_unrecognized};
ghost use Rattle.neli_consts_linux.specs.TcaStats.{tca_stats_number, tca_stats_of, tca_stats_is_unrecognized};
ghost use Rattle.neli_wire.specs.laws.Constants.{first_with-number};

use neli_consts_attrs::RtaType;
use neli_wire::Constant;

/// Attributes of a message of a link's statistics, `RTM_NEWSTATS`: `IFLA_STATS_*` of `linux/if_link.h`. Bit `n - 1`
/// of the message's `filter_mask` asks for attribute `n`.
#[derive(Clone, Copy, Debug, PartialEq, Eq)]
pub enum IflaStats {
    /// No attribute: 0 stands for none, or for padding.
    Unspec,
    /// The counters of the link, a `LinkStats64` of `neli_payloads`.
    Link64,
    /// Counters of the kind of link that it is, as of a bridge: attributes of `LINK_XSTATS_TYPE_*`.
    LinkXstats,
    /// Counters of the link as a port, by the kind of the link above it: attributes of `LINK_XSTATS_TYPE_*`.
    LinkXstatsSlave,
    /// Counters of packets that did not reach the processor: attributes of `IFLA_OFFLOAD_XSTATS_*`.
    LinkOffloadXstats,
    /// Counters of each family of addresses: an attribute each, whose number is the family.
    AfSpec,
    /// A number without a name.
    UnrecognizedConst(u16),
}

impl IflaStats {
    /// Whether the value is a number without a name, an `UnrecognizedConst`.
    pub fn is_unrecognized(&self) -> bool
        ensures { result ≡ ifla_stats_is_unrecognized self.now }
    {
        matches!(self, IflaStats::UnrecognizedConst(_))
    }
}

impl From<u16> for IflaStats {
    ghost from_gives = { λ number value. value ≡ ifla_stats_of number };

    fn from(number: u16) -> IflaStats {
        match number {
            0 => IflaStats::Unspec,
            1 => IflaStats::Link64,
            2 => IflaStats::LinkXstats,
            3 => IflaStats::LinkXstatsSlave,
            4 => IflaStats::LinkOffloadXstats,
            5 => IflaStats::AfSpec,
            _ => IflaStats::UnrecognizedConst(number),
        }
    }
}

impl From<IflaStats> for u16 {
    ghost from_gives = { λ value number. number ≡ ifla_stats_number value };

    fn from(value: IflaStats) -> u16 {
        match value {
            IflaStats::Unspec => 0,
            IflaStats::Link64 => 1,
            IflaStats::LinkXstats => 2,
            IflaStats::LinkXstatsSlave => 3,
            IflaStats::LinkOffloadXstats => 4,
            IflaStats::AfSpec => 5,
            IflaStats::UnrecognizedConst(number) => number,
        }
    }
}

impl Constant for IflaStats {
    type Number = u16;

    ghost wire_number = { ifla_stats_number };

    ghost wire_value = { ifla_stats_of };

    fn from_wire(number: u16) -> IflaStats {
        IflaStats::from(number)
    }

    fn to_wire(&self) -> u16 {
        u16::from(*self)
    }

    ghost back_to_number = { λ n _. Prim.search (first_with-number, rules) };
}

impl RtaType for IflaStats {}

/// Counters of a queueing discipline, a class or an action, inside [`Tca::Stats2`](neli_consts_attrs::Tca::Stats2):
/// `TCA_STATS_*` of `linux/gen_stats.h`. The types named here are those of `neli_rtnl_linux`.
#[derive(Clone, Copy, Debug, PartialEq, Eq)]
pub enum TcaStats {
    /// No attribute: 0 stands for none.
    Unspec,
    /// Bytes and packets that were sent, a `GnetStatsBasic`.
    Basic,
    /// The estimated rates, two numbers of 32 bits: bytes and packets a second.
    RateEst,
    /// The length of the queue, and what it dropped, a `GnetStatsQueue`.
    Queue,
    /// Counters of the kind of discipline, a structure of its own.
    App,
    /// The estimated rates, two numbers of 64 bits.
    RateEst64,
    /// Padding, without a meaning.
    Pad,
    /// Bytes and packets that the hardware sent, a `GnetStatsBasic`.
    BasicHw,
    /// Packets that were sent, a number of 64 bits, where 32 bits are too few.
    Pkt64,
    /// A number without a name.
    UnrecognizedConst(u16),
}

impl TcaStats {
    /// Whether the value is a number without a name, an `UnrecognizedConst`.
    pub fn is_unrecognized(&self) -> bool
        ensures { result ≡ tca_stats_is_unrecognized self.now }
    {
        matches!(self, TcaStats::UnrecognizedConst(_))
    }
}

impl From<u16> for TcaStats {
    ghost from_gives = { λ number value. value ≡ tca_stats_of number };

    fn from(number: u16) -> TcaStats {
        match number {
            0 => TcaStats::Unspec,
            1 => TcaStats::Basic,
            2 => TcaStats::RateEst,
            3 => TcaStats::Queue,
            4 => TcaStats::App,
            5 => TcaStats::RateEst64,
            6 => TcaStats::Pad,
            7 => TcaStats::BasicHw,
            8 => TcaStats::Pkt64,
            _ => TcaStats::UnrecognizedConst(number),
        }
    }
}

impl From<TcaStats> for u16 {
    ghost from_gives = { λ value number. number ≡ tca_stats_number value };

    fn from(value: TcaStats) -> u16 {
        match value {
            TcaStats::Unspec => 0,
            TcaStats::Basic => 1,
            TcaStats::RateEst => 2,
            TcaStats::Queue => 3,
            TcaStats::App => 4,
            TcaStats::RateEst64 => 5,
            TcaStats::Pad => 6,
            TcaStats::BasicHw => 7,
            TcaStats::Pkt64 => 8,
            TcaStats::UnrecognizedConst(number) => number,
        }
    }
}

impl Constant for TcaStats {
    type Number = u16;

    ghost wire_number = { tca_stats_number };

    ghost wire_value = { tca_stats_of };

    fn from_wire(number: u16) -> TcaStats {
        TcaStats::from(number)
    }

    fn to_wire(&self) -> u16 {
        u16::from(*self)
    }

    ghost back_to_number = { λ n _. Prim.search (first_with-number, rules) };
}

impl RtaType for TcaStats {}
