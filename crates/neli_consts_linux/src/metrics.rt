//! Metrics of routes.

ghost use Rattle.std.proofs.Common.{rules};
ghost use Rattle.std.specs.Prelude.{◌≡◌};
ghost use Rattle.neli_consts_linux.specs.Rtax.{rtax_number, rtax_of, rtax_is_unrecognized};
ghost use Rattle.neli_wire.specs.laws.Constants.{first_with-number};

use neli_consts_attrs::RtaType;
use neli_wire::Constant;

/// Attributes inside [`Rta::Metrics`](neli_consts_attrs::Rta::Metrics), the metrics of a route:
/// `RTAX_*` of `linux/rtnetlink.h`.
#[derive(Clone, Copy, Debug, PartialEq, Eq)]
pub enum Rtax {
    /// No attribute: 0 stands for none.
    Unspec,
    /// A bit for each metric that the kernel must not change.
    Lock,
    /// The largest packet of the path, in bytes.
    Mtu,
    /// The largest TCP window, in bytes.
    Window,
    /// The round-trip time, in eighths of a millisecond.
    Rtt,
    /// The variance of the round-trip time, in quarters of a millisecond.
    Rttvar,
    /// The slow start threshold, in segments.
    Ssthresh,
    /// The largest congestion window, in segments; only where it is locked.
    Cwnd,
    /// The largest segment that is announced, in bytes.
    Advmss,
    /// How many segments may arrive out of order.
    Reordering,
    /// The hop limit of packets.
    Hoplimit,
    /// The congestion window of a new connection, in segments.
    Initcwnd,
    /// Features of the route, a bit for each.
    Features,
    /// The least time before a segment is sent again, in milliseconds.
    RtoMin,
    /// The receive window of a new connection, in segments.
    Initrwnd,
    /// Whether acknowledgements are sent at once.
    Quickack,
    /// The congestion control algorithm, by name.
    CcAlgo,
    /// Whether TCP Fast Open needs no cookie.
    FastopenNoCookie,
    /// A number without a name.
    UnrecognizedConst(u16),
}

impl Rtax {
    /// Whether the value is a number without a name, an `UnrecognizedConst`.
    pub fn is_unrecognized(&self) -> bool
        ensures { result ≡ rtax_is_unrecognized self.now }
    {
        matches!(self, Rtax::UnrecognizedConst(_))
    }
}

impl From<u16> for Rtax {
    ghost from_gives = { λ number value. value ≡ rtax_of number };

    fn from(number: u16) -> Rtax {
        match number {
            0 => Rtax::Unspec,
            1 => Rtax::Lock,
            2 => Rtax::Mtu,
            3 => Rtax::Window,
            4 => Rtax::Rtt,
            5 => Rtax::Rttvar,
            6 => Rtax::Ssthresh,
            7 => Rtax::Cwnd,
            8 => Rtax::Advmss,
            9 => Rtax::Reordering,
            10 => Rtax::Hoplimit,
            11 => Rtax::Initcwnd,
            12 => Rtax::Features,
            13 => Rtax::RtoMin,
            14 => Rtax::Initrwnd,
            15 => Rtax::Quickack,
            16 => Rtax::CcAlgo,
            17 => Rtax::FastopenNoCookie,
            _ => Rtax::UnrecognizedConst(number),
        }
    }
}

impl From<Rtax> for u16 {
    ghost from_gives = { λ value number. number ≡ rtax_number value };

    fn from(value: Rtax) -> u16 {
        match value {
            Rtax::Unspec => 0,
            Rtax::Lock => 1,
            Rtax::Mtu => 2,
            Rtax::Window => 3,
            Rtax::Rtt => 4,
            Rtax::Rttvar => 5,
            Rtax::Ssthresh => 6,
            Rtax::Cwnd => 7,
            Rtax::Advmss => 8,
            Rtax::Reordering => 9,
            Rtax::Hoplimit => 10,
            Rtax::Initcwnd => 11,
            Rtax::Features => 12,
            Rtax::RtoMin => 13,
            Rtax::Initrwnd => 14,
            Rtax::Quickack => 15,
            Rtax::CcAlgo => 16,
            Rtax::FastopenNoCookie => 17,
            Rtax::UnrecognizedConst(number) => number,
        }
    }
}

impl Constant for Rtax {
    type Number = u16;

    ghost wire_number = { rtax_number };

    ghost wire_value = { rtax_of };

    fn from_wire(number: u16) -> Rtax {
        Rtax::from(number)
    }

    fn to_wire(&self) -> u16 {
        u16::from(*self)
    }

    ghost back_to_number = { λ n _. Prim.search (first_with-number, rules) };
}

impl RtaType for Rtax {}
