//! When answers come, by protocol.

ghost use Rattle.std.specs.Prelude.{◌≡◌};
ghost use Rattle.neli_answers.specs.Times.{answers_at_once};

use neli_consts_system::NlFamily;

/// Whether the kernel answers a request of this protocol while it is sent, or goes on with its dump whenever the socket
/// is received from. Others may answer later, as audit, or another process.
pub fn answers_at_once(protocol: NlFamily) -> bool
    ensures { result ≡ answers_at_once protocol }
{
    matches!(
        protocol,
        NlFamily::Route
            | NlFamily::Generic
            | NlFamily::Netfilter
            | NlFamily::SockOrInetDiag
            | NlFamily::Xfrm
            | NlFamily::Connector
    )
}
