//! Netlink, proved: the whole library under the module paths of the Rust crate neli 0.7.5.
//!
//! A program names only this crate. It has no sockets: requests are bytes for a link of your own, and you pass in the
//! datagrams that arrive. A call that allocates returns a `Result`.
//!
//! | You want | Use |
//! |---|---|
//! | to read, build and write messages | [`nl`], [`iter`] |
//! | to look up and nest attributes | [`attr`], [`genl`], [`rtnl`], [`types`] |
//! | each reply at its request | [`router::synchronous`] |
//! | the same without copies, where an answer ends by its protocol | [`session`] |
//! | a table of links, addresses, routes that is kept current | [`cache`] |
//! | numbers and flags of the kernel's headers | [`consts`] |
//! | the calls that a program writes most, each in one line | [`short`] |
//! | to look at a few fields of many messages, without a copy | [`lent`] |
//! | attributes by name, a request checked, a refusal explained | [`schema`] |
//! | a message as text or as JSON | [`show`] |
//! | to write and read types of your own | the traits of this page, [`implementing`] |
//! | refusals, and a kernel's errors | [`err`] |
//! | multicast groups | [`utils`] |
//!
//! # Link, address and route tools
//!
//! [`rtnl`] has the bodies of links, addresses, neighbours, routes, queues and rules, each with a builder, and their
//! attributes; [`consts::rtnl`] the values of their fields; [`rtnl::linux`] and [`consts::linux`] what newer kernels
//! added. This sets a link up:
//!
//! ```
//! use neli::consts::nl::NlmF;
//! use neli::consts::rtnl::{RtAddrFamily, Rtm};
//! use neli::rtnl::IfinfomsgBuilder;
//! use neli::short::{Client, Next};
//!
//! let up = IfinfomsgBuilder::default()
//!     .ifi_family(RtAddrFamily::Unspecified)
//!     .ifi_index(3)
//!     .up()
//!     .build(alloc)?;
//! let mut request = router.request(alloc, Rtm::Setlink, NlmF::ACK, up)?;
//! // Your link sends `request.bytes`, and `datagram` comes back.
//! router.receive_for(alloc, datagram, &[])?;
//! let answer = router.next(alloc, &mut request.handle)?;
//! let is_up = matches!(answer, Next::Message(_)); // what the kernel refused is an error
//! ```
//!
//! # A client of generic netlink
//!
//! [`genl`] has the body and its attributes, [`consts::genl`] the controller's numbers. The controller returns a
//! family's number by its name; the family's commands and attributes are numbers, or enums of your own. A request to a
//! family:
//!
//! ```
//! use neli::consts::nl::NlmF;
//! use neli::genl::GenlmsghdrBuilder;
//! use neli::router::synchronous::resolve_genl_family;
//! use neli::short::Client;
//!
//! let (_request, mut handle) = router.request_genl_family(alloc, "tcp_metrics")?;
//! // Your link sends the request, and `datagram` comes back.
//! router.receive_for(alloc, datagram, &[])?;
//! let items = router.read_dump(alloc, &mut handle)?.items;
//! let family = resolve_genl_family(alloc, "tcp_metrics", items)?;
//! // Command 1 of the family, whose number is the type of the message.
//! let command = GenlmsghdrBuilder::<u8, u16>::default()
//!     .cmd(1)
//!     .version(1)
//!     .build(alloc)?;
//! let request = router.request(alloc, family, NlmF::DUMP, command)?;
//! ```
//!
//! # Process events
//!
//! [`connector`] has the message and the events. The request is the payload of a message of type `Nlmsg::Done`; events
//! arrive for a group, so a router delivers them to multicast. This reads a datagram without a router:
//!
//! ```
//! use neli::connector::{CnMsg, CnMsgBuilder, ProcEvent, ProcEventHeader};
//! use neli::consts::connector::{CnMsgIdx, CnMsgVal, ProcCnMcastOp};
//! use neli::iter::cut;
//!
//! let request = CnMsgBuilder::default()
//!     .idx(CnMsgIdx::Proc)
//!     .val(CnMsgVal::Proc)
//!     .payload(ProcCnMcastOp::Listen)
//!     .build()?;
//! let mut ended = Vec::new(alloc);
//! let (messages, _fault) = cut::<u16, CnMsg<ProcEventHeader>>(alloc, datagram)?;
//! for body in messages.iter().filter_map(|message| message.get_payload()) {
//!     let event = body.payload().event;
//!     if let ProcEvent::Exit {
//!         process_pid,
//!         exit_code,
//!         ..
//!     } = event
//!     {
//!         ended.push((process_pid, exit_code))?;
//!     }
//! }
//! ```
//!
//! # A simulator
//!
//! A kernel's answers are built and written like requests, by hand as here, or by [`simulator`], which makes its
//! acknowledgements, errors, replies, dumps and notifications. [`router::synchronous::run`] performs a whole list of
//! commands on one router, and returns the outcome of each. This answers a request for a link:
//!
//! ```
//! use neli::consts::nl::NlmF;
//! use neli::consts::rtnl::Rtm;
//! use neli::nl::{NlPayload, Nlmsghdr, NlmsghdrBuilder};
//! use neli::rtnl::Ifinfomsg;
//! use neli::{Cursor, FromBytes, ToBytes};
//!
//! let request = Nlmsghdr::<Rtm, Ifinfomsg>::from_bytes(alloc, &mut Cursor::new(asked))?;
//! let reply = NlmsghdrBuilder::default()
//!     .nl_type(Rtm::Newlink)
//!     .nl_flags(NlmF::empty())
//!     .nl_seq(*request.nl_seq())
//!     .nl_pid(*request.nl_pid())
//!     .nl_payload(NlPayload::Payload(link))
//!     .build()?;
//! let mut datagram = Vec::new(alloc);
//! reply.to_bytes(&mut datagram)?;
//! ```
//!
//! These examples are tests, line by line: `crates/neli_tests/src/tests/tour.rt`.
#![tactic(auto)]

pub mod attr;
pub mod cache;
pub mod connector;
pub mod consts;
pub mod err;
pub mod genl;
pub mod implementing;
pub mod iter;
pub mod nl;
pub mod router;
pub mod rtnl;
pub mod schema;
pub mod session;
pub mod short;
pub mod show;
pub mod simulator;
pub mod types;
pub mod utils;

pub use neli_lent as lent;
pub use neli_wire::{
    BeU16, BeU32, BeU64, Cursor, FromBytes, FromBytesWithInput, FromBytesWithInputBorrowed, Header,
    Size, ToBytes, TypeSize, laws,
};
