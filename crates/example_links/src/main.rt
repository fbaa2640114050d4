//! `example_links` prints the links of a host, a line each, from the kernel's answer to a request for all of them.
//!
//! Standard input is the answer: its datagrams one after the other. Here they are recorded, 0215 to 0218 of
//! suites/README.md, so the request has the port and the number of these answers; a program with a socket sends the
//! request in between. The lines in `stdout` are pyroute2's reading of them.
//!
//! The status reports whether the list is complete, by the router's verdict: 0; 2 if it changed meanwhile, 3 if the
//! kernel refused it or ended it with an error, 4 if a part of it is missing or cannot be read; 1 if memory runs out.
//! Standard error gets the cause, after the lines of the links that were read.
#![tactic(auto)]

ghost use Rattle.std.specs.Prelude.{◌≡◌, ◌↔◌, IsOk, length, take};

use neli::Cursor;
use neli::consts::Flags;
use neli::consts::nl::NlmF;
use neli::consts::rtnl::{Iff, Ifla, RtAddrFamily, Rtm};
use neli::err::{DeError, NoMemory, RouterError};
use neli::lent::LentMessage;
use neli::nl::Nlmsghdr;
use neli::router::synchronous::{Log, NlRouter, Verdict};
use neli::rtnl::{HardwareAddress, Ifinfomsg, IfinfomsgBuilder, IfinfomsgBuilderError};
use neli::short::{AttrError, Client, Dump, Lookup};
use std::alloc::{AllocError, Global};
use std::io::{self, Read};
use std::process::ExitCode;
use thiserror::Error;

/// Why the list of links is incomplete. Every refusal of the library becomes one by `?`.
#[derive(Debug, Drop, Error)]
enum Trouble {
    #[error("not readable: {0}")]
    Read(#[from] DeError),
    #[error("not readable: {0}")]
    Attribute(#[from] AttrError),
    #[error("a link has no name or no MTU")]
    Bare,
    #[error("no request: {0}")]
    Build(#[from] IfinfomsgBuilderError),
    #[error("no answer: {0}")]
    Answer(#[from] RouterError<Rtm, Ifinfomsg>),
    #[error("the answer does not end")]
    NoEnd,
    #[error("what is listed changed meanwhile: ask again")]
    Interrupted,
    #[error("the kernel ended the list with the code {0}")]
    Failed(i32),
    #[error("a part of the answer was lost")]
    Lost,
    #[error("out of memory")]
    Memory(#[from] NoMemory),
    #[error("out of memory for a line")]
    Line(#[from] AllocError),
}

/// The line of a link: `3 veth0 mtu 1400 up 02:00:00:00:00:01`. Refused if it has no name or no MTU.
fn line_of(alloc: Global, body: &Ifinfomsg) -> Result<String, Trouble> {
    let attrs = body.rtattrs();
    let name = attrs.get_str(Ifla::Ifname)?.ok_or(Trouble::Bare)?;
    let mtu: u32 = attrs.get(alloc, Ifla::Mtu)?.ok_or(Trouble::Bare)?;
    let address: Option<HardwareAddress> = attrs.get_with_len(alloc, Ifla::Address)?;
    let flags = body.ifi_flags();
    let is_up = flags.contains(Iff::UP);
    let state = if is_up { "up" } else { "down" };
    let mut line = format!(in alloc; "{} {name} mtu {mtu} {state}", body.ifi_index())?;
    for (flag, word) in [(Iff::LOOPBACK, ",loopback"), (Iff::NOARP, ",noarp")] {
        if flags.contains(flag) {
            line.push_str(word)?;
        }
    }
    match address {
        Some(address) => Ok(format!(in alloc; "{line} {address}")?),
        None => Ok(format!(in alloc; "{line} none")?),
    }
}

/// Appends the line of a message that is a link; the end of the list is none.
fn add_line(
    alloc: Global,
    message: &Nlmsghdr<Rtm, Ifinfomsg>,
    lines: &mut Vec<String>,
) -> Result<(), Trouble>
    ensures kept { take (length lines.old.items) lines.new.items ≡ lines.old.items }
{
    if let Some(body) = message.get_payload() {
        lines.push(line_of(alloc, body)?).map_err(NoMemory::from)?;
    }
    Ok(())
}

/// Why an answer is incomplete.
fn trouble_of(verdict: Verdict) -> Trouble {
    match verdict {
        Verdict::Interrupted => Trouble::Interrupted,
        Verdict::Failed(code) => Trouble::Failed(code),
        Verdict::Lost(_) => Trouble::Lost,
        Verdict::Pending | Verdict::Complete => Trouble::NoEnd,
    }
}

/// Refused if an answer is incomplete.
fn want_all(verdict: Verdict) -> Result<(), Trouble>
    ensures complete { IsOk result ↔ (verdict ≡ Verdict.Complete) }
{
    if verdict == Verdict::Complete {
        return Ok(());
    }
    Err(trouble_of(verdict))
}

/// The status for this verdict.
fn status_of(trouble: &Trouble) -> u8 {
    match trouble {
        Trouble::Build(_) | Trouble::Memory(_) | Trouble::Line(_) => 1,
        Trouble::Answer(RouterError::Memory) => 1,
        Trouble::Interrupted => 2,
        Trouble::Failed(_) => 3,
        Trouble::Answer(RouterError::Nlmsgerr(_)) => 3,
        Trouble::Answer(RouterError::Capped(_)) => 3,
        _ => 4,
    }
}

/// The links of all families, as a request's body.
fn all_links(alloc: Global) -> Result<Ifinfomsg, Trouble> {
    Ok(
        IfinfomsgBuilder::default()
            .ifi_family(RtAddrFamily::Unspecified)
            .build(alloc)?,
    )
}

/// A router with the port and the next number of the answer's first message.
fn router_for(alloc: Global, datagrams: &[u8]) -> Result<NlRouter, Trouble> {
    let first = LentMessage::<u16>::lend(&mut Cursor::new(datagrams))?;
    let (mut router, _multicast) = NlRouter::<Log>::new(alloc, *first.nl_pid());
    router.set_next_seq(*first.nl_seq());
    Ok(router)
}

/// Requests all links, and returns the answer.
fn answer(alloc: Global, datagrams: &[u8]) -> Result<Dump<Rtm, Ifinfomsg>, Trouble> {
    let mut router = router_for(alloc, datagrams)?;
    let mut request = router.request(alloc, Rtm::Getlink, NlmF::DUMP, all_links(alloc)?)?;
    // A socket sends `request.bytes` here, and gives the datagrams.
    router.receive_for(alloc, datagrams, &[])?;
    Ok(router.read_dump(alloc, &mut request.handle)?)
}

/// Appends the line of each link in the answer.
fn read_links(alloc: Global, datagrams: &[u8], lines: &mut Vec<String>) -> Result<(), Trouble>
    ensures kept { take (length lines.old.items) lines.new.items ≡ lines.old.items }
{
    let Dump { items, verdict } = answer(alloc, datagrams)?;
    for item in items {
        add_line(alloc, &item?, lines)?;
    }
    want_all(verdict)
}

fn main(rt: HostRuntime) -> io::Result<ExitCode> {
    let alloc = rt.alloc();
    let mut datagrams = Vec::new(alloc);
    rt.stdin().read_to_end(&mut datagrams)?;
    let mut lines = Vec::new(alloc);
    let read = read_links(alloc, &datagrams, &mut lines);
    for line in &lines {
        println!(rt; "{line}")?;
    }
    if let Err(error) = read {
        eprintln!(rt; "example_links: {error}")?;
        return Ok(ExitCode::from(status_of(&error)));
    }
    Ok(ExitCode::from(0))
}
