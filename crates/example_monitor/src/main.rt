//! `example_monitor` prints a host's notifications, a line each: links, addresses, routes and neighbours; for every
//! other message the number of its type and its length.
//!
//! Standard input is the notifications: their datagrams one after the other. They are walked without a copy, and each
//! body is read by the type of its message, so an unknown type causes no refusal.
//!
//! A fault is reported on standard error, after the lines of the messages before it, and the status is 1. The recording
//! beside this program, 24 of the datagrams 0004 to 0446 of suites/README.md, ends within 0453, as if cut off. Its
//! lines in `stdout` are those of iproute2's `ip -d monitor all file`.
#![tactic(auto)]

ghost use Rattle.std.specs.Prelude.{◌≡◌, ◌+◌, OnOk, length};
ghost use Rattle.neli.specs.consts_routing.Rtm.{rtm_of};
ghost use Rattle.neli.specs.lent.Messages.{messages_in};
ghost use Rattle.neli.specs.lent.Walks.{items_of};

use neli::consts::Flags;
use neli::consts::nl::NlType;
use neli::consts::rtnl::{Ifa, Iff, Ifla, Nda, Rta, Rtm};
use neli::err::DeError;
use neli::implementing::{read_first, read_whole};
use neli::lent::{LentMessage, LentMessages};
use neli::rtnl::{HardwareAddress, Ifaddrmsg, Ifinfomsg, Ndmsg, Rtmsg};
use neli::short::{AttrError, Lookup};
use std::alloc::{AllocError, Global};
use std::io::{self, Read};
use std::net::{Ipv4Addr, Ipv6Addr};
use std::process::ExitCode;
use thiserror::Error;

/// Why a message has no line. Every refusal of the library becomes one by `?`.
#[derive(Debug, Drop, Error)]
enum Trouble {
    #[error("{0}")]
    Read(#[from] DeError),
    #[error("{0}")]
    Attribute(#[from] AttrError),
    #[error("a link has no name")]
    Nameless,
    #[error("out of memory")]
    Memory(#[from] AllocError),
}

/// The IP or device address in the payload of an attribute, as text; `-` if there is none.
fn text_of(alloc: Global, payload: Option<&[u8]>) -> Result<String, Trouble> {
    let Some(bytes) = payload else {
        return Ok("-".to_string(alloc)?);
    };
    let text = match bytes.len() {
        4 => read_first::<Ipv4Addr>(alloc, bytes)?.to_string(alloc),
        16 => read_first::<Ipv6Addr>(alloc, bytes)?.to_string(alloc),
        _ => read_whole::<HardwareAddress>(alloc, bytes)?.to_string(alloc),
    };
    Ok(text?)
}

/// A link: its number, its name, and whether it is switched on.
fn link_line(alloc: Global, body: &Ifinfomsg) -> Result<String, Trouble> {
    let attrs = body.rtattrs();
    let name = attrs.get_str(Ifla::Ifname)?.ok_or(Trouble::Nameless)?;
    let is_up = body.ifi_flags().contains(Iff::UP);
    let state = if is_up { "up" } else { "down" };
    Ok(format!(in alloc; "{} {name} {state}", body.ifi_index())?)
}

/// An address, or on a link with one other end the address of that end; the bits of its network, and its link.
fn address_line(alloc: Global, body: &Ifaddrmsg) -> Result<String, Trouble> {
    let address = text_of(alloc, body.rtattrs().payload_of(Ifa::Address))?;
    let (bits, link) = (body.ifa_prefixlen(), body.ifa_index());
    Ok(format!(in alloc; "{address}/{bits} link {link}")?)
}

/// A route: its destination, its gateway, and its link; a route with no link has number 0.
fn route_line(alloc: Global, body: &Rtmsg) -> Result<String, Trouble> {
    let attrs = body.rtattrs();
    let to = text_of(alloc, attrs.payload_of(Rta::Dst))?;
    let gateway = text_of(alloc, attrs.payload_of(Rta::Gateway))?;
    let link: u32 = attrs.get(alloc, Rta::Oif)?.unwrap_or(0);
    Ok(format!(in alloc; "{to}/{} via {gateway} link {link}", body.rtm_dst_len())?)
}

/// A neighbour: its address, that of its device, and its link.
fn neighbour_line(alloc: Global, body: &Ndmsg) -> Result<String, Trouble> {
    let attrs = body.rtattrs();
    let address = text_of(alloc, attrs.payload_of(Nda::Dst))?;
    let device = text_of(alloc, attrs.payload_of(Nda::Lladdr))?;
    Ok(format!(in alloc; "{address} at {device} link {}", body.ndm_index())?)
}

/// The line of a message. Refused as its body or an attribute is, or if a link has no name.
fn line_of(alloc: Global, message: &LentMessage<'_, Rtm>) -> Result<String, Trouble> {
    let (kind, payload) = (*message.nl_type(), message.nl_payload());
    let said = match kind {
        Rtm::Newlink | Rtm::Dellink => link_line(alloc, &read_whole(alloc, payload)?)?,
        Rtm::Newaddr | Rtm::Deladdr => address_line(alloc, &read_whole(alloc, payload)?)?,
        Rtm::Newroute | Rtm::Delroute => route_line(alloc, &read_whole(alloc, payload)?)?,
        Rtm::Newneigh | Rtm::Delneigh => neighbour_line(alloc, &read_whole(alloc, payload)?)?,
        _ => {
            let (number, length) = (kind.to_number(), message.nl_len());
            return Ok(format!(in alloc; "type {number}: {length} bytes")?);
        }
    };
    Ok(format!(in alloc; "{kind:?} {said}")?)
}

/// Appends a line for each message, up to the end or to the fault, which it returns.
fn read_lines(alloc: Global, bytes: &[u8], lines: &mut Vec<String>) -> Result<(), Trouble>
    ensures each { OnOk result (length lines.new.items
        ≡ length lines.old.items + length (items_of (messages_in rtm_of bytes.now))) }
{
    for message in LentMessages::<Rtm>::new(bytes) {
        let line = line_of(alloc, &message?)?;
        lines.push(line).map_err(AllocError::from)?;
    }
    Ok(())
}

fn main(rt: HostRuntime) -> io::Result<ExitCode> {
    let alloc = rt.alloc();
    let mut bytes = Vec::new(alloc);
    rt.stdin().read_to_end(&mut bytes)?;
    let mut lines = Vec::new(alloc);
    let read = read_lines(alloc, &bytes, &mut lines);
    for line in &lines {
        println!(rt; "{line}")?;
    }
    if let Err(error) = read {
        eprintln!(rt; "example_monitor: after {} messages: {error}", lines.len())?;
        return Ok(ExitCode::from(1));
    }
    Ok(ExitCode::from(0))
}
