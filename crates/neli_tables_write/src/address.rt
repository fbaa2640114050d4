//! Addresses, as bytes.

ghost use Rattle.std.specs.Prelude.{◌≡◌, ◌+◌, ◌<◌, [], ◌∷◌, ◌++◌, IfOk, IfSome, OnOk, length};
ghost use Rattle.neli_tables_write.specs.Addresses.{IsByteAt, IsHardwareOf, IsIpv4Of, IsIpv6Of, IsIpOf};

use crate::Why;
use std::alloc::{AllocError, Global};
use std::net::{IpAddr, Ipv4Addr, Ipv6Addr};
use std::str::FromStr;

/// The byte that two hexadecimal digits are from this place on, where the text ends behind them or a colon follows.
fn byte_at(text: &[u8], start: usize) -> Option<u8>
    requires { start + 1 < length text.now }
    ensures { IfSome result (λ b. IsByteAt text.now start b) }
{
    if start + 2 < text.len() && text[start + 2] != b':' {
        return None;
    }
    let mut byte = [0; 1];
    match hex::decode_to_slice(&text[start..start + 2], &mut byte) {
        Ok(()) => Some(byte[0]),
        Err(_) => None,
    }
}

/// Appends a byte.
fn push_byte(bytes: &mut Vec<u8>, byte: u8) -> Result<(), AllocError>
    ensures { OnOk result (bytes.new.items ≡ bytes.old.items ++ byte ∷ []) }
{
    bytes.push(byte)?;
    Ok(())
}

/// The bytes of a hardware address: two hexadecimal digits for each, with colons between them; none for the empty
/// text.
///
/// Refused with [`Why::NoAddress`] where the text is none, and with [`Why::Memory`].
pub fn hardware_bytes(alloc: Global, text: &str) -> Result<Vec<u8>, Why>
    ensures { IfOk result (λ bytes. IsHardwareOf text.now bytes.items) }
{
    let text = text.as_bytes();
    let mut bytes = Vec::new(alloc);
    if text.is_empty() {
        return Ok(bytes);
    }
    if text.len() % 3 != 2 {
        return Err(Why::NoAddress);
    }
    for place in 0..text.len() / 3 + 1 {
        let byte = byte_at(text, place * 3).ok_or(Why::NoAddress)?;
        push_byte(&mut bytes, byte)?;
    }
    Ok(bytes)
}

/// The four bytes of an IPv4 address.
///
/// Refused with [`Why::NoAddress`] where the text is none, and with [`Why::Memory`].
pub fn ipv4_bytes(alloc: Global, text: &str) -> Result<Vec<u8>, Why>
    ensures { IfOk result (λ bytes. IsIpv4Of text.now bytes.items) }
{
    match Ipv4Addr::from_str(text) {
        Ok(address) => Ok(Vec::from_slice(alloc, &address.octets())?),
        Err(_) => Err(Why::NoAddress),
    }
}

/// The sixteen bytes of an IPv6 address.
///
/// Refused with [`Why::NoAddress`] where the text is none, and with [`Why::Memory`].
pub fn ipv6_bytes(alloc: Global, text: &str) -> Result<Vec<u8>, Why>
    ensures { IfOk result (λ bytes. IsIpv6Of text.now bytes.items) }
{
    match Ipv6Addr::from_str(text) {
        Ok(address) => Ok(Vec::from_slice(alloc, &address.octets())?),
        Err(_) => Err(Why::NoAddress),
    }
}

/// The bytes of an address of either sort: four, or sixteen.
///
/// Refused with [`Why::NoAddress`] where the text is none, and with [`Why::Memory`].
pub fn ip_bytes(alloc: Global, text: &str) -> Result<Vec<u8>, Why>
    ensures { IfOk result (λ bytes. IsIpOf text.now bytes.items) }
{
    match IpAddr::from_str(text) {
        Ok(IpAddr::V4(address)) => Ok(Vec::from_slice(alloc, &address.octets())?),
        Ok(IpAddr::V6(address)) => Ok(Vec::from_slice(alloc, &address.octets())?),
        Err(_) => Err(Why::NoAddress),
    }
}
