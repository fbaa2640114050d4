//! IP addresses, and addresses of sockets.

ghost use Rattle.std.specs.Prelude.{◌≡◌, Some};
ghost use Rattle.neli_tables_walk.specs.Addresses.{ip_json, ip_in_text, is_v4, is_v6, socket_json};
ghost use Rattle.neli_tables_walk.specs.Addresses.{socket_text};

use crate::hex::{Bytes, BytesJson};
use byteorder::{BigEndian, ByteOrder, LittleEndian};
use std::fmt;
use std::net::IpAddr;

/// `AF_INET` of `linux/socket.h`.
const INET: u16 = 2;

/// `AF_INET6` of `linux/socket.h`.
const INET6: u16 = 10;

/// Four bytes as an IPv4 address, sixteen as an IPv6 address, and others as bytes.
#[derive(Clone, Copy)]
pub struct AddressText<'b>(pub &'b [u8]);

impl fmt::Display for AddressText<'_> {
    ghost output = { λ a. Some (ip_in_text a.0.now) };

    fn fmt<W: fmt::Write>(&self, f: &mut fmt::Formatter<W>) -> fmt::Result {
        if let Ok(four) = <[u8; 4]>::try_from(self.0) {
            let address = IpAddr::from(four);
            return write!(f, "{address}");
        }
        match <[u8; 16]>::try_from(self.0) {
            Ok(sixteen) => {
                let address = IpAddr::from(sixteen);
                write!(f, "{address}")
            }
            Err(_) => {
                let bytes = Bytes(self.0);
                write!(f, "{bytes}")
            }
        }
    }
}

/// The same in JSON: an address is a string.
#[derive(Clone, Copy)]
pub struct AddressJson<'b>(pub &'b [u8]);

impl fmt::Display for AddressJson<'_> {
    ghost output = { λ a. Some (ip_json a.0.now) };

    fn fmt<W: fmt::Write>(&self, f: &mut fmt::Formatter<W>) -> fmt::Result {
        if self.0.len() == 4 || self.0.len() == 16 {
            let address = AddressText(self.0);
            write!(f, "\"{address}\"")
        } else {
            let bytes = BytesJson(self.0);
            write!(f, "{bytes}")
        }
    }
}

/// Whether bytes are a `struct sockaddr_in` of `linux/in.h`.
pub fn is_v4(bytes: &[u8]) -> bool
    ensures { result ≡ is_v4 bytes.now }
{
    bytes.len() == 16 && LittleEndian::read_u16(bytes) == INET
}

/// Whether bytes are a `struct sockaddr_in6` of `linux/in6.h`.
pub fn is_v6(bytes: &[u8]) -> bool
    ensures { result ≡ is_v6 bytes.now }
{
    bytes.len() == 28 && LittleEndian::read_u16(bytes) == INET6
}

/// The address of a socket as text: `address 192.0.2.1 port 53`, and for IPv6 also its flow and its
/// scope. Others are bytes.
#[derive(Clone, Copy)]
pub struct SocketText<'b>(pub &'b [u8]);

impl fmt::Display for SocketText<'_> {
    ghost output = { λ s. Some (socket_text s.0.now) };

    fn fmt<W: fmt::Write>(&self, f: &mut fmt::Formatter<W>) -> fmt::Result {
        let bytes = self.0;
        if is_v4(bytes) {
            let (address, port) = (AddressText(&bytes[4..8]), BigEndian::read_u16(&bytes[2..4]));
            write!(f, "address {address} port {port}")
        } else if is_v6(bytes) {
            let (address, port) = (
                AddressText(&bytes[8..24]),
                BigEndian::read_u16(&bytes[2..4]),
            );
            let flow = BigEndian::read_u32(&bytes[4..8]);
            let scope = LittleEndian::read_u32(&bytes[24..28]);
            write!(
                f,
                "address {address} port {port} flowinfo {flow} scope_id {scope}"
            )
        } else {
            let bytes = Bytes(bytes);
            write!(f, "{bytes}")
        }
    }
}

/// The address of a socket in JSON: an object.
#[derive(Clone, Copy)]
pub struct SocketJson<'b>(pub &'b [u8]);

impl fmt::Display for SocketJson<'_> {
    ghost output = { λ s. Some (socket_json s.0.now) };

    fn fmt<W: fmt::Write>(&self, f: &mut fmt::Formatter<W>) -> fmt::Result {
        let bytes = self.0;
        if is_v4(bytes) {
            let (address, port) = (AddressJson(&bytes[4..8]), BigEndian::read_u16(&bytes[2..4]));
            write!(f, "{{\"address\":{address},\"port\":{port}}}")
        } else if is_v6(bytes) {
            let (address, port) = (
                AddressJson(&bytes[8..24]),
                BigEndian::read_u16(&bytes[2..4]),
            );
            let flow = BigEndian::read_u32(&bytes[4..8]);
            let scope = LittleEndian::read_u32(&bytes[24..28]);
            write!(
                f,
                "{{\"address\":{address},\"port\":{port},\"flowinfo\":{flow},\"scope_id\":{scope}}}"
            )
        } else {
            let bytes = BytesJson(bytes);
            write!(f, "{bytes}")
        }
    }
}
