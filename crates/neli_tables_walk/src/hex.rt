//! Bytes as hexadecimal digits, and what is written with them.

ghost use Rattle.std.specs.Prelude.{◌≡◌, Some};
ghost use Rattle.neli_tables_walk.specs.Hex.{address_text, byte_text, bytes_json, bytes_text};
ghost use Rattle.neli_tables_walk.specs.Hex.{hardware_text};
ghost use Rattle.neli_tables_walk.specs.Hex.{hex_text, later_hex_text, uuid_text};

use std::fmt;
use std::fmt::Display;

/// Two hexadecimal digits for each byte from 0 to 255, one after the other.
const HEX_PAIRS: &str = "\
000102030405060708090a0b0c0d0e0f101112131415161718191a1b1c1d1e1f\
202122232425262728292a2b2c2d2e2f303132333435363738393a3b3c3d3e3f\
404142434445464748494a4b4c4d4e4f505152535455565758595a5b5c5d5e5f\
606162636465666768696a6b6c6d6e6f707172737475767778797a7b7c7d7e7f\
808182838485868788898a8b8c8d8e8f909192939495969798999a9b9c9d9e9f\
a0a1a2a3a4a5a6a7a8a9aaabacadaeafb0b1b2b3b4b5b6b7b8b9babbbcbdbebf\
c0c1c2c3c4c5c6c7c8c9cacbcccdcecfd0d1d2d3d4d5d6d7d8d9dadbdcdddedf\
e0e1e2e3e4e5e6e7e8e9eaebecedeeeff0f1f2f3f4f5f6f7f8f9fafbfcfdfeff";

/// The two hexadecimal digits of a byte.
#[inline(always)]
fn byte_text(byte: u8) -> &'static str
    ensures { result.now ≡ byte_text byte }
{
    let at = byte as usize * 2;
    &HEX_PAIRS[at..at + 2]
}

/// A byte as two hexadecimal digits.
#[derive(Clone, Copy)]
struct HexByte(u8);

impl fmt::Display for HexByte {
    ghost output = { λ b. Some (byte_text b.0) };

    fn fmt<W: fmt::Write>(&self, f: &mut fmt::Formatter<W>) -> fmt::Result {
        f.write_str(byte_text(self.0))
    }
}

/// Bytes as hexadecimal digits, two each, as `0102`.
#[derive(Clone, Copy)]
pub struct Hex<'b>(pub &'b [u8]);

impl fmt::Display for Hex<'_> {
    ghost output = { λ h. Some (hex_text h.0.now) };

    fn fmt<W: fmt::Write>(&self, f: &mut fmt::Formatter<W>) -> fmt::Result {
        for byte in self.0 {
            let byte = HexByte(*byte);
            Display::fmt(&byte, f)?;
        }
        Ok(())
    }
}

/// Bytes as hexadecimal digits, each after a colon.
#[derive(Clone, Copy)]
struct LaterHex<'b>(&'b [u8]);

impl fmt::Display for LaterHex<'_> {
    ghost output = { λ h. Some (later_hex_text h.0.now) };

    fn fmt<W: fmt::Write>(&self, f: &mut fmt::Formatter<W>) -> fmt::Result {
        for byte in self.0 {
            let byte = HexByte(*byte);
            f.write_str(":")?;
            Display::fmt(&byte, f)?;
        }
        Ok(())
    }
}

/// A hardware address, as `02:00:00:00:00:01`; nothing where there are no bytes.
#[derive(Clone, Copy)]
pub struct Hardware<'b>(pub &'b [u8]);

impl fmt::Display for Hardware<'_> {
    ghost output = { λ h. Some (hardware_text h.0.now) };

    fn fmt<W: fmt::Write>(&self, f: &mut fmt::Formatter<W>) -> fmt::Result {
        match self.0 {
            [] => Ok(()),
            [first, later @ ..] => {
                let (first, later) = (HexByte(*first), LaterHex(later));
                Display::fmt(&first, f)?;
                Display::fmt(&later, f)
            }
        }
    }
}

/// A hardware address, or that there is none.
#[derive(Clone, Copy)]
pub(crate) struct HardwareText<'b>(pub &'b [u8]);

impl fmt::Display for HardwareText<'_> {
    ghost output = { λ h. Some (address_text h.0.now) };

    fn fmt<W: fmt::Write>(&self, f: &mut fmt::Formatter<W>) -> fmt::Result {
        match self.0 {
            [] => write!(f, "empty"),
            bytes => {
                let address = Hardware(bytes);
                write!(f, "{address}")
            }
        }
    }
}

/// Bytes as one hexadecimal number, as `0x0102`, or `empty` where there are none.
#[derive(Clone, Copy)]
pub struct Bytes<'b>(pub &'b [u8]);

impl fmt::Display for Bytes<'_> {
    ghost output = { λ b. Some (bytes_text b.0.now) };

    fn fmt<W: fmt::Write>(&self, f: &mut fmt::Formatter<W>) -> fmt::Result {
        match self.0 {
            [] => write!(f, "empty"),
            bytes => {
                let hex = Hex(bytes);
                write!(f, "0x{hex}")
            }
        }
    }
}

/// Bytes in JSON, which has no form for them: an object with their digits, as `{"bytes":"0102"}`.
#[derive(Clone, Copy)]
pub struct BytesJson<'b>(pub &'b [u8]);

impl fmt::Display for BytesJson<'_> {
    ghost output = { λ b. Some (bytes_json b.0.now) };

    fn fmt<W: fmt::Write>(&self, f: &mut fmt::Formatter<W>) -> fmt::Result {
        let hex = Hex(self.0);
        write!(f, "{{\"bytes\":\"{hex}\"}}")
    }
}

/// Sixteen bytes in the form of RFC 4122, as `01020304-0506-0708-090a-0b0c0d0e0f10`; fewer or more
/// as bytes.
#[derive(Clone, Copy)]
pub(crate) struct Uuid<'b>(pub &'b [u8]);

impl fmt::Display for Uuid<'_> {
    ghost output = { λ u. Some (uuid_text u.0.now) };

    fn fmt<W: fmt::Write>(&self, f: &mut fmt::Formatter<W>) -> fmt::Result {
        let bytes = self.0;
        if bytes.len() != 16 {
            let bytes = Bytes(bytes);
            return write!(f, "{bytes}");
        }
        let (first, second, third) = (Hex(&bytes[..4]), Hex(&bytes[4..6]), Hex(&bytes[6..8]));
        let (fourth, last) = (Hex(&bytes[8..10]), Hex(&bytes[10..]));
        write!(f, "{first}-{second}-{third}-{fourth}-{last}")
    }
}
