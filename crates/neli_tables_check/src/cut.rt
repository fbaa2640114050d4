//! Lists, as the kernel's parsers cut them.

ghost use Rattle.std.specs.Prelude.{◌≡◌, ◌≤◌, IfSome, length, drop};
ghost use Rattle.std.specs.Option.{option_map};
ghost use Rattle.neli_tables_check.specs.Cuts.{behind, entry_number, entry_size, is_flagged};
ghost use Rattle.neli_tables_check.specs.Cuts.{last_payload, payload_or, type_field};

use byteorder::{ByteOrder, LittleEndian};
use neli_consts::ATTRIBUTE_HEADER_SIZE;
use neli_wire::alignto;

/// The flag `NLA_F_NESTED`, and the first number that is none of an attribute.
const NESTED: u16 = 0x8000;

const NUMBERS: u16 = 0x4000;

/// The size in bytes of the entry that these begin with: an attribute or a hop, of which so many stand at the front.
pub fn entry_size(front: usize, bytes: &[u8]) -> Option<usize>
    requires { 4 ≤ front }
    ensures size { result ≡ entry_size front bytes.now }
    ensures within { IfSome result (λ size. size ≤ length bytes.now) }
    ensures least { IfSome result (λ size. 4 ≤ size) }
    ensures short { IfSome result (λ size. size ≤ 65535) }
{
    if bytes.len() < front {
        return None;
    }
    let size = LittleEndian::read_u16(&bytes[..2]) as usize;
    if front <= size && size <= bytes.len() {
        Some(size)
    } else {
        None
    }
}

/// What follows an entry of this size.
pub fn behind(size: usize, bytes: &[u8]) -> &[u8]
    requires { size ≤ 65535 }
    ensures { result.now ≡ behind size bytes.now }
{
    bytes.get(alignto(size)..).unwrap_or(&[])
}

/// The type field of an attribute.
fn type_field(entry: &[u8]) -> u16
    requires { 4 ≤ length entry.now }
    ensures { result ≡ type_field entry.now }
{
    LittleEndian::read_u16(&entry[2..4])
}

/// The number of an attribute.
pub fn entry_number(entry: &[u8]) -> u16
    requires { 4 ≤ length entry.now }
    ensures { result ≡ entry_number entry.now }
{
    type_field(entry) % NUMBERS
}

/// Whether an attribute has the flag of a nest.
pub fn is_flagged(entry: &[u8]) -> bool
    requires { 4 ≤ length entry.now }
    ensures { result ≡ is_flagged entry.now }
{
    NESTED <= type_field(entry)
}

/// The payload of an attribute.
pub fn payload_in(entry: &[u8]) -> &[u8]
    requires { 4 ≤ length entry.now }
    ensures { result.now ≡ drop 4 entry.now }
{
    &entry[ATTRIBUTE_HEADER_SIZE..]
}

/// The payload of an attribute with this number, or else this one.
fn payload_or<'b>(number: u64, entry: &'b [u8], before: Option<&'b [u8]>) -> Option<&'b [u8]>
    requires { 4 ≤ length entry.now }
    ensures { option_map (λ payload. payload.now) result
        ≡ payload_or number entry.now (option_map (λ payload. payload.now) before.entry) }
{
    if entry_number(entry) as u64 == number {
        Some(payload_in(entry))
    } else {
        before
    }
}

/// The payload of the last attribute of a list with this number.
pub fn last_payload(number: u64, bytes: &[u8]) -> Option<&[u8]>
    ensures { option_map (λ payload. payload.now) result ≡ last_payload number bytes.now }
{
    let (mut left, mut rest, mut found) = (bytes.len(), bytes, None);
    while 0 < left {
        let Some(size) = entry_size(ATTRIBUTE_HEADER_SIZE, rest) else {
            return found;
        };
        found = payload_or(number, &rest[..size], found);
        rest = behind(size, rest);
        left -= 1;
    }
    found
}
