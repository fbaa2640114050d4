//! Numbers and texts of a payload. They take no memory.

ghost use Rattle.std.specs.Prelude.{◌≡◌, ◌≢◌, ◌≤◌, ◌+◌, All, IfSome, IsNone, drop, length};
ghost use Rattle.byteorder.specs.Endian.{big_number};
ghost use Rattle.neli_wire.specs.Frames.{number_in};
ghost use Rattle.neli_c_parts.specs.Codes.{ok, text};
ghost use Rattle.neli_c.specs.Reads.{BeginsWithText, number_code};

use byteorder::{BigEndian, ByteOrder, LittleEndian};
use neli_c_parts::code::{OK, SHORT, TEXT};

/// The bytes from a place on, if there are so many.
fn at(bytes: &[u8], place: usize, size: usize) -> Option<&[u8]>
    ensures some { IfSome result
        (λ field. (place + size ≤ length bytes.now) × (field.now ≡ drop place bytes.now)) }
    ensures none { IsNone result → length bytes.now + 1 ≤ place + size }
{
    if bytes.len() < size || bytes.len() - size < place {
        return None;
    }
    Some(&bytes[place..])
}

/// Reads the number of one byte at a place.
///
/// Returns `OK`, or `SHORT` if the bytes end before the number does; then `value` is unchanged.
#[unsafe(no_mangle)]
pub extern "C" fn neli_c_get_u8(bytes: &[u8], place: usize, value: &mut u8) -> i32
    ensures code { result ≡ number_code 1 place (length bytes.now) }
    ensures value { result ≡ ok → value.new ≡ number_in 1 place bytes.now }
    ensures unchanged { result ≢ ok → value.new ≡ value.old }
{
    let Some(field) = at(bytes, place, 1) else {
        return SHORT;
    };
    *value = field[0];
    OK
}

/// Reads the number of two bytes at a place, the lowest byte first.
///
/// Returns `OK`, or `SHORT` if the bytes end before the number does; then `value` is unchanged.
#[unsafe(no_mangle)]
pub extern "C" fn neli_c_get_u16(bytes: &[u8], place: usize, value: &mut u16) -> i32
    ensures code { result ≡ number_code 2 place (length bytes.now) }
    ensures value { result ≡ ok → value.new ≡ number_in 2 place bytes.now }
    ensures unchanged { result ≢ ok → value.new ≡ value.old }
{
    let Some(field) = at(bytes, place, 2) else {
        return SHORT;
    };
    *value = LittleEndian::read_u16(field);
    OK
}

/// Reads the number of four bytes at a place, the lowest byte first.
///
/// Returns `OK`, or `SHORT` if the bytes end before the number does; then `value` is unchanged.
#[unsafe(no_mangle)]
pub extern "C" fn neli_c_get_u32(bytes: &[u8], place: usize, value: &mut u32) -> i32
    ensures code { result ≡ number_code 4 place (length bytes.now) }
    ensures value { result ≡ ok → value.new ≡ number_in 4 place bytes.now }
    ensures unchanged { result ≢ ok → value.new ≡ value.old }
{
    let Some(field) = at(bytes, place, 4) else {
        return SHORT;
    };
    *value = LittleEndian::read_u32(field);
    OK
}

/// Reads the number of eight bytes at a place, the lowest byte first.
///
/// Returns `OK`, or `SHORT` if the bytes end before the number does; then `value` is unchanged.
#[unsafe(no_mangle)]
pub extern "C" fn neli_c_get_u64(bytes: &[u8], place: usize, value: &mut u64) -> i32
    ensures code { result ≡ number_code 8 place (length bytes.now) }
    ensures value { result ≡ ok → value.new ≡ number_in 8 place bytes.now }
    ensures unchanged { result ≢ ok → value.new ≡ value.old }
{
    let Some(field) = at(bytes, place, 8) else {
        return SHORT;
    };
    *value = LittleEndian::read_u64(field);
    OK
}

/// Reads the number of two bytes at a place, in network order: the highest byte first.
///
/// Returns `OK`, or `SHORT` if the bytes end before the number does; then `value` is unchanged.
#[unsafe(no_mangle)]
pub extern "C" fn neli_c_get_be16(bytes: &[u8], place: usize, value: &mut u16) -> i32
    ensures code { result ≡ number_code 2 place (length bytes.now) }
    ensures value { result ≡ ok → value.new ≡ big_number 2 (drop place bytes.now) }
    ensures unchanged { result ≢ ok → value.new ≡ value.old }
{
    let Some(field) = at(bytes, place, 2) else {
        return SHORT;
    };
    *value = BigEndian::read_u16(field);
    OK
}

/// Reads the number of four bytes at a place, in network order: the highest byte first.
///
/// Returns `OK`, or `SHORT` if the bytes end before the number does; then `value` is unchanged.
#[unsafe(no_mangle)]
pub extern "C" fn neli_c_get_be32(bytes: &[u8], place: usize, value: &mut u32) -> i32
    ensures code { result ≡ number_code 4 place (length bytes.now) }
    ensures value { result ≡ ok → value.new ≡ big_number 4 (drop place bytes.now) }
    ensures unchanged { result ≢ ok → value.new ≡ value.old }
{
    let Some(field) = at(bytes, place, 4) else {
        return SHORT;
    };
    *value = BigEndian::read_u32(field);
    OK
}

/// Reads the number of eight bytes at a place, in network order: the highest byte first.
///
/// Returns `OK`, or `SHORT` if the bytes end before the number does; then `value` is unchanged.
#[unsafe(no_mangle)]
pub extern "C" fn neli_c_get_be64(bytes: &[u8], place: usize, value: &mut u64) -> i32
    ensures code { result ≡ number_code 8 place (length bytes.now) }
    ensures value { result ≡ ok → value.new ≡ big_number 8 (drop place bytes.now) }
    ensures unchanged { result ≢ ok → value.new ≡ value.old }
{
    let Some(field) = at(bytes, place, 8) else {
        return SHORT;
    };
    *value = BigEndian::read_u64(field);
    OK
}

/// The place of the first zero byte.
fn first_zero(bytes: &[u8]) -> Option<usize>
    ensures some { IfSome result (λ n. BeginsWithText n bytes.now) }
    ensures none { IsNone result → All (λ b. b ≢ 0) bytes.now }
{
    for (i, byte) in bytes.iter().enumerate() {
        if *byte == 0 {
            return Some(i);
        }
    }
    None
}

/// Measures the text at the front of a payload, up to its first zero byte, in bytes.
///
/// Returns `OK`, or `TEXT` if no byte is zero; then `text_length` is unchanged.
#[unsafe(no_mangle)]
pub extern "C" fn neli_c_text_length(payload: &[u8], text_length: &mut usize) -> i32
    ensures length { result ≡ ok → BeginsWithText text_length.new payload.now }
    ensures no_text { result ≢ ok
        → (result ≡ text) × All (λ b. b ≢ 0) payload.now × (text_length.new ≡ text_length.old) }
{
    let Some(length) = first_zero(payload) else {
        return TEXT;
    };
    *text_length = length;
    OK
}
