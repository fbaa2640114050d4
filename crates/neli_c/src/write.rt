//! Messages, attributes and nests, written into the caller's bytes. They take no memory.
//!
//! The bytes before the writer's end and after the written ones are unchanged.

ghost use Rattle.std.specs.Prelude.{◌≡◌, ◌≢◌, ◌≤◌, ◌-◌, ◌+◌, ◌++◌, [], Ok, IfOk, bit_or, length, nat_le};
ghost use Rattle.std.specs.Prelude.{if◌then◌else◌};
ghost use Rattle.byteorder.specs.Endian.{little_bytes};
ghost use Rattle.neli_attr.specs.Attributes.{attribute_wire};
ghost use Rattle.neli_wire.specs.Sizes.{align};
ghost use Rattle.neli_wire.specs.Writing.{pad_wire};
ghost use Rattle.neli_c_parts.specs.Codes.{ok, room};
ghost use Rattle.neli_c_parts.specs.Writes.{attribute_code, header_bytes, message_end_code, nest_end_code, put};
ghost use Rattle.neli_c_parts.specs.Writes.{put_first, start_after};

use byteorder::{ByteOrder, LittleEndian};
use neli_c_parts::code::{LENGTH, OK, PLACE, ROOM};
use neli_consts::{ATTRIBUTE_HEADER_SIZE, MESSAGE_HEADER_SIZE};
use neli_wire::alignto;

/// The maximum size of an attribute in bytes: its length has 16 bits.
const MAX_ATTR_SIZE: usize = 65535;

/// The flag of a type field for a payload that lists attributes (`NLA_F_NESTED` of `linux/netlink.h`).
const NESTED: u16 = 0x8000;

/// The start of a writer that has begun no message: what is put belongs to a body, or to a list of attributes.
const NO_MESSAGE: usize = usize::MAX;

/// A caller's writing position: the message that was begun last, and the end of the written bytes, as places in its
/// bytes. One that starts at its end has begun no message yet, and its first put stores `NO_MESSAGE` as its start.
#[repr(C)]
#[derive(Clone, Copy)]
pub struct NeliWriter {
    pub start: usize,
    pub end: usize,
}

/// Writes a message's header.
fn write_header(out: &mut [u8], nl_type: u16, flags: u16, number: u32, port: u32)
    requires { 16 ≤ length out.old }
    ensures { out.new ≡ put_first (header_bytes 16 nl_type flags number port) out.old }
{
    LittleEndian::write_u32(out, 16);
    LittleEndian::write_u16(&mut out[4..], nl_type);
    LittleEndian::write_u16(&mut out[6..], flags);
    LittleEndian::write_u32(&mut out[8..], number);
    LittleEndian::write_u32(&mut out[12..], port);
}

/// Begins a message at the writer's end, which goes past the header. Its length is 16 until `neli_c_end_message`.
///
/// Returns `OK`, or `ROOM` if 16 bytes do not fit; then nothing is written.
#[unsafe(no_mangle)]
pub extern "C" fn neli_c_begin_message(
    out: &mut [u8],
    writer: &mut NeliWriter,
    nl_type: u16,
    flags: u16,
    number: u32,
    port: u32,
) -> i32
    ensures code { result ≡ (if nat_le (writer.old.end + 16) (length out.old) then ok else room) }
    ensures written { result ≡ ok
        → out.new ≡ put writer.old.end (header_bytes 16 nl_type flags number port) out.old }
    ensures moved { result ≡ ok
        → writer.new ≡ record { start = writer.old.end; end = writer.old.end + 16 } }
    ensures unchanged { result ≢ ok → (out.new ≡ out.old) × (writer.new ≡ writer.old) }
{
    let start = writer.end;
    if out.len() < MESSAGE_HEADER_SIZE || out.len() - MESSAGE_HEADER_SIZE < start {
        return ROOM;
    }
    write_header(&mut out[start..], nl_type, flags, number, port);
    *writer = NeliWriter {
        start,
        end: start + MESSAGE_HEADER_SIZE,
    };
    OK
}

/// Where the last begun message is, once bytes are put at the writer's end.
fn start_after(writer: &NeliWriter) -> usize
    ensures { result ≡ start_after writer.now.start writer.now.end }
{
    if writer.start == writer.end {
        NO_MESSAGE
    } else {
        writer.start
    }
}

/// Writes bytes, and zeros up to a multiple of four.
fn write_padded(out: &mut [u8], bytes: &[u8])
    requires { align (length bytes.now) ≤ length out.old }
    ensures { IfOk (pad_wire (Ok bytes.now)) (λ written. out.new ≡ put_first written out.old) }
{
    let size = bytes.len();
    let end = alignto(size);
    out[..size].copy_from_slice(bytes);
    out[size..end].fill(0);
}

/// Appends bytes, as a body's header, and zeros up to a multiple of four.
///
/// Returns `OK`, or `ROOM` if all these bytes do not fit; then nothing is written.
#[unsafe(no_mangle)]
pub extern "C" fn neli_c_put_bytes(out: &mut [u8], writer: &mut NeliWriter, bytes: &[u8]) -> i32
    ensures code { result ≡ (if nat_le (writer.old.end + align (length bytes.now)) (length out.old)
        then ok else room) }
    ensures written { result ≡ ok → IfOk (pad_wire (Ok bytes.now))
        (λ written. out.new ≡ put writer.old.end written out.old) }
    ensures moved { result ≡ ok → writer.new ≡ record {
      start = start_after writer.old.start writer.old.end;
      end = writer.old.end + align (length bytes.now);
    } }
    ensures unchanged { result ≢ ok → (out.new ≡ out.old) × (writer.new ≡ writer.old) }
{
    let start = writer.end;
    let size = alignto(bytes.len());
    if out.len() < size || out.len() - size < start {
        return ROOM;
    }
    write_padded(&mut out[start..], bytes);
    *writer = NeliWriter {
        start: start_after(writer),
        end: start + size,
    };
    OK
}

/// Writes an attribute's header: its length and its type field.
fn write_attribute_header(out: &mut [u8], len: u16, nl_type: u16)
    requires { 4 ≤ length out.old }
    ensures { out.new ≡ put_first (little_bytes 2 len ++ little_bytes 2 nl_type) out.old }
{
    LittleEndian::write_u16(out, len);
    LittleEndian::write_u16(&mut out[2..], nl_type);
}

/// Writes an attribute, and zeros up to a multiple of four.
fn write_attribute(out: &mut [u8], nl_type: u16, payload: &[u8])
    requires fits { 4 + length payload.now ≤ 65535 }
    requires room { align (4 + length payload.now) ≤ length out.old }
    ensures { IfOk (attribute_wire (4 + length payload.now) nl_type (Ok payload.now))
        (λ written. out.new ≡ put_first written out.old) }
{
    let size = ATTRIBUTE_HEADER_SIZE + payload.len();
    write_attribute_header(out, size as u16, nl_type);
    write_padded(&mut out[ATTRIBUTE_HEADER_SIZE..], payload);
}

/// Appends an attribute.
fn append(out: &mut [u8], writer: &mut NeliWriter, nl_type: u16, payload: &[u8]) -> i32
    ensures code { result ≡ attribute_code (length payload.now) writer.old.end (length out.old) }
    ensures written { result ≡ ok
        → IfOk (attribute_wire (4 + length payload.now) nl_type (Ok payload.now))
        (λ written. out.new ≡ put writer.old.end written out.old) }
    ensures moved { result ≡ ok → writer.new ≡ record {
      start = start_after writer.old.start writer.old.end;
      end = writer.old.end + align (4 + length payload.now);
    } }
    ensures unchanged { result ≢ ok → (out.new ≡ out.old) × (writer.new ≡ writer.old) }
{
    if MAX_ATTR_SIZE - ATTRIBUTE_HEADER_SIZE < payload.len() {
        return LENGTH;
    }
    let start = writer.end;
    let size = alignto(ATTRIBUTE_HEADER_SIZE + payload.len());
    if out.len() < size || out.len() - size < start {
        return ROOM;
    }
    write_attribute(&mut out[start..], nl_type, payload);
    *writer = NeliWriter {
        start: start_after(writer),
        end: start + size,
    };
    OK
}

/// Appends an attribute with this type field, and zeros up to a multiple of four.
///
/// Returns `OK`; `LENGTH` if the payload has more than 65531 bytes, so that the attribute's length exceeds 16 bits;
/// then `ROOM` if all these bytes do not fit. On a refusal nothing is written.
#[unsafe(no_mangle)]
pub extern "C" fn neli_c_put_attribute(
    out: &mut [u8],
    writer: &mut NeliWriter,
    nl_type: u16,
    payload: &[u8],
) -> i32
    ensures code { result ≡ attribute_code (length payload.now) writer.old.end (length out.old) }
    ensures written { result ≡ ok
        → IfOk (attribute_wire (4 + length payload.now) nl_type (Ok payload.now))
        (λ written. out.new ≡ put writer.old.end written out.old) }
    ensures moved { result ≡ ok → writer.new ≡ record {
      start = start_after writer.old.start writer.old.end;
      end = writer.old.end + align (4 + length payload.now);
    } }
    ensures unchanged { result ≢ ok → (out.new ≡ out.old) × (writer.new ≡ writer.old) }
{
    append(out, writer, nl_type, payload)
}

/// Begins an attribute that lists attributes: its header, with the nested flag and with 4 as its length until
/// `neli_c_end_nest`; `nest` is its place.
///
/// Returns `OK`, or `ROOM` if four bytes do not fit; then nothing is written.
#[unsafe(no_mangle)]
pub extern "C" fn neli_c_begin_nest(
    out: &mut [u8],
    writer: &mut NeliWriter,
    nl_type: u16,
    nest: &mut usize,
) -> i32
    ensures code { result ≡ (if nat_le (writer.old.end + 4) (length out.old) then ok else room) }
    ensures written { result ≡ ok → IfOk (attribute_wire 4 (bit_or nl_type 32768) (Ok []))
        (λ written. out.new ≡ put writer.old.end written out.old) }
    ensures moved { result ≡ ok → writer.new ≡ record {
      start = start_after writer.old.start writer.old.end;
      end = writer.old.end + 4;
    } }
    ensures nest { result ≡ ok → nest.new ≡ writer.old.end }
    ensures unchanged { result ≢ ok
        → (out.new ≡ out.old) × (writer.new ≡ writer.old) × (nest.new ≡ nest.old) }
{
    let start = writer.end;
    let code = append(out, writer, nl_type | NESTED, &[]);
    if code == OK {
        *nest = start;
    }
    code
}

/// Sets the length of the nest that was begun at this place to the bytes written since.
///
/// Returns `OK`; `PLACE` if no nest can lie there: before the end of the last begun message's header, where one was
/// begun, or less than four bytes before the writer's end, or if that is past the bytes; then `LENGTH` if the length
/// exceeds 16 bits. On a refusal nothing is written.
#[unsafe(no_mangle)]
pub extern "C" fn neli_c_end_nest(out: &mut [u8], writer: &NeliWriter, nest: usize) -> i32
    ensures code { result ≡ nest_end_code writer.now.start writer.now.end nest (length out.old) }
    ensures written { result ≡ ok
        → out.new ≡ put nest (little_bytes 2 (writer.now.end - nest)) out.old }
    ensures unchanged { result ≢ ok → out.new ≡ out.old }
{
    let NeliWriter { start, end } = *writer;
    if start != NO_MESSAGE && (nest < MESSAGE_HEADER_SIZE || nest - MESSAGE_HEADER_SIZE < start) {
        return PLACE;
    }
    if end < ATTRIBUTE_HEADER_SIZE || end - ATTRIBUTE_HEADER_SIZE < nest || out.len() < end {
        return PLACE;
    }
    let size = end - nest;
    if MAX_ATTR_SIZE < size {
        return LENGTH;
    }
    LittleEndian::write_u16(&mut out[nest..], size as u16);
    OK
}

/// Sets the length of the message that was begun last to the bytes written since.
///
/// Returns `OK`; `PLACE` if no message can lie there: it begins less than 16 bytes before the writer's end, or that is
/// past the bytes; then `LENGTH` if the length exceeds 32 bits. On a refusal nothing is written.
#[unsafe(no_mangle)]
pub extern "C" fn neli_c_end_message(out: &mut [u8], writer: &NeliWriter) -> i32
    ensures code { result ≡ message_end_code writer.now.start writer.now.end (length out.old) }
    ensures written { result ≡ ok
        → out.new
        ≡ put writer.now.start (little_bytes 4 (writer.now.end - writer.now.start)) out.old }
    ensures unchanged { result ≢ ok → out.new ≡ out.old }
{
    let NeliWriter { start, end } = *writer;
    if end < MESSAGE_HEADER_SIZE || end - MESSAGE_HEADER_SIZE < start || out.len() < end {
        return PLACE;
    }
    let Ok(size) = u32::try_from(end - start) else {
        return LENGTH;
    };
    LittleEndian::write_u32(&mut out[start..], size);
    OK
}
