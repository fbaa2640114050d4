//! The lines of a script.

ghost use Rattle.std.specs.Prelude.{⊤, ◌≡◌, IsSome, map};
ghost use Rattle.neli_program.specs.Words.{Reads, bytes_of, bytes_take_memory, number};
ghost use Rattle.neli_program.specs.Script.{entry_if, datagram, entry_in, entry_takes_memory, fault_named, request};
ghost use Rattle.neli_program.specs.Script.{short_entry, words_in};

use crate::words::{LineError, number_u16, number_u32, number_usize, parts_of, read_bytes};
use neli_attr::Buffer;
use std::alloc::Global;
use std::io::ErrorKind;

/// A line of a script.
#[derive(Drop)]
pub enum Entry {
    /// `pid N`: the port of the router.
    Port(u32),
    /// `seq N`: the sequence number of the next request.
    Number(u32),
    /// `send TYPE FLAGS BYTES`: a request with this type, these flags and this payload.
    Request(u16, u16, Buffer),
    /// `data MASK BYTES`: a datagram that arrived for the groups of this mask.
    Datagram(u32, Buffer),
    /// `fault NAME`: a fault of the link.
    Fault(ErrorKind),
    /// `read H`: reads the next item of this handle.
    Read(usize),
    /// `close H`: closes this handle.
    Close(usize),
}

/// The fault of the link with this name.
fn fault_kind(name: &[u8]) -> Option<ErrorKind>
    ensures { result ≡ fault_named name.now }
{
    if name == b"wouldblock".as_slice() {
        Some(ErrorKind::WouldBlock)
    } else if name == b"reset".as_slice() {
        Some(ErrorKind::ConnectionReset)
    } else if name == b"other".as_slice() {
        Some(ErrorKind::Other)
    } else {
        None
    }
}

/// Reads a line of two words.
fn read_short(word: &[u8], argument: &[u8]) -> Option<Entry>
    ensures { result ≡ short_entry word.now argument.now }
{
    if word == b"pid".as_slice() {
        Some(Entry::Port(number_u32(argument)?))
    } else if word == b"seq".as_slice() {
        Some(Entry::Number(number_u32(argument)?))
    } else if word == b"fault".as_slice() {
        Some(Entry::Fault(fault_kind(argument)?))
    } else if word == b"read".as_slice() {
        Some(Entry::Read(number_usize(argument)?))
    } else if word == b"close".as_slice() {
        Some(Entry::Close(number_usize(argument)?))
    } else {
        None
    }
}

/// Reads a datagram. Only its bytes take memory, and only if the mask is good.
fn read_datagram(alloc: Global, mask: &[u8], bytes: &[u8]) -> Result<Entry, LineError>
    ensures { Reads (datagram (number 32 mask.now) (bytes_of bytes.now))
        (IsSome (number 32 mask.now) × bytes_take_memory bytes.now) result }
{
    let Some(mask) = number_u32(mask) else {
        return Err(LineError::Bad);
    };
    match read_bytes(alloc, bytes) {
        Ok(bytes) => Ok(Entry::Datagram(mask, bytes)),
        Err(error) => Err(error),
    }
}

/// Reads a request. Only its bytes take memory, and only if the numbers are good.
fn read_request(
    alloc: Global,
    message_type: &[u8],
    flags: &[u8],
    bytes: &[u8],
) -> Result<Entry, LineError>
    ensures { Reads
        (request (number 16 message_type.now) (number 16 flags.now) (bytes_of bytes.now))
        (IsSome (number 16 message_type.now) × IsSome (number 16 flags.now)
        × bytes_take_memory bytes.now) result }
{
    let Some(message_type) = number_u16(message_type) else {
        return Err(LineError::Bad);
    };
    let Some(flags) = number_u16(flags) else {
        return Err(LineError::Bad);
    };
    match read_bytes(alloc, bytes) {
        Ok(bytes) => Ok(Entry::Request(message_type, flags, bytes)),
        Err(error) => Err(error),
    }
}

/// Reads the words of a line.
fn read_words(alloc: Global, words: &[&[u8]]) -> Result<Entry, LineError>
    ensures { let said = map (λ word. word.now) words.now in
        Reads (entry_in said) (entry_takes_memory said) result }
{
    match words {
        [word, argument] => match read_short(word, argument) {
            Some(entry) => Ok(entry),
            None => Err(LineError::Bad),
        },
        [word, mask, bytes] => {
            if *word == b"data".as_slice() {
                read_datagram(alloc, mask, bytes)
            } else {
                Err(LineError::Bad)
            }
        }
        [word, message_type, flags, bytes] => {
            if *word == b"send".as_slice() {
                read_request(alloc, message_type, flags, bytes)
            } else {
                Err(LineError::Bad)
            }
        }
        _ => Err(LineError::Bad),
    }
}

/// Reads a line that isn't empty. Only the first such line may set the port.
pub(crate) fn read_line(alloc: Global, line: &[u8], first: bool) -> Result<Entry, LineError>
    // The list of words takes memory, since it has one at least.
    ensures { Reads (entry_if first (entry_in (words_in line.now))) ⊤ result }
{
    let words = parts_of(alloc, line, b' ')?;
    match read_words(alloc, &words) {
        Ok(Entry::Port(_)) if !first => Err(LineError::Bad),
        read => read,
    }
}
