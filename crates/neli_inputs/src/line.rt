//! The lines of hexadecimal text.

ghost use Rattle.std.specs.Prelude.{◌≡◌, ◌≤◌, ◌==◌, ◌<◌, length, map, false, IfOk, IfSome};
ghost use Rattle.std.specs.List.{position, slice_split};
ghost use Rattle.std.specs.Option.{option_map};
ghost use Rattle.neli_inputs.specs.Lines.{address_in, addressed_row, as_dump, begins_addressed, ends_row, is_of_row, row_bytes};
ghost use Rattle.neli_inputs.specs.Lines.{row_digits, row_in, row_of, unaddressed, unframed, with_bytes};
ghost use Rattle.neli_inputs.specs.Lines.{ReadsLine, bytes_of_digits, count_in, digits_of, dump_between, dump_of};
ghost use Rattle.neli_inputs.specs.Lines.{first_words, is_blank, offset_in, skip_blanks, with_offset, without_prefix};

use byteorder::{BigEndian, ByteOrder};
use hex::FromHexError;
use std::alloc::{AllocError, Global};

/// The kind of a line, and its number of bytes.
#[derive(Clone, Copy, Debug, PartialEq, Eq)]
pub(crate) enum Line {
    /// Only blanks.
    Empty,
    /// Only bytes.
    Bytes(usize),
    /// The offset of a dump's line, and the bytes after it.
    Dump(u64, usize),
    /// A mark for lines that are left out.
    LeftOut,
    /// Something else.
    Other,
}

/// A line that was read: its kind, and its bytes.
#[derive(Drop)]
pub(crate) struct ReadLine {
    pub line: Line,
    pub bytes: Vec<u8>,
}

/// Whether a byte of a line is a space, a tab or a carriage return.
fn is_blank(byte: u8) -> bool
    ensures { result ≡ is_blank byte }
{
    byte == b' ' || byte == b'\t' || byte == b'\r'
}

/// A text without its blanks.
fn digits_of(alloc: Global, text: &[u8]) -> Result<Vec<u8>, AllocError>
    ensures { IfOk result (λ digits. digits.items ≡ digits_of text.now) }
{
    text.iter()
        .copied()
        .filter(|byte| !is_blank(*byte))
        .collect(alloc)
}

/// The bytes of pairs of hexadecimal digits; `None` if a character is no such digit, or one is left over.
fn bytes_of_digits(alloc: Global, digits: &[u8]) -> Result<Option<Vec<u8>>, AllocError>
    ensures { IfOk result (λ bytes. option_map (λ v. v.items) bytes ≡ bytes_of_digits digits.now) }
{
    match hex::decode(alloc, digits) {
        Ok(bytes) => Ok(Some(bytes)),
        Err(FromHexError::OutOfMemory) => Err(AllocError),
        Err(_) => Ok(None),
    }
}

/// A text from its first byte that is no blank.
fn skip_blanks(mut text: &[u8]) -> &[u8]
    ensures { result.now ≡ skip_blanks text.now }
{
    while let [first, rest @ ..] = text {
        if !is_blank(*first) {
            return text;
        }
        text = rest;
    }
    text
}

/// The digits of a text's words, up to the first two adjacent blanks.
fn first_words(alloc: Global, text: &[u8]) -> Result<Vec<u8>, AllocError>
    ensures { IfOk result (λ digits. digits.items ≡ first_words false text.now) }
{
    let mut digits = Vec::new(alloc);
    let mut after_blank = false;
    for byte in text {
        let blank = is_blank(*byte);
        if blank && after_blank {
            return Ok(digits);
        }
        if !blank {
            digits.push(*byte)?;
        }
        after_blank = blank;
    }
    Ok(digits)
}

/// Digits without the `0x` that may stand before them.
fn without_prefix(digits: &[u8]) -> &[u8]
    ensures { result.now ≡ without_prefix digits.now }
{
    if digits.len() >= 2 && digits[0] == b'0' && digits[1] == b'x' {
        return &digits[2..];
    }
    digits
}

/// The offset before the mark of a dump's line: one byte to eight of them in hexadecimal.
fn offset_in(alloc: Global, text: &[u8]) -> Result<Option<u64>, AllocError>
    ensures { IfOk result (λ offset. offset ≡ offset_in text.now) }
{
    let digits = digits_of(alloc, text)?;
    let Some(bytes) = bytes_of_digits(alloc, without_prefix(&digits))? else {
        return Ok(None);
    };
    if bytes.is_empty() || bytes.len() > 8 {
        return Ok(None);
    }
    Ok(Some(BigEndian::read_uint(&bytes, bytes.len())))
}

/// An offset and bytes, if both exist.
fn with_offset(offset: Option<u64>, bytes: Option<Vec<u8>>) -> Option<(u64, Vec<u8>)>
    ensures { option_map (λ d. (d.0, d.1.items)) result
        ≡ with_offset offset (option_map (λ v. v.items) bytes) }
{
    Some((offset?, bytes?))
}

/// The offset and the bytes of a dump's line, which has these two texts before and after its mark.
fn dump_between(
    alloc: Global,
    before: &[u8],
    after: &[u8],
) -> Result<Option<(u64, Vec<u8>)>, AllocError>
    ensures { IfOk result
        (λ dump. option_map (λ d. (d.0, d.1.items)) dump ≡ dump_between before.now after.now) }
{
    let words = skip_blanks(after);
    if words.len() == after.len() {
        return Ok(None);
    }
    let offset = offset_in(alloc, before)?;
    let digits = first_words(alloc, words)?;
    let bytes = bytes_of_digits(alloc, &digits)?;
    Ok(with_offset(offset, bytes))
}

/// The index of the first colon.
fn mark_in(text: &[u8]) -> Option<usize>
    ensures value { result ≡ position (λ b. b == 58) text.now }
    ensures within { IfSome result (λ mark. mark < length text.now) }
{
    text.iter().position(|byte| *byte == b':')
}

/// The offset and the bytes of a line of a dump.
fn dump_of(alloc: Global, text: &[u8]) -> Result<Option<(u64, Vec<u8>)>, AllocError>
    ensures { IfOk result (λ dump. option_map (λ d. (d.0, d.1.items)) dump ≡ dump_of text.now) }
{
    match mark_in(text) {
        Some(mark) => dump_between(alloc, &text[..mark], &text[mark + 1..]),
        None => Ok(None),
    }
}

/// A line without the frame that strace puts before an offset.
fn unframed(text: &[u8]) -> &[u8]
    ensures { result.now ≡ unframed text.now }
{
    match text {
        [b' ', b'|', b' ', rest @ ..] => rest,
        _ => text,
    }
}

/// The offset in a word of four to sixteen hexadecimal digits.
fn address_in(alloc: Global, word: &[u8]) -> Result<Option<u64>, AllocError>
    ensures { IfOk result (λ offset. offset ≡ address_in word.now) }
{
    if word.len() < 4 || word.len() > 16 {
        return Ok(None);
    }
    let mut digits = Vec::new(alloc);
    if word.len() % 2 != 0 {
        digits.push(b'0')?;
    }
    digits.extend_from_slice(word)?;
    let Some(bytes) = bytes_of_digits(alloc, &digits)? else {
        return Ok(None);
    };
    if bytes.is_empty() || bytes.len() > 8 {
        return Ok(None);
    }
    Ok(Some(BigEndian::read_uint(&bytes, bytes.len())))
}

/// The parts of a text between its blanks. They are lent.
fn words_of<'t>(alloc: Global, text: &'t [u8]) -> Result<Vec<&'t [u8]>, AllocError>
    ensures { IfOk result (λ words. map (λ w. w.now) words.items ≡ slice_split is_blank text.now) }
{
    text.split(|byte| is_blank(*byte)).collect(alloc)
}

/// Whether a row ends with this word: an empty one that is not the gap in the middle.
fn ends_row(index: usize, word: &[u8]) -> bool
    ensures { result ≡ ends_row index word.now }
{
    word.is_empty() && index != 8
}

/// Whether a word is that gap, or two digits long.
fn is_of_row(word: &[u8]) -> bool
    ensures { result ≡ is_of_row word.now }
{
    word.is_empty() || word.len() == 2
}

/// The digits of words of two each, up to the first empty one that is not the gap in the middle of a row.
fn row_digits(alloc: Global, words: &[&[u8]]) -> Result<Option<Vec<u8>>, AllocError>
    ensures { IfOk result (λ digits. option_map (λ v. v.items) digits
        ≡ row_digits 0 (map (λ w. w.now) words.now)) }
{
    let mut digits = Vec::new(alloc);
    for (index, word) in words.iter().enumerate() {
        if ends_row(index, word) {
            return Ok(Some(digits));
        }
        if !is_of_row(word) {
            return Ok(None);
        }
        digits.extend_from_slice(word)?;
    }
    Ok(Some(digits))
}

/// The bytes of a row, behind its offset.
fn row_bytes(alloc: Global, text: &[u8]) -> Result<Option<Vec<u8>>, AllocError>
    ensures { IfOk result (λ bytes. option_map (λ v. v.items) bytes ≡ row_bytes text.now) }
{
    let words = words_of(alloc, skip_blanks(text))?;
    match row_digits(alloc, &words)? {
        Some(digits) => bytes_of_digits(alloc, &digits),
        None => Ok(None),
    }
}

/// The index of the first blank.
fn blank_in(text: &[u8]) -> Option<usize>
    ensures value { result ≡ position (λ b. is_blank b) text.now }
    ensures within { IfSome result (λ blank. blank < length text.now) }
{
    text.iter().position(|byte| is_blank(*byte))
}

/// The offset and the bytes of a line whose first word is an offset.
fn row_in(alloc: Global, text: &[u8]) -> Result<Option<(u64, Vec<u8>)>, AllocError>
    ensures { IfOk result (λ row. option_map (λ d. (d.0, d.1.items)) row ≡ row_in text.now) }
{
    let Some(blank) = blank_in(text) else {
        let offset = address_in(alloc, text)?;
        return Ok(with_offset(offset, Some(Vec::new(alloc))));
    };
    let offset = address_in(alloc, &text[..blank])?;
    let bytes = row_bytes(alloc, &text[blank..])?;
    Ok(with_offset(offset, bytes))
}

/// The same after blanks and a frame.
fn row_of(alloc: Global, text: &[u8]) -> Result<Option<(u64, Vec<u8>)>, AllocError>
    ensures { IfOk result (λ row. option_map (λ d. (d.0, d.1.items)) row ≡ row_of text.now) }
{
    row_in(alloc, skip_blanks(unframed(text)))
}

/// A row, if it has bytes.
fn with_bytes(row: Option<(u64, Vec<u8>)>) -> Option<(u64, Vec<u8>)>
    ensures { option_map (λ d. (d.0, d.1.items)) result
        ≡ with_bytes (option_map (λ d. (d.0, d.1.items)) row) }
{
    let (offset, bytes) = row?;
    if bytes.is_empty() {
        return None;
    }
    Some((offset, bytes))
}

/// A line of a dump, if it is one.
fn as_dump(dump: Option<(u64, Vec<u8>)>) -> Option<ReadLine>
    ensures value { option_map (λ read. (read.line, read.bytes.items)) result
        ≡ as_dump (option_map (λ d. (d.0, d.1.items)) dump) }
    ensures counted { IfSome result (λ read. count_in read.line ≡ length read.bytes.items) }
{
    let (offset, bytes) = dump?;
    let line = Line::Dump(offset, bytes.len());
    Some(ReadLine { line, bytes })
}

/// Reads a line that is neither blanks nor, if lines begin with an offset, a row.
fn read_unaddressed(
    alloc: Global,
    text: &[u8],
    digits: &[u8],
) -> Result<Option<ReadLine>, AllocError>
    requires { digits.now ≡ digits_of text.now }
    ensures value { IfOk result (λ read. option_map (λ r. (r.line, r.bytes.items)) read
        ≡ unaddressed text.now) }
    ensures counted { IfOk result (λ read. IfSome read
        (λ r. count_in r.line ≡ length r.bytes.items)) }
{
    if let Some(bytes) = bytes_of_digits(alloc, digits)? {
        let line = Line::Bytes(bytes.len());
        return Ok(Some(ReadLine { line, bytes }));
    }
    if let Some(read) = as_dump(dump_of(alloc, text)?) {
        return Ok(Some(read));
    }
    Ok(as_dump(with_bytes(row_of(alloc, text)?)))
}

/// The row of a line, if lines begin with an offset.
fn read_addressed(
    alloc: Global,
    addressed: bool,
    text: &[u8],
) -> Result<Option<ReadLine>, AllocError>
    ensures value { IfOk result (λ read. option_map (λ r. (r.line, r.bytes.items)) read
        ≡ addressed_row addressed text.now) }
    ensures counted { IfOk result (λ read. IfSome read
        (λ r. count_in r.line ≡ length r.bytes.items)) }
{
    if !addressed {
        return Ok(None);
    }
    Ok(as_dump(row_of(alloc, text)?))
}

/// Reads a line of a text whose lines begin with an offset, or do not.
pub(crate) fn read_line(alloc: Global, addressed: bool, text: &[u8]) -> Result<ReadLine, AllocError>
    ensures value { IfOk result (λ read. ReadsLine addressed text.now read.line read.bytes.items) }
    ensures counted { IfOk result (λ read. count_in read.line ≡ length read.bytes.items) }
{
    let digits = digits_of(alloc, text)?;
    if digits.is_empty() {
        let line = Line::Empty;
        return Ok(ReadLine {
            line,
            bytes: digits,
        });
    }
    if let Some(read) = read_addressed(alloc, addressed, text)? {
        return Ok(read);
    }
    if let Some(read) = read_unaddressed(alloc, text, &digits)? {
        return Ok(read);
    }
    let line = if digits.as_slice() == b"*".as_slice() {
        Line::LeftOut
    } else {
        Line::Other
    };
    let bytes = Vec::new(alloc);
    Ok(ReadLine { line, bytes })
}

/// Whether lines begin with an offset, if this line shows it: a row with offset 0 and bytes does.
pub(crate) fn begins_addressed(alloc: Global, text: &[u8]) -> Result<Option<bool>, AllocError>
    ensures { IfOk result (λ begins. begins ≡ begins_addressed text.now) }
{
    let digits = digits_of(alloc, text)?;
    if digits.is_empty() {
        return Ok(None);
    }
    if let Some((offset, bytes)) = row_of(alloc, text)? {
        return Ok(Some(offset == 0 && !bytes.is_empty()));
    }
    match bytes_of_digits(alloc, &digits)? {
        Some(_) => Ok(Some(false)),
        None => Ok(None),
    }
}
