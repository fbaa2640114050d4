//! Pieces of output that are written together.

ghost use Rattle.std.specs.Prelude.{◌≡◌, [], IfSome, OnOk};
ghost use Rattle.std.specs.Io.KnownBytes.{Appends};
ghost use Rattle.neli_show.specs.Gathered.{held};

use arrayvec::ArrayString;
use std::fmt;
use std::fmt::{Display, Formatter};
use std::io::Write;

/// How many bytes are gathered at most before they are written.
const ROOM: usize = 32768;

/// Writes a text.
fn write_text<W: Write>(out: &mut W, text: &str) -> fmt::Result
    ensures { OnOk result (Appends (W.contents out.old) (W.contents out.new) text.now) }
{
    match out.write_all(text.as_bytes()) {
        Ok(()) => Ok(()),
        Err(_) => Err(fmt::Error),
    }
}

/// Text on its way to a writer: pieces are gathered, and written together.
#[derive(Drop)]
pub struct Gathered<'o, W> {
    out: &'o mut W,
    text: ArrayString<ROOM>,
}

impl<'o, W: Write> Gathered<'o, W> {
    /// Text on its way to this writer; nothing is gathered yet.
    pub fn new(out: &'o mut W) -> Self
        ensures out { result.out ≡ out.entry }
        ensures empty { result.text.bytes ≡ [] }
    {
        Gathered {
            out,
            text: ArrayString::new(),
        }
    }

    /// Writes what is gathered.
    fn write_out(&mut self) -> fmt::Result
        ensures same { self.new.out.ghost_name ≡ self.old.out.ghost_name }
        ensures text { OnOk result (Appends (W.contents self.old.out.now)
            (W.contents self.new.out.now) self.old.text.bytes) }
        ensures empty { OnOk result (self.new.text.bytes ≡ []) }
    {
        write_text(self.out, self.text.as_str())?;
        self.text.clear();
        Ok(())
    }

    /// Writes what is gathered, and then this piece.
    #[inline(never)]
    fn write_past(&mut self, piece: &str) -> fmt::Result
        ensures same { self.new.out.ghost_name ≡ self.old.out.ghost_name }
        ensures text { OnOk result (Appends (held W.contents self.old)
            (held W.contents self.new) piece.now) }
    {
        self.write_out()?;
        write_text(self.out, piece)
    }

    /// Writes what is gathered, and returns the writer.
    fn finish(self) -> (&'o mut W, fmt::Result)
        ensures same { result.0.ghost_name ≡ self.entry.out.ghost_name }
        ensures text { OnOk result.1 (Appends (W.contents self.entry.out.now)
            (W.contents result.0.now) self.entry.text.bytes) }
    {
        let Gathered { out, text } = self;
        let written = write_text(out, text.as_str());
        (out, written)
    }
}

impl<W: Write> fmt::Write for Gathered<'_, W> {
    ghost write_str_gives = { λ g bs h. (h.out.ghost_name ≡ g.out.ghost_name)
        × Appends (held W.contents g) (held W.contents h) bs };

    #[inline(always)]
    fn write_str(&mut self, piece: &str) -> fmt::Result {
        if piece.len() <= self.text.remaining_capacity() {
            self.text.push_str(piece);
            return Ok(());
        }
        self.write_past(piece)
    }
}

/// Prints a text, by pieces of many bytes.
pub fn print<W: Write, D: Display + Drop>(out: &mut W, text: D) -> fmt::Result
    ensures { OnOk result (IfSome (D.output text)
        (Appends (W.contents out.old) (W.contents out.new))) }
{
    let mut lines = Formatter::new(Gathered::new(out));
    lines.write(text)?;
    let (out, written) = lines.into_inner().finish();
    // No effect when it runs: this shows the prover what the writer has.
    let _ = &*out;
    written
}
