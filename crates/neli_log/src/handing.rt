//! Stores entries and datagrams, once no refusal remains possible.

ghost use Rattle.std.specs.Prelude.{◌≡◌, ◌++◌, ◌+◌, ◌<◌, ◌≤◌, ℕ, List, Option, Some, OnErr, OnOk, length};
ghost use Rattle.std.specs.Prelude.{option_map};
ghost use Rattle.std.specs.Prelude.{slice_get, slice_range};
ghost use Rattle.neli_log.specs.Places.{HasRoom, IsTrimmed, entries_of, pending_of};
ghost use Rattle.neli_log.specs.Routes.{items_for};
ghost use Rattle.neli_log.specs.Spans.{AreNamed, AreSpansOf, IsUnchanged, SpansName, bytes_of, next_serial};
ghost use Rattle.neli_log.specs.Spans.{span_bytes};
ghost use Rattle.neli_log.specs.declared.span.Span.{Span as Part};
ghost use Rattle.neli_log.specs.Contents.{span_of, spans_of};
ghost use Rattle.neli_log.specs.Log.{kept_with};
ghost use Rattle.neli_log.specs.Staged.{HaveReaders};

use crate::content::Content;
use crate::span::Bytes;
use crate::{Datagrams, Entry, Places};
use neli_wire::NoMemory;
use std::alloc::Global;

/// Stores each entry, in order.
pub(crate) fn push_all(places: &mut Places<Content>, entries: Vec<Entry<Content>>)
    requires trimmed { IsTrimmed places.old }
    requires readers { HaveReaders (pending_of places.old) entries.items }
    requires room { HasRoom (length entries.items) places.old }
    ensures entries { entries_of places.new ≡ entries_of places.old ++ entries.items }
    ensures more { (w : Option ℕ) → pending_of places.new w
        ≡ option_map (λ xs. xs ++ items_for w entries.items) (pending_of places.old w) }
    ensures trimmed { IsTrimmed places.new }
{
    for entry in entries {
        places.push(entry);
    }
}

/// Returns the number of spans in an entry: one or none.
fn spans_in(content: &Content) -> usize
    ensures { result ≡ length (span_of content.now) }
{
    match content {
        Content::Fault(_) => 0,
        _ => 1,
    }
}

/// Returns the number of spans in entries.
pub(crate) fn span_count(entries: &[Entry<Content>]) -> usize
    ensures { result ≡ length (spans_of entries.now) }
{
    // This shows the prover that the count fits: a usize holds the number of entries.
    let _ = entries.len();
    let mut count = 0;
    for entry in entries {
        count += spans_in(&entry.item);
    }
    count
}

/// Keeps a copy of these bytes, which have this many spans; without a span nothing is kept.
///
/// Refused only if memory runs out; then nothing changes.
pub(crate) fn keep_copy(
    alloc: Global,
    datagrams: &mut Datagrams,
    bytes: &[u8],
    spans: usize,
) -> Result<(), NoMemory>
    requires { AreNamed datagrams.old }
    ensures names { OnOk result ((old new : List Part) → SpansName datagrams.old old
        → AreSpansOf (next_serial datagrams.old) (length bytes.now) new → length new ≡ spans
        → SpansName datagrams.new (old ++ new)) }
    ensures same_bytes { OnOk result ((old : List Part) (i : ℕ) (s : Part)
        → SpansName datagrams.old old → slice_get old i ≡ Some s
        → span_bytes datagrams.new s ≡ span_bytes datagrams.old s) }
    ensures new_span { OnOk result ((s : Part) → 0 < spans
        → s.datagram ≡ next_serial datagrams.old
        → span_bytes datagrams.new s ≡ slice_range bytes.now s.start s.end) }
    ensures bytes { OnOk result
        (bytes_of datagrams.new ≡ bytes_of datagrams.old + kept_with spans bytes.now) }
    ensures unchanged { OnErr result (IsUnchanged datagrams.old datagrams.new) }
{
    if spans == 0 {
        return Ok(());
    }
    let copy = Bytes::from_slice(alloc, bytes)?;
    datagrams.reserve(copy.len())?;
    datagrams.keep(copy, spans);
    Ok(())
}

/// Removes an entry's span, if it has one, and its datagram if no other span names it. Every other span keeps its
/// bytes.
pub(crate) fn release(datagrams: &mut Datagrams, content: Content)
    requires { (ss : List Part) × SpansName datagrams.old (span_of content ++ ss) }
    ensures names { (ss : List Part) → SpansName datagrams.old (span_of content ++ ss)
        → SpansName datagrams.new ss }
    ensures same_bytes { (ss : List Part) (i : ℕ) (s : Part)
        → SpansName datagrams.old (span_of content ++ ss) → slice_get ss i ≡ Some s
        → span_bytes datagrams.new s ≡ span_bytes datagrams.old s }
    ensures bytes { bytes_of datagrams.new ≤ bytes_of datagrams.old }
{
    match content {
        Content::Fault(_) => (),
        _ => datagrams.release(),
    }
}
