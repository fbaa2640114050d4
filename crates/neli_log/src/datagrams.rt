//! The datagrams that spans name.

ghost use Rattle.std.specs.Prelude.{◌≡◌};
ghost use Rattle.neli_log.specs.Bytes.{byte_count};

use crate::part::part;
use crate::span::{Bytes, Datagram, Span};
use std::alloc::{AllocError, Global};
use std::collections::VecDeque;

/// The datagrams that spans name, each stored once, by serial numbers without a gap.
#[derive(Drop)]
pub struct Datagrams {
    pub(crate) first: u64,
    pub(crate) list: VecDeque<Datagram>,
    pub(crate) bytes: usize,
    ghost counted: { bytes ≡ byte_count list.items },
}

impl Datagrams {
    ghost use Rattle.std.specs.Prelude.{◌<◌, ◌≤◌, ◌+◌, ℕ, List, [], ◌∷◌, ◌++◌, Some, IsOk, OnOk, length, slice_get};
    ghost use Rattle.std.specs.Prelude.{slice_range};
    ghost use Rattle.neli_log.specs.Spans.{AreNamed, AreSpansOf, HasRoom, IsNamed, IsUnchanged, SpansName, bytes_of};
    ghost use Rattle.neli_log.specs.Spans.{next_serial, span_bytes};
    ghost use Rattle.neli_log.specs.declared.span.Span.{Span as Named};

    /// No datagrams. It takes no memory.
    pub fn new(alloc: Global) -> Self
        ensures names { SpansName result [] }
        ensures serial { next_serial result ≡ 0 }
    {
        Datagrams {
            first: 0,
            list: VecDeque::new(alloc),
            bytes: 0,
        }
    }

    /// Returns the serial number of the next datagram to keep.
    pub fn next_serial(&self) -> u64
        requires { AreNamed self.now }
        ensures { result ≡ next_serial self.now }
    {
        self.first + self.list.len() as u64
    }

    /// Returns the number of bytes in the kept datagrams; 0 if no span remains.
    pub fn byte_count(&self) -> usize
        ensures bytes { result ≡ bytes_of self.now }
        ensures none { SpansName self.now [] → result ≡ 0 }
    {
        self.bytes
    }

    /// Makes room for one more datagram, of `size` bytes. Takes no memory if the room exists already.
    ///
    /// Refused if memory runs out, if the next serial number is 2^64 - 1, or if the bytes of all datagrams would exceed
    /// a `usize`. In each case nothing else changes.
    pub fn reserve(&mut self, size: usize) -> Result<(), AllocError>
        requires { AreNamed self.old }
        ensures unchanged { IsUnchanged self.old self.new }
        ensures room { OnOk result (HasRoom size self.new) }
        ensures enough { HasRoom size self.old → IsOk result }
    {
        if self.next_serial() == u64::MAX || usize::MAX - self.bytes < size {
            return Err(AllocError);
        }
        self.list.reserve(1)
    }

    /// Keeps a datagram that has this many spans, at least one; the room must exist.
    pub fn keep(&mut self, bytes: Bytes, spans: usize)
        requires some { 0 < spans }
        requires room { HasRoom (length bytes.items) self.old }
        ensures names { (old new : List Named) → SpansName self.old old
            → AreSpansOf (next_serial self.old) (length bytes.items) new → length new ≡ spans
            → SpansName self.new (old ++ new) }
        ensures same_bytes { (old : List Named) (i : ℕ) (s : Named) → SpansName self.old old
            → slice_get old i ≡ Some s → span_bytes self.new s ≡ span_bytes self.old s }
        ensures new_span { (s : Named) → s.datagram ≡ next_serial self.old
            → span_bytes self.new s ≡ slice_range bytes.items s.start s.end }
        ensures serial { next_serial self.new ≡ next_serial self.old + 1 }
        ensures bytes { bytes_of self.new ≡ bytes_of self.old + length bytes.items }
    {
        let size = bytes.len();
        self.list.push_back_reserved(Datagram { bytes, spans });
        self.bytes += size;
    }

    /// Removes the first span, and its datagram if no other span names it. Every other span keeps its bytes.
    pub fn release(&mut self)
        requires { (s : Named) × (ss : List Named) × SpansName self.old (s ∷ ss) }
        ensures names { (s : Named) (ss : List Named) → SpansName self.old (s ∷ ss)
            → SpansName self.new ss }
        ensures same_bytes { (s t : Named) (ss : List Named) (i : ℕ) → SpansName self.old (s ∷ ss)
            → slice_get ss i ≡ Some t → span_bytes self.new t ≡ span_bytes self.old t }
        ensures serial { next_serial self.new ≡ next_serial self.old }
        ensures bytes { bytes_of self.new ≤ bytes_of self.old }
    {
        if let Some(datagram) = self.list.front() {
            let spans = datagram.spans;
            let size = datagram.bytes.len();
            if spans == 1 {
                let _ = self.list.pop_front();
                self.bytes -= size;
                self.first += 1;
            } else {
                self.list[0].spans -= 1;
            }
        }
    }

    /// Returns the bytes of a span.
    pub fn span_bytes(&self, s: Span) -> &[u8]
        requires { IsNamed self.now s }
        ensures { result.now ≡ span_bytes self.now s }
    {
        let datagram = &self.list[(s.datagram - self.first) as usize];
        part(datagram.bytes.as_slice(), s.start, s.end)
    }
}
