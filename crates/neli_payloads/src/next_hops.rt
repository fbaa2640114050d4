//! The next hops of a route that has several.

ghost use Rattle.std.specs.Prelude.{◌≡◌, ◌+◌, ◌≤◌, [], None, Ok, Err, IfOk, IfErr, IfSome, IsNone, OnErr, OnOk, length};
ghost use Rattle.std.specs.Iterator.{YieldsFirstBy, item_count};
ghost use Rattle.neli_wire.specs.Frames.{frame_at};
ghost use Rattle.neli_wire.specs.Place.{Place, whole};
ghost use Rattle.neli_lent.specs.Walks.{cut_with, items_of, map_item, map_ok};
ghost use Rattle.neli_payloads.specs.NextHops.{next_hop, next_hop_view, next_hops_at};

use neli_body::numbers::{i32_in, u8_in, u16_in};
use neli_consts_attrs::Rta;
use neli_lent::LentRtattrs;
use neli_wire::implementing::within_input;
use neli_wire::{Cursor, DeError, alignto};
use std::io::ErrorKind;
use std::marker::Model;

/// The size of a next hop before its attributes, in bytes: `struct rtnexthop` of `linux/rtnetlink.h`.
const HEADER_SIZE: usize = 8;

/// A next hop of a route: `struct rtnexthop` of `linux/rtnetlink.h`, with its attributes, which are the bytes that they
/// were read from.
#[derive(Clone, Copy, Debug)]
pub struct NextHop<'b> {
    len: u16,
    flags: u8,
    hops: u8,
    ifindex: i32,
    attributes: &'b [u8],
}

impl<'b> NextHop<'b> {
    /// The length in bytes of the next hop and its attributes, without padding.
    pub fn rtnh_len(&self) -> u16
        ensures { result ≡ self.now.len }
    {
        self.len
    }

    /// Its flags: the bits `RTNH_F_*` of `linux/rtnetlink.h`.
    pub fn rtnh_flags(&self) -> u8
        ensures { result ≡ self.now.flags }
    {
        self.flags
    }

    /// Its weight among the next hops, less one.
    pub fn rtnh_hops(&self) -> u8
        ensures { result ≡ self.now.hops }
    {
        self.hops
    }

    /// The index of its output link.
    pub fn rtnh_ifindex(&self) -> i32
        ensures { result ≡ self.now.ifindex }
    {
        self.ifindex
    }

    /// The bytes of its attributes. They live as long as the bytes that it was read from.
    pub fn attribute_bytes(&self) -> &'b [u8]
        ensures { result.now ≡ self.now.attributes.now }
    {
        self.attributes
    }

    /// Its attributes, such as `Rta::Gateway`, lent.
    pub fn attributes(&self) -> LentRtattrs<'b, Rta>
        ensures before { result.before ≡ [] }
        ensures rest { result.rest ≡ self.now.attributes.now }
    {
        LentRtattrs::new(self.attributes)
    }

    /// Reads the next hop at the cursor; its attributes stay in place. It takes no memory.
    ///
    /// Refused with `Io(UnexpectedEof)` if there are fewer than 8 bytes, `InvalidInput(length)` if the stated length is
    /// below 8, `InvalidInput(length - 8)` if it exceeds the bytes, and `Io(UnexpectedEof)` if padding is missing. A
    /// refusal leaves the cursor where it was.
    #[tactic(auto, unfolding(neli_wire::specs::Frames::frame_at))]
    pub fn lend(cursor: &mut Cursor<'b>) -> Result<NextHop<'b>, DeError>
        ensures value { IfOk result (λ h. frame_at next_hop cursor.old.rest
            ≡ Ok (next_hop_view h, cursor.new.rest)) }
        ensures moved { OnOk result (whole cursor.new ≡ whole cursor.old) }
        ensures refused { IfErr result (λ e. frame_at next_hop cursor.old.rest ≡ Err e) }
        ensures unchanged { OnErr result (cursor.new ≡ cursor.old) }
    {
        let rest = cursor.rest();
        if rest.len() < HEADER_SIZE {
            return Err(DeError::Io(ErrorKind::UnexpectedEof));
        }
        let len = u16_in(rest, 0);
        let size = len as usize;
        if size < HEADER_SIZE {
            return Err(DeError::InvalidInput(size));
        }
        if rest.len() < size {
            return Err(DeError::InvalidInput(size - HEADER_SIZE));
        }
        let end = alignto(size);
        if rest.len() < end {
            return Err(DeError::Io(ErrorKind::UnexpectedEof));
        }
        cursor.advance(end);
        Ok(NextHop {
            len,
            flags: u8_in(rest, 2),
            hops: u8_in(rest, 3),
            ifindex: i32_in(rest, 4),
            attributes: &rest[HEADER_SIZE..size],
        })
    }
}

/// The next hops that bytes list, one after the other, each with its attributes lent: the payload of
/// `Rta::Multipath`.
///
/// An iterator of results: after the next hops it returns the fault of the rest, if there is one; then nothing. It
/// takes no memory. Contracts see it as a place in the bytes.
#[derive(Drop)]
pub struct NextHops<'b> {
    cursor: Cursor<'b>,
}

impl<'b> Model for NextHops<'b> {
    ghost Value = { Place };

    ghost view = { λ i. i.cursor };
}

impl<'b> NextHops<'b> {
    /// The next hops that these bytes list.
    pub fn new(bytes: &'b [u8]) -> NextHops<'b>
        ensures before { result.before ≡ [] }
        ensures rest { result.rest ≡ bytes.now }
    {
        NextHops {
            cursor: Cursor::new(bytes),
        }
    }

    /// A second walk from the same place.
    pub fn ahead(&self) -> NextHops<'b>
        ensures { result ≡ self.now }
    {
        NextHops {
            cursor: self.cursor.ahead(),
        }
    }

    /// The next one, or the fault of the rest, or the end.
    fn step(&mut self) -> Option<Result<NextHop<'b>, DeError>>
        ensures cut { next_hops_at self.old
            ≡ cut_with (map_item next_hop_view result) (next_hops_at self.new) }
        ensures end { IsNone result → next_hops_at self.new ≡ ([], None) }
        ensures fault { IfSome result
            (λ item. OnErr item (next_hops_at self.new ≡ ([], None))) }
        ensures moved { whole self.new ≡ whole self.old }
        // A next hop takes at least the eight bytes before its attributes.
        ensures shorter { IfSome result
            (λ item. OnOk item (length self.new.rest + 8 ≤ length self.old.rest)) }
    {
        if self.cursor.rest().is_empty() {
            return None;
        }
        match NextHop::lend(&mut self.cursor) {
            Ok(hop) => Some(Ok(hop)),
            Err(error) => {
                let end = self.cursor.get_ref().len();
                self.cursor.set_position(end);
                Some(Err(within_input(error, end)))
            }
        }
    }
}

impl<'b> Iterator for NextHops<'b> {
    type Item = Result<NextHop<'b>, DeError>;

    ghost next_gives = { YieldsFirstBy (map_ok next_hop_view)
        (λ place. items_of (next_hops_at place)) };

    ghost remaining = { item_count (λ place. items_of (next_hops_at place)) };

    fn next(&mut self) -> Option<Result<NextHop<'b>, DeError>> {
        self.step()
    }
}
