//! The attribute at an offset of a message.

ghost use Rattle.std.specs.Prelude.{◌≡◌};
ghost use Rattle.std.specs.Option.{option_map};
ghost use Rattle.neli_tables_walk.specs.Bodies.{body_view};
ghost use Rattle.neli_tables_check.specs.Offsets.{body_start, found_at};

use crate::Place;
use neli_consts::MESSAGE_HEADER_SIZE;
use neli_tables_walk::{Body, GENERIC_HEADER_SIZE, Shape};

/// The attribute or the hop that contains an offset, its header and its padding included: of nests
/// the innermost, of ten at most. The offset counts from the first byte of the message whose body
/// this is, as that of an extended acknowledgement (`NLMSGERR_ATTR_OFFS`) does. `None` where no
/// attribute is there.
pub fn find<'w, 't>(body: &Body<'_, 'w, 't>, offset: usize) -> Option<Place<'w, 't>>
    ensures { option_map (λ place. place.path.steps.items) result
        ≡ found_at (body_view body.now) offset }
{
    let context = body.context()?;
    let Shape::Nest(nest) = body.shape() else {
        return None;
    };
    let start = body_start(body);
    if offset < start {
        return None;
    }
    let path = neli_tables_walk::find(context, nest, body.bytes, offset - start)?;
    Some(Place {
        table: context.table,
        path,
    })
}

/// The offset of a body in its message.
pub(crate) fn body_start(body: &Body<'_, '_, '_>) -> usize
    ensures { result ≡ body_start (body_view body.now) }
{
    match body.generic {
        Some(_) => MESSAGE_HEADER_SIZE + GENERIC_HEADER_SIZE,
        None => MESSAGE_HEADER_SIZE,
    }
}
