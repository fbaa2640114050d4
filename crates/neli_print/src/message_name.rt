//! The name of a message.

ghost use Rattle.std.specs.Prelude.{◌≡◌};
ghost use Rattle.std.specs.Option.{option_map};
ghost use Rattle.neli_tables_walk.specs.Bodies.{body_view};
ghost use Rattle.neli_print.specs.Replies.{message_name, name_by};

use crate::body::body_name;
use crate::head::common_name;
use neli_tables::Tables;
use neli_tables_walk::{Body, Head, body_of};

/// The name of a message of this type by its body's line, or else of a type that all protocols
/// have.
pub(crate) fn name_by<'t>(body: &Body<'_, '_, 't>, message_type: u16) -> Option<&'t [u8]>
    ensures { option_map (λ name. name.now) result ≡ name_by (body_view body.now) message_type }
{
    match body_name(body) {
        Some(name) => Some(name),
        None => common_name(message_type),
    }
}

/// The name of a message with this payload.
pub(crate) fn message_name<'t>(tables: &Tables<'t>, head: Head, payload: &[u8]) -> Option<&'t [u8]>
    ensures { option_map (λ name. name.now) result ≡ message_name tables.now head payload.now }
{
    name_by(&body_of(tables, head, payload), head.message_type)
}
