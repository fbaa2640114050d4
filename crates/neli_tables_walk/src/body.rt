//! A message's body.

ghost use Rattle.std.specs.Prelude.{◌≡◌};
ghost use Rattle.std.specs.Option.{option_map};
ghost use Rattle.neli_tables_walk.specs.Shapes.{context_view};
ghost use Rattle.neli_tables_walk.specs.Bodies.{body_context, body_family, body_items, body_view};
ghost use Rattle.neli_tables_walk.specs.Bodies.{body_shape};
ghost use Rattle.neli_tables_walk.specs.Bodies.{placed, unknown};

use crate::{Context, GenericHeader, Shape, Walk};
use neli_tables::{MessagePlace, Table, Tables};

/// The body of a message, and what is known of it.
#[derive(Clone, Copy)]
pub struct Body<'b, 'w, 't> {
    /// The table of the message's family; `None` where no table has the message.
    pub table: Option<&'w Table<'t>>,
    /// The place of the message's line in this table; `None` where the family is known and the
    /// message is not.
    pub line: Option<usize>,
    /// The header of generic netlink that stood before the body.
    pub generic: Option<GenericHeader>,
    /// The bytes of the body.
    pub bytes: &'b [u8],
}

impl<'b, 'w, 't> Body<'b, 'w, 't> {
    /// Bytes of unknown meaning.
    pub(crate) fn unknown(bytes: &'b [u8]) -> Body<'b, 'w, 't>
        ensures { body_view result ≡ unknown bytes.now }
    {
        Body {
            table: None,
            line: None,
            generic: None,
            bytes,
        }
    }

    /// The body of a message that stands here among the tables.
    pub(crate) fn placed(
        tables: &'w Tables<'t>,
        place: Option<MessagePlace>,
        bytes: &'b [u8],
    ) -> Body<'b, 'w, 't>
        ensures { body_view result ≡ placed tables.now place bytes.now }
    {
        let Some(place) = place else {
            return Body::unknown(bytes);
        };
        let table = tables.table(place.table);
        Body {
            table,
            line: Some(place.line),
            generic: None,
            bytes,
        }
    }

    /// The address family: the first byte of the body; 0 where it has none, and in generic netlink.
    pub fn family(&self) -> u8
        ensures { result ≡ body_family (body_view self.now) }
    {
        if self.generic.is_some() {
            return 0;
        }
        self.bytes.first().copied().unwrap_or(0)
    }

    /// What its payloads are read by.
    pub fn context(&self) -> Option<Context<'w, 't>>
        ensures { option_map context_view result ≡ body_context (body_view self.now) }
    {
        Some(Context {
            table: self.table?,
            family: self.family(),
        })
    }

    /// What the body is by the line of its message; bytes where it has none.
    pub fn shape(&self) -> Shape
        ensures { result ≡ body_shape (body_view self.now) }
    {
        match (self.context(), self.line) {
            (Some(context), Some(line)) => context.body_shape(line, self.bytes),
            _ => Shape::Bytes,
        }
    }

    /// The walk over its attributes, where it has a list of them.
    pub fn walk(&self) -> Option<Walk<'b, 'w, 't>>
        ensures { result ≡ body_items (body_view self.now) }
    {
        match self.shape() {
            Shape::Nest(nest) => Some(Walk::new(self.context()?, nest, self.bytes)),
            _ => None,
        }
    }
}
