//! What payloads are read by.

ghost use Rattle.std.specs.Prelude.{ℕ, ◌≡◌, List, ◌∷◌, [], IfSome, Some};
ghost use Rattle.std.specs.Option.{option_map};
ghost use Rattle.neli_tables_walk.specs.Shapes.{case_shape, context_view, hops_shape, line_options};
ghost use Rattle.neli_tables_walk.specs.declared.shape.Shape.TheVariants.{Row};
ghost use Rattle.neli_tables_walk.specs.Shapes.{ListSeen, listed_view};
ghost use Rattle.neli_tables_walk.specs.Walks.{listed_shape};
ghost use Rattle.neli_tables_walk.specs.Shapes.{nest_of, nest_shape};
ghost use Rattle.neli_tables_walk.specs.Shapes.{onto, options_shape, row_shape, size_of};

use crate::level::{Level, Listed};
use crate::{Nest, Shape};
use neli_tables::{Kind, Options, Table};

/// What payloads are read by: a family's table, and the address family of the message.
#[derive(Clone, Copy)]
pub struct Context<'w, 't> {
    /// The table.
    pub table: &'w Table<'t>,
    /// The first byte of the message's body, which is its family; 0 where it has none.
    pub family: u8,
}

impl<'w, 't> Context<'w, 't> {
    /// What a message's body is by the line of the message at this place. Where it is a nest,
    /// [`Walk`](crate::Walk) gives what is in it. Without such a line it is bytes.
    pub fn body_shape(&self, message: usize, body: &[u8]) -> Shape
        ensures { result ≡ case_shape self.now.table.now (Some message) body.now }
    {
        self.case_shape(Some(message), body)
    }

    /// What the options of the line at this place say.
    pub(crate) fn line_options(&self, place: usize) -> Option<&'w Options>
        ensures { option_map (λ options. options.now) result
            ≡ line_options self.now.table.now place }
    {
        self.table.options(place)
    }

    /// The size in bytes of the structure at this place; 0 where there is none.
    fn size_of(&self, place: Option<usize>) -> usize
        ensures { result ≡ size_of self.now.table.now place }
    {
        let Some(place) = place else {
            return 0;
        };
        match self.table.line(place) {
            Some(line) => match line.span {
                Some(span) => span.first as usize,
                None => 0,
            },
            None => 0,
        }
    }

    /// The list of attributes that options mean.
    fn nest_of(&self, options: &Options) -> Option<Nest>
        ensures { result ≡ nest_of self.now.table.now options.now }
    {
        let set = options.of?;
        Some(Nest {
            set,
            after: options.after,
            header: self.size_of(options.after),
        })
    }

    /// What a payload is by the options of the line at this place, which are not those of a choice.
    fn options_shape(&self, place: usize, options: &Options, payload: &[u8]) -> Shape
        ensures { result ≡ options_shape self.now.table.now place options.now payload.now }
    {
        match options.kind {
            Some(Kind::Nest) => nest_shape(self.nest_of(options), payload),
            Some(Kind::Hops) => hops_shape(self.nest_of(options)),
            _ => Shape::Row(place),
        }
    }

    /// What a payload is by the case at this place.
    fn case_shape(&self, case: Option<usize>, payload: &[u8]) -> Shape
        ensures { result ≡ case_shape self.now.table.now case payload.now }
    {
        let Some(place) = case else {
            return Shape::Bytes;
        };
        match self.line_options(place) {
            Some(options) => self.options_shape(place, options, payload),
            None => Shape::Bytes,
        }
    }

    /// What a payload is by its row, in this list and these around it: a hop is its structure and
    /// its attributes.
    pub(crate) fn listed_shape(
        &self,
        list: &Listed<'_>,
        around: &[Level<'_>],
        row: Option<usize>,
        payload: &[u8],
    ) -> Shape
        ensures { result
            ≡ listed_shape (context_view self.now) (listed_view list.now)
            (onto around.now []) row payload.now }
    {
        if list.sort.is_hops {
            Shape::Nest(list.sort.nest)
        } else {
            self.row_shape(list, around, row, payload)
        }
    }

    /// This row, where it alone says what a payload is: its kind is neither attributes nor hops, and
    /// is no choice.
    #[inline(always)]
    pub(crate) fn plain_row(&self, row: Option<usize>) -> Option<usize>
        ensures { IfSome result (λ place. (lists : List ListSeen) (payload : List ℕ)
            → row_shape (context_view self.now) lists row payload ≡ Row place) }
    {
        let place = row?;
        let options = self.line_options(place)?;
        match options.kind {
            Some(Kind::Nest | Kind::Hops | Kind::Choice) => None,
            _ => Some(place),
        }
    }

    /// What the payload of an attribute is by its row, in this list and these around it.
    pub(crate) fn row_shape(
        &self,
        list: &Listed<'_>,
        around: &[Level<'_>],
        row: Option<usize>,
        payload: &[u8],
    ) -> Shape
        ensures { result
            ≡ row_shape (context_view self.now)
            (listed_view list.now ∷ onto around.now []) row payload.now }
    {
        let Some(place) = row else {
            return Shape::Bytes;
        };
        let Some(options) = self.line_options(place) else {
            return Shape::Bytes;
        };
        match options.kind {
            Some(Kind::Choice) => self.case_shape(self.chosen(list, around, options), payload),
            _ => self.options_shape(place, options, payload),
        }
    }
}

/// The attributes of a nest, after its structure.
pub(crate) fn nest_shape(nest: Option<Nest>, payload: &[u8]) -> Shape
    ensures { result ≡ nest_shape nest payload.now }
{
    let Some(nest) = nest else {
        return Shape::Bytes;
    };
    if payload.len() < nest.header {
        return Shape::Short(nest);
    }
    Shape::Nest(nest)
}

/// Hops.
fn hops_shape(nest: Option<Nest>) -> Shape
    ensures { result ≡ hops_shape nest }
{
    match nest {
        Some(nest) => Shape::Hops(nest),
        None => Shape::Bytes,
    }
}
