//! The attributes of a body.

ghost use Rattle.std.specs.Prelude.{Some};
ghost use Rattle.neli_tables_walk.specs.Shapes.{context_view};
ghost use Rattle.neli_print.specs.Lists.{list_items_json, list_member, list_text};

use crate::item::{Entry, Open};
use crate::item_json::EntryJson;
use crate::item_text::EntryText;
use crate::pieces::Repeated;
use neli_tables_walk::{Context, Nest, Walk};
use std::fmt;
use std::fmt::Display;

/// The attributes of a body, which begins with a structure or not.
#[derive(Clone, Copy)]
pub(crate) struct List<'b, 'w, 't> {
    pub context: Context<'w, 't>,
    pub nest: Nest,
    pub bytes: &'b [u8],
}

/// Attributes as lines of text, at this level.
#[derive(Clone, Copy)]
pub(crate) struct ListText<'b, 'w, 't> {
    pub is_coloured: bool,
    pub level: usize,
    pub list: List<'b, 'w, 't>,
}

impl fmt::Display for ListText<'_, '_, '_> {
    ghost output = { λ l. Some (list_text l.is_coloured l.level (context_view l.list.context)
        l.list.nest l.list.bytes.now) };

    fn fmt<W: fmt::Write>(&self, f: &mut fmt::Formatter<W>) -> fmt::Result {
        let List {
            context,
            nest,
            bytes,
        } = self.list;
        for visit in Walk::new(context, nest, bytes).visits() {
            let text = EntryText {
                is_coloured: self.is_coloured,
                table: context.table,
                level: self.level,
                entry: Entry::of_visit(&visit),
            };
            Display::fmt(&text, f)?;
        }
        Ok(())
    }
}

/// Attributes as the objects of an array of JSON, and its end.
#[derive(Clone, Copy)]
struct ListItems<'b, 'w, 't>(List<'b, 'w, 't>);

impl fmt::Display for ListItems<'_, '_, '_> {
    ghost output = { λ l. Some (list_items_json (context_view l.0.context) l.0.nest
        l.0.bytes.now) };

    fn fmt<W: fmt::Write>(&self, f: &mut fmt::Formatter<W>) -> fmt::Result {
        let List {
            context,
            nest,
            bytes,
        } = self.0;
        let mut open = Open::BODY;
        for visit in Walk::new(context, nest, bytes).visits() {
            let entry = Entry::of_visit(&visit);
            let json = EntryJson {
                table: context.table,
                open,
                entry,
            };
            Display::fmt(&json, f)?;
            open = open.after_entry(entry);
        }
        let ends = Repeated {
            text: "]}",
            count: open.lists.saturating_sub(1),
        };
        write!(f, "{ends}]")
    }
}

/// The member with the attributes, after others.
#[derive(Clone, Copy)]
pub(crate) struct ListMember<'b, 'w, 't>(pub List<'b, 'w, 't>);

impl fmt::Display for ListMember<'_, '_, '_> {
    ghost output = { λ l. Some (list_member (context_view l.0.context) l.0.nest l.0.bytes.now) };

    fn fmt<W: fmt::Write>(&self, f: &mut fmt::Formatter<W>) -> fmt::Result {
        let items = ListItems(self.0);
        write!(f, ",\"attributes\":[{items}")
    }
}
