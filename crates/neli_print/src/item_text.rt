//! An item of a walk as a line of text.

ghost use Rattle.std.specs.Prelude.{Some};
ghost use Rattle.std.specs.Option.{option_map};
ghost use Rattle.neli_tables_walk.specs.Names.{line_name};
ghost use Rattle.neli_tables_walk.specs.Walks.{item_view};
ghost use Rattle.neli_print.specs.Items.{entry_view};
ghost use Rattle.neli_print.specs.ItemsText.{breach_words, content_text, element_text, index_words};
ghost use Rattle.neli_print.specs.ItemsText.{item_text, label_text, left_text, name_words};
ghost use Rattle.neli_print.specs.ItemsText.{row_words, visit_text};

use crate::fault::Fault;
use crate::item::Entry;
use crate::names::{Structure, StructureText, is_each, row_name};
use crate::pieces::{Colour, When, escape, indent};
use crate::rests::{RestWords, rest_of};
use neli_attr::AttrType;
use neli_tables::Table;
use neli_tables_walk::{
    Breach, Bytes, Found, Item, LineName, NumberJson, Payload, PayloadText, Rest, Shape, Step,
    breach_of,
};
use std::fmt;
use std::fmt::Display;

/// An attribute by its name, or by its number if it has no row.
#[derive(Clone, Copy)]
struct RowName<'w, 't> {
    is_coloured: bool,
    name: Option<LineName<'w, 't>>,
    number: u16,
}

impl fmt::Display for RowName<'_, '_> {
    ghost output = { λ r. Some (row_words r.is_coloured
        (option_map (λ name. line_name name.table.now name.place) r.name) r.number) };

    #[tactic(auto, unfolding(crate::specs::ItemsText::row_words))]
    fn fmt<W: fmt::Write>(&self, f: &mut fmt::Formatter<W>) -> fmt::Result {
        let start = escape(self.is_coloured, Colour::Attribute);
        let end = escape(self.is_coloured, Colour::End);
        match self.name {
            Some(name) => {
                Display::fmt(&start, f)?;
                Display::fmt(&name, f)?;
                Display::fmt(&end, f)
            }
            None => {
                let number = self.number;
                write!(f, "{start}{number}{end}")
            }
        }
    }
}

/// The number of an attribute in brackets, where its name is that of each number.
#[derive(Clone, Copy)]
struct IndexWords {
    is_each: bool,
    number: u16,
}

impl fmt::Display for IndexWords {
    ghost output = { λ i. Some (index_words i.is_each i.number) };

    fn fmt<W: fmt::Write>(&self, f: &mut fmt::Formatter<W>) -> fmt::Result {
        let number = self.number;
        if self.is_each {
            write!(f, "[{number}]")
        } else {
            Ok(())
        }
    }
}

/// An attribute by its name or its number, or both where the name is that of each number.
#[derive(Clone, Copy)]
struct NameWords<'w, 't> {
    is_coloured: bool,
    table: &'w Table<'t>,
    step: Option<Step>,
    number: u16,
}

impl fmt::Display for NameWords<'_, '_> {
    ghost output = { λ n. Some (name_words n.is_coloured n.table.now n.step
        n.number) };

    #[tactic(auto, unfolding(crate::specs::ItemsText::name_words))]
    fn fmt<W: fmt::Write>(&self, f: &mut fmt::Formatter<W>) -> fmt::Result {
        let name = RowName {
            is_coloured: self.is_coloured,
            name: row_name(self.table, self.step),
            number: self.number,
        };
        let index = IndexWords {
            is_each: is_each(self.table, self.step),
            number: self.number,
        };
        Display::fmt(&name, f)?;
        Display::fmt(&index, f)
    }
}

/// An attribute: its name or its number, and the flags of its type.
#[derive(Clone, Copy)]
struct Label<'w, 't> {
    is_coloured: bool,
    table: &'w Table<'t>,
    step: Option<Step>,
    kind: AttrType<u16>,
}

impl fmt::Display for Label<'_, '_> {
    ghost output = { λ l. Some (label_text l.is_coloured l.table.now l.step
        l.kind) };

    fn fmt<W: fmt::Write>(&self, f: &mut fmt::Formatter<W>) -> fmt::Result {
        let name = NameWords {
            is_coloured: self.is_coloured,
            table: self.table,
            step: self.step,
            number: *self.kind.nla_type(),
        };
        let nested = When {
            holds: *self.kind.nla_nested(),
            text: " nested",
        };
        let order = When {
            holds: *self.kind.nla_network_order(),
            text: " net_byteorder",
        };
        Display::fmt(&name, f)?;
        Display::fmt(&nested, f)?;
        Display::fmt(&order, f)
    }
}

/// How a payload breaches its kind; nothing where it does not.
#[derive(Clone, Copy)]
struct BreachWords(Option<Breach>);

impl fmt::Display for BreachWords {
    ghost output = { λ b. Some (breach_words b.0) };

    fn fmt<W: fmt::Write>(&self, f: &mut fmt::Formatter<W>) -> fmt::Result {
        match self.0 {
            Some(breach) => write!(f, " broken: {breach}:"),
            None => Ok(()),
        }
    }
}

/// What stands behind an attribute's name.
#[derive(Clone, Copy)]
struct Content<'b, 'w, 't> {
    is_coloured: bool,
    table: &'w Table<'t>,
    shape: Shape,
    payload: &'b [u8],
}

impl fmt::Display for Content<'_, '_, '_> {
    ghost output = { λ c. Some (content_text c.is_coloured c.table.now c.shape c.payload.now) };

    fn fmt<W: fmt::Write>(&self, f: &mut fmt::Formatter<W>) -> fmt::Result {
        let bytes = Bytes(self.payload);
        match &self.shape {
            Shape::Row(place) => {
                let payload = Payload {
                    table: self.table,
                    place: *place,
                    bytes: self.payload,
                };
                if let Some(number) = payload.digits() {
                    f.write_str(" ")?;
                    return Display::fmt(&NumberJson(number), f);
                }
                let broken = BreachWords(breach_of(&payload));
                let value = PayloadText(payload);
                let rest = RestWords(rest_of(self.table, *place, self.payload));
                Display::fmt(&broken, f)?;
                Display::fmt(&value, f)?;
                Display::fmt(&rest, f)
            }
            Shape::Nest(nest) => {
                let blank = When {
                    holds: nest.after.is_some(),
                    text: " ",
                };
                let structure = StructureText {
                    is_coloured: self.is_coloured,
                    structure: Structure::of_nest(self.table, nest, self.payload),
                };
                Display::fmt(&blank, f)?;
                Display::fmt(&structure, f)
            }
            Shape::Hops(_) => Ok(()),
            Shape::Bytes => write!(f, " {bytes}"),
            Shape::Short(nest) => {
                let broken = BreachWords(Some(Breach::Shorter(nest.header)));
                write!(f, "{broken} {bytes}")
            }
            Shape::Deep(_) => write!(f, " broken: nested too deep: {bytes}"),
        }
    }
}

/// An attribute or a hop.
#[derive(Clone, Copy)]
struct Element<'i, 'b, 'w, 't> {
    is_coloured: bool,
    table: &'w Table<'t>,
    step: Option<Step>,
    found: &'i Found<'b>,
}

impl fmt::Display for Element<'_, '_, '_, '_> {
    ghost output = { λ e. Some (element_text e.is_coloured e.table.now e.step
        (e.found.now.kind, e.found.now.payload.now, e.found.now.shape)) };

    fn fmt<W: fmt::Write>(&self, f: &mut fmt::Formatter<W>) -> fmt::Result {
        let content = Content {
            is_coloured: self.is_coloured,
            table: self.table,
            shape: self.found.shape,
            payload: self.found.payload,
        };
        match self.found.kind {
            Some(kind) => {
                let label = Label {
                    is_coloured: self.is_coloured,
                    table: self.table,
                    step: self.step,
                    kind,
                };
                Display::fmt(&label, f)?;
                Display::fmt(&content, f)
            }
            None => {
                let start = escape(self.is_coloured, Colour::Attribute);
                let end = escape(self.is_coloured, Colour::End);
                write!(f, "{start}hop{end}{content}")
            }
        }
    }
}

/// What is left of a list.
#[derive(Clone, Copy)]
struct Left<'i, 'b> {
    is_coloured: bool,
    rest: &'i Rest<'b>,
}

impl fmt::Display for Left<'_, '_> {
    ghost output = { λ l. Some (left_text l.is_coloured l.rest.now.bytes.now l.rest.now.error) };

    fn fmt<W: fmt::Write>(&self, f: &mut fmt::Formatter<W>) -> fmt::Result {
        let start = escape(self.is_coloured, Colour::Error);
        let end = escape(self.is_coloured, Colour::End);
        let fault = Fault(&self.rest.error);
        let bytes = Bytes(self.rest.bytes);
        write!(f, "{start}fault{end}: {fault}: {bytes}")
    }
}

/// An item of a walk as a line of text.
#[derive(Clone, Copy)]
pub struct ItemText<'i, 'b, 'w, 't> {
    /// Whether names are in colours.
    pub is_coloured: bool,
    /// The table that the walk reads by.
    pub table: &'w Table<'t>,
    /// How deep the list of the body stands: two blanks a level.
    pub level: usize,
    /// The item.
    pub item: &'i Item<'b>,
}

impl fmt::Display for ItemText<'_, '_, '_, '_> {
    ghost output = { λ i. Some (item_text i.is_coloured i.table.now i.level
        (item_view i.item.now)) };

    fn fmt<W: fmt::Write>(&self, f: &mut fmt::Formatter<W>) -> fmt::Result {
        let text = EntryText {
            is_coloured: self.is_coloured,
            table: self.table,
            level: self.level,
            entry: Entry::of_item(self.item),
        };
        Display::fmt(&text, f)
    }
}

/// An entry as a line of text.
#[derive(Clone, Copy)]
pub(crate) struct EntryText<'i, 'b, 'w, 't> {
    pub is_coloured: bool,
    pub table: &'w Table<'t>,
    pub level: usize,
    pub entry: Entry<'i, 'b>,
}

impl fmt::Display for EntryText<'_, '_, '_, '_> {
    ghost output = { λ e. Some (visit_text e.is_coloured e.table.now e.level
        (entry_view e.entry)) };

    fn fmt<W: fmt::Write>(&self, f: &mut fmt::Formatter<W>) -> fmt::Result {
        let around = indent(self.level);
        let inside = indent(self.entry.lists.saturating_sub(1));
        match self.entry.content {
            Ok(found) => {
                let element = Element {
                    is_coloured: self.is_coloured,
                    table: self.table,
                    step: self.entry.step,
                    found,
                };
                Display::fmt(&around, f)?;
                Display::fmt(&inside, f)?;
                Display::fmt(&element, f)?;
                f.write_str("\n")
            }
            Err(rest) => {
                let left = Left {
                    is_coloured: self.is_coloured,
                    rest,
                };
                write!(f, "{around}{inside}{left}\n")
            }
        }
    }
}
