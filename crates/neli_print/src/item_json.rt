//! An item of a walk in JSON.

ghost use Rattle.std.specs.Prelude.{Some};
ghost use Rattle.neli_tables_walk.specs.Walks.{item_view};
ghost use Rattle.neli_print.specs.Items.{entry_view};
ghost use Rattle.neli_print.specs.ItemsJson.{breach_member, content_json, element_json, item_json};
ghost use Rattle.neli_print.specs.ItemsJson.{label_json, left_json, row_json, value_json};
ghost use Rattle.neli_print.specs.ItemsJson.{visit_json};

use crate::fault::Fault;
use crate::item::{Entry, Open};
use crate::names::{LineNameMember, Structure, StructureMembers, row_name};
use crate::pieces::{Repeated, When};
use crate::rests::{RestMember, rest_of};
use neli_attr::AttrType;
use neli_tables::Table;
use neli_tables_walk::{
    Breach, BytesJson, Decimal, Found, Hex, Item, NumberJson, Payload, PayloadJson, Rest, Shape,
    Step, breach_of,
};
use std::fmt;
use std::fmt::Display;

/// The first members of an attribute: its number, its name if it has a row, and the flags of its
/// type.
#[derive(Clone, Copy)]
struct Label<'w, 't> {
    table: &'w Table<'t>,
    step: Option<Step>,
    kind: AttrType<u16>,
}

impl fmt::Display for Label<'_, '_> {
    ghost output = { λ l. Some (label_json l.table.now l.step l.kind) };

    fn fmt<W: fmt::Write>(&self, f: &mut fmt::Formatter<W>) -> fmt::Result {
        let number = Decimal(*self.kind.nla_type() as u64);
        let name = LineNameMember(row_name(self.table, self.step));
        let nested = When {
            holds: *self.kind.nla_nested(),
            text: ",\"nested\":true",
        };
        let order = When {
            holds: *self.kind.nla_network_order(),
            text: ",\"net_byteorder\":true",
        };
        f.write_str("\"number\":")?;
        Display::fmt(&number, f)?;
        Display::fmt(&name, f)?;
        Display::fmt(&nested, f)?;
        Display::fmt(&order, f)
    }
}

/// The member that says how a payload breaches its kind, after others; nothing where it does not.
#[derive(Clone, Copy)]
struct BreachMember(Option<Breach>);

impl fmt::Display for BreachMember {
    ghost output = { λ b. Some (breach_member b.0) };

    fn fmt<W: fmt::Write>(&self, f: &mut fmt::Formatter<W>) -> fmt::Result {
        match self.0 {
            Some(breach) => write!(f, ",\"broken\":\"{breach}\""),
            None => Ok(()),
        }
    }
}

/// The end of an attribute that is not entered: what it is by the line at this place.
#[derive(Clone, Copy)]
struct Row<'b, 'w, 't>(Payload<'b, 'w, 't>);

impl fmt::Display for Row<'_, '_, '_> {
    ghost output = { λ r. Some (row_json r.0.table.now r.0.place r.0.bytes.now) };

    fn fmt<W: fmt::Write>(&self, f: &mut fmt::Formatter<W>) -> fmt::Result {
        if let Some(number) = self.0.digits() {
            f.write_str(",\"value\":")?;
            Display::fmt(&NumberJson(number), f)?;
            return f.write_str("}");
        }
        let broken = BreachMember(breach_of(&self.0));
        let value = PayloadJson(self.0);
        let rest = RestMember(rest_of(self.0.table, self.0.place, self.0.bytes));
        Display::fmt(&broken, f)?;
        f.write_str(",\"value\":")?;
        Display::fmt(&value, f)?;
        Display::fmt(&rest, f)?;
        f.write_str("}")
    }
}

/// The end of an attribute that is bytes, with what stands before them.
#[derive(Clone, Copy)]
struct Value<'b> {
    broken: Option<Breach>,
    bytes: &'b [u8],
}

impl fmt::Display for Value<'_> {
    ghost output = { λ v. Some (value_json v.broken v.bytes.now) };

    fn fmt<W: fmt::Write>(&self, f: &mut fmt::Formatter<W>) -> fmt::Result {
        let broken = BreachMember(self.broken);
        let bytes = BytesJson(self.bytes);
        write!(f, "{broken},\"value\":{bytes}}}")
    }
}

/// What stands behind an attribute's first members: its value and its end, or the beginning of the
/// list in it.
#[derive(Clone, Copy)]
struct Content<'b, 'w, 't> {
    table: &'w Table<'t>,
    shape: Shape,
    payload: &'b [u8],
}

impl fmt::Display for Content<'_, '_, '_> {
    ghost output = { λ c. Some (content_json c.table.now c.shape c.payload.now) };

    fn fmt<W: fmt::Write>(&self, f: &mut fmt::Formatter<W>) -> fmt::Result {
        match &self.shape {
            Shape::Row(place) => {
                let row = Row(Payload {
                    table: self.table,
                    place: *place,
                    bytes: self.payload,
                });
                Display::fmt(&row, f)
            }
            Shape::Nest(nest) => {
                let structure = StructureMembers(Structure::of_nest(
                    self.table,
                    nest,
                    self.payload,
                ));
                write!(f, "{structure},\"attributes\":[")
            }
            Shape::Hops(_) => write!(f, ",\"structures\":["),
            Shape::Bytes => {
                let value = Value {
                    broken: None,
                    bytes: self.payload,
                };
                write!(f, "{value}")
            }
            Shape::Short(nest) => {
                let value = Value {
                    broken: Some(Breach::Shorter(nest.header)),
                    bytes: self.payload,
                };
                write!(f, "{value}")
            }
            Shape::Deep(_) => {
                let bytes = BytesJson(self.payload);
                write!(f, ",\"broken\":\"nested too deep\",\"value\":{bytes}}}")
            }
        }
    }
}

/// An attribute or a hop, whose end stands behind the list that it has, if it has one.
#[derive(Clone, Copy)]
struct Element<'i, 'b, 'w, 't> {
    table: &'w Table<'t>,
    step: Option<Step>,
    found: &'i Found<'b>,
}

impl fmt::Display for Element<'_, '_, '_, '_> {
    ghost output = { λ e. Some (element_json e.table.now e.step
        (e.found.now.kind, e.found.now.payload.now, e.found.now.shape)) };

    fn fmt<W: fmt::Write>(&self, f: &mut fmt::Formatter<W>) -> fmt::Result {
        let content = Content {
            table: self.table,
            shape: self.found.shape,
            payload: self.found.payload,
        };
        match self.found.kind {
            Some(kind) => {
                let label = Label {
                    table: self.table,
                    step: self.step,
                    kind,
                };
                f.write_str("{")?;
                Display::fmt(&label, f)?;
                Display::fmt(&content, f)
            }
            None => {
                let length = self.found.payload.len();
                write!(f, "{{\"length\":{length}{content}")
            }
        }
    }
}

/// What is left of a list.
#[derive(Clone, Copy)]
struct Left<'i, 'b>(&'i Rest<'b>);

impl fmt::Display for Left<'_, '_> {
    ghost output = { λ l. Some (left_json l.0.now.bytes.now l.0.now.error) };

    fn fmt<W: fmt::Write>(&self, f: &mut fmt::Formatter<W>) -> fmt::Result {
        let fault = Fault(&self.0.error);
        let bytes = Hex(self.0.bytes);
        write!(f, "{{\"fault\":\"{fault}\",\"rest\":\"{bytes}\"}}")
    }
}

/// An item of a walk in JSON: the ends of the lists that it is not in, a comma if it needs one, and
/// an object; the object of a nest, of hops and of a hop ends with the list in it.
#[derive(Clone, Copy)]
pub struct ItemJson<'i, 'b, 'w, 't> {
    /// The table that the walk reads by.
    pub table: &'w Table<'t>,
    /// What is open before the item.
    pub open: Open,
    /// The item.
    pub item: &'i Item<'b>,
}

impl fmt::Display for ItemJson<'_, '_, '_, '_> {
    ghost output = { λ i. Some (item_json i.table.now i.open (item_view i.item.now)) };

    fn fmt<W: fmt::Write>(&self, f: &mut fmt::Formatter<W>) -> fmt::Result {
        let json = EntryJson {
            table: self.table,
            open: self.open,
            entry: Entry::of_item(self.item),
        };
        Display::fmt(&json, f)
    }
}

/// An entry in JSON: the ends of the lists that it is not in, a comma if it needs one, and an object;
/// the object of a nest, of hops and of a hop ends with the list in it.
#[derive(Clone, Copy)]
pub(crate) struct EntryJson<'i, 'b, 'w, 't> {
    pub table: &'w Table<'t>,
    pub open: Open,
    pub entry: Entry<'i, 'b>,
}

impl fmt::Display for EntryJson<'_, '_, '_, '_> {
    ghost output = { λ e. Some (visit_json e.table.now e.open (entry_view e.entry)) };

    fn fmt<W: fmt::Write>(&self, f: &mut fmt::Formatter<W>) -> fmt::Result {
        let depth = self.open.depth(self.entry.lists);
        let ends = Repeated {
            text: "]}",
            count: self.open.lists.saturating_sub(depth),
        };
        let comma = When {
            holds: !self.open.is_first || depth != self.open.lists,
            text: ",",
        };
        match self.entry.content {
            Ok(found) => {
                let element = Element {
                    table: self.table,
                    step: self.entry.step,
                    found,
                };
                Display::fmt(&ends, f)?;
                Display::fmt(&comma, f)?;
                Display::fmt(&element, f)
            }
            Err(rest) => {
                let left = Left(rest);
                write!(f, "{ends}{comma}{left}")
            }
        }
    }
}
