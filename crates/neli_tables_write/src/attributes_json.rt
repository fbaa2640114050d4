//! A message from JSON of the form that `neli_show json` prints.

use crate::asked::Part;
use crate::attributes::{NESTED, NET_BYTEORDER, NUMBER};
use crate::choice::case_of;
use crate::json::{DEPTH, Others, digits_bytes, integer_of, json_bytes, plain_digits};
use crate::message::Message;
use crate::{Integer, MAX_PAYLOAD, Refusal, Why};
use neli_tables::{Kind, Table};
use neli_tables_walk::MAX_DEPTH;
use serde_json::Value;
use std::alloc::Global;

/// What an attribute with attributes in it is.
#[derive(Clone, Copy)]
enum Opened {
    Nest,
    Hops,
}

/// What was taken, or a refusal with the name of what it is about.
pub(crate) fn named<'v>(taken: Result<(), Why>, name: &'v str) -> Result<(), (&'v str, Why)> {
    match taken {
        Ok(()) => Ok(()),
        Err(why) => Err((name, why)),
    }
}

/// Whether a member is true.
fn holds(value: &Value, name: &str) -> bool {
    match value.get(name) {
        Some(member) => member.as_bool() == Some(true),
        None => false,
    }
}

/// A member that is a number without a sign.
pub(crate) fn number_in(value: &Value, name: &str) -> Result<Option<u64>, Why> {
    let Some(member) = value.get(name) else {
        return Ok(None);
    };
    match integer_of(member) {
        Some(Integer::Unsigned(number)) => Ok(Some(number)),
        _ => Err(Why::Range),
    }
}

/// The name that an object of an attribute has; empty where it has none.
fn name_of(item: &Value) -> &str {
    match item.get("name") {
        Some(name) => name.as_str().unwrap_or(""),
        None => "",
    }
}

/// The flags of an attribute's type field that an object has.
fn flags_of(item: &Value) -> u16 {
    let nested = if holds(item, "nested") { NESTED } else { 0 };
    let order = if holds(item, "net_byteorder") {
        NET_BYTEORDER
    } else {
        0
    };
    nested | order
}

impl<'w, 't> Message<'w, 't> {
    /// The message of the line at this place, as an object of JSON has it: the form that `neli_show json` prints, or
    /// with an object of names in place of the array of its attributes (docs/WRITING.md).
    ///
    /// Refused as the calls that write such a message by names are, with the names of the members that it is about.
    pub fn from_json(
        alloc: Global,
        table: &'w Table<'t>,
        line: usize,
        value: &Value,
    ) -> Result<Message<'w, 't>, Refusal<'t>> {
        let mut message = match Message::of(alloc, table, line) {
            Ok(message) => message,
            Err(why) => return Err(Refusal::bare(alloc, why)),
        };
        match message.take_json(value) {
            Ok(()) => Ok(message),
            Err((name, why)) => Err(message.refusal_here(name, why)),
        }
    }

    /// Takes what an object of JSON has of the body: the members `fields` and `attributes`, or `payload`, and `rest`.
    ///
    /// Refused with a name, the message has part of it, and is to be dropped.
    pub(crate) fn take_json<'v>(&mut self, value: &'v Value) -> Result<(), (&'v str, Why)> {
        named(self.take_generic(value), "")?;
        if let Some(fields) = value.get("fields") {
            self.take_fields(fields, Others::Refused)?;
        }
        match value.get("attributes") {
            Some(members) if members.is_object() => self.take_members(members, MAX_DEPTH + 1)?,
            Some(items) => self.take_list(items, MAX_DEPTH + 1)?,
            None => {}
        }
        named(self.take_whole(value), "")
    }

    /// Takes the version and what follows it in the header of generic netlink.
    fn take_generic(&mut self, value: &Value) -> Result<(), Why> {
        self.set_generic(number_in(value, "version")?, number_in(value, "reserved")?);
        Ok(())
    }

    /// Takes the length of a body that is cut off, and a body that is bytes.
    fn take_whole(&mut self, value: &Value) -> Result<(), Why> {
        if let Some(length) = number_in(value, "length")? {
            self.end_at(length);
        }
        if let Some(payload) = value.get("payload") {
            let digits = plain_digits(payload).ok_or(Why::OtherSort)?;
            let bytes = digits_bytes(self.alloc(), digits)?;
            self.take_body(bytes);
        }
        Ok(())
    }

    /// What an array of a list has: attributes, hops, and bytes behind them.
    #[cycle(lists)]
    fn take_list<'v>(&mut self, value: &'v Value, depth: usize) -> Result<(), (&'v str, Why)> {
        let Some(depth) = depth.checked_sub(1) else {
            return Err(("", Why::TooDeep));
        };
        let Some(items) = value.as_array() else {
            return Err(("", Why::OtherSort));
        };
        for item in items {
            self.take_item(item, items, depth)?;
        }
        Ok(())
    }

    /// One of a list, of which all are these.
    #[cycle(lists)]
    fn take_item<'v>(
        &mut self,
        item: &'v Value,
        items: &[Value],
        depth: usize,
    ) -> Result<(), (&'v str, Why)> {
        if item.get("fault").is_some() {
            return named(self.take_rest(item), "");
        }
        if item.get("length").is_some() {
            return self.take_hop(item, depth);
        }
        if let Some(inner) = item.get("attributes") {
            named(self.open_item(item, items, Opened::Nest), name_of(item))?;
            return self.take_opened(item, inner, depth);
        }
        if let Some(inner) = item.get("structures") {
            named(self.open_item(item, items, Opened::Hops), name_of(item))?;
            self.take_list(inner, depth)?;
            self.close();
            return Ok(());
        }
        named(self.take_value(item, items), name_of(item))
    }

    /// Opens the list of an attribute.
    fn open_item(&mut self, item: &Value, items: &[Value], opened: Opened) -> Result<(), Why> {
        let number = self.number(item)?;
        let row = self.row_of(number).ok_or(Why::NoName)?;
        let place = self.place_among(row, items)?;
        let field = number | flags_of(item);
        let part = match opened {
            Opened::Nest => Part::Nest(field),
            Opened::Hops => Part::Hops(field),
        };
        self.open_at(place, Some(row), part)
    }

    /// Bytes behind the attributes of a list.
    fn take_rest(&mut self, item: &Value) -> Result<(), Why> {
        let bytes = self.rest_of(item)?;
        Ok(self.ask(Part::Rest, bytes)?)
    }

    /// A hop.
    #[cycle(lists)]
    fn take_hop<'v>(&mut self, item: &'v Value, depth: usize) -> Result<(), (&'v str, Why)> {
        let Some(inner) = item.get("attributes") else {
            return Err(("", Why::NoValue));
        };
        named(self.open_hop(), "")?;
        self.take_opened(item, inner, depth)
    }

    /// Opens a hop.
    pub(crate) fn open_hop(&mut self) -> Result<(), Why> {
        let nest = self.innermost().ok_or(Why::NoNest)?;
        self.open_list(nest, None, Part::Hop)
    }

    /// The structure and the attributes of a nest that was opened last, which is then left.
    #[cycle(lists)]
    fn take_opened<'v>(
        &mut self,
        item: &'v Value,
        inner: &'v Value,
        depth: usize,
    ) -> Result<(), (&'v str, Why)> {
        if let Some(fields) = item.get("fields") {
            self.take_fields(fields, Others::Refused)?;
        }
        self.take_list(inner, depth)?;
        self.close();
        Ok(())
    }

    /// The number of an attribute, by its member `number`, or else by its name.
    fn number(&self, item: &Value) -> Result<u16, Why> {
        if let Some(number) = number_in(item, "number")? {
            return if number <= NUMBER as u64 {
                Ok(number as u16)
            } else {
                Err(Why::Range)
            };
        }
        let name = item.get("name").ok_or(Why::NoName)?;
        let row = self.row(name.as_str().ok_or(Why::OtherSort)?)?;
        self.number_of(row)
    }

    /// The bytes that the member `rest` has; none where it is missing.
    fn rest_of(&self, item: &Value) -> Result<Vec<u8>, Why> {
        match item.get("rest") {
            Some(rest) => digits_bytes(self.alloc(), rest.as_str().ok_or(Why::OtherSort)?),
            None => Ok(Vec::new(self.alloc())),
        }
    }

    /// The place of the line that says what the attribute of this row is, among these of its list.
    fn place_among(&self, row: usize, items: &[Value]) -> Result<usize, Why> {
        match self.place_of(row) {
            Err(Why::NoCase) => self.case_among(row, items),
            place => place,
        }
    }

    /// The case of the choice of this row that a later one of its list picks.
    fn case_among(&self, row: usize, items: &[Value]) -> Result<usize, Why> {
        let options = self.table().options(row).ok_or(Why::NoName)?;
        let choice = options.of.ok_or(Why::NoCase)?;
        let by = options.by.ok_or(Why::NoCase)?;
        for item in items {
            let Some(number) = number_in(item, "number")? else {
                continue;
            };
            if number <= NUMBER as u64 && self.row_of(number as u16) == Some(by) {
                let picker = self.table().options(by).ok_or(Why::NoCase)?;
                let value = item.get("value").ok_or(Why::NoCase)?;
                let bytes = json_bytes(self.alloc(), self.table(), picker, value, DEPTH)?;
                return case_of(self.table(), choice, picker.kind, &bytes).ok_or(Why::NoCase);
            }
        }
        self.table().rest(choice).ok_or(Why::NoCase)
    }

    /// An attribute with a value.
    fn take_value(&mut self, item: &Value, items: &[Value]) -> Result<(), Why> {
        let number = self.number(item)?;
        let value = item.get("value").ok_or(Why::NoValue)?;
        let mut bytes = self.value_of(number, value, items)?;
        let rest = self.rest_of(item)?;
        bytes.extend_from_slice(&rest)?;
        self.ask_value(number | flags_of(item), bytes)
    }

    /// Asks for an attribute with these bytes, where its length can be stated.
    pub(crate) fn ask_value(&mut self, field: u16, bytes: Vec<u8>) -> Result<(), Why> {
        if bytes.len() > MAX_PAYLOAD {
            return Err(Why::TooLong);
        }
        Ok(self.ask(Part::Attribute(field), bytes)?)
    }

    /// The bytes of the value of an attribute with this number.
    fn value_of(&self, number: u16, value: &Value, items: &[Value]) -> Result<Vec<u8>, Why> {
        if let Some(digits) = plain_digits(value) {
            return digits_bytes(self.alloc(), digits);
        }
        let row = self.row_of(number).ok_or(Why::NoName)?;
        let place = self.place_among(row, items)?;
        let options = self.table().options(place).ok_or(Why::NoName)?;
        if matches!(options.kind, Some(Kind::Nest | Kind::Hops)) {
            return Err(Why::IsNest);
        }
        json_bytes(self.alloc(), self.table(), options, value, DEPTH)
    }
}
