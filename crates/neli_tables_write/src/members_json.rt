//! Attributes from an object of JSON whose members are their names.

use crate::asked::Part;
use crate::attributes::{NESTED, NUMBER};
use crate::attributes_json::named;
use crate::json::{DEPTH, Others, digits_bytes, json_bytes, plain_digits};
use crate::message::Message;
use crate::{Why, row_named};
use neli_tables::{Kind, Options};
use serde_json::Value;

/// Whether an attribute may need another one of its list before it: one that may say what it is.
fn is_late(kind: Option<Kind>) -> bool {
    matches!(kind, Some(Kind::Nest | Kind::Hops | Kind::Choice))
}

/// Whether a value stands for an attribute that is not there: `null`, and `false` of a flag.
fn is_absent(kind: Option<Kind>, value: &Value) -> bool {
    value.is_null() || (kind == Some(Kind::Flag) && value.as_bool() == Some(false))
}

/// The values of an array that are an attribute each; `None` where the value is one attribute's.
fn several<'v>(options: &Options, value: &'v Value) -> Option<&'v [Value]> {
    if options.array || options.flags.is_some() {
        return None;
    }
    let items = value.as_array()?;
    Some(items)
}

impl<'w, 't> Message<'w, 't> {
    /// What an object has for the innermost open list: fields of the structure before it, and attributes, by their
    /// names. Fields come first, then attributes with values, and then those whose meaning others may pick.
    ///
    /// Refused with the name of the member.
    #[cycle(members)]
    pub(crate) fn take_members<'v>(
        &mut self,
        value: &'v Value,
        depth: usize,
    ) -> Result<(), (&'v str, Why)> {
        let Some(depth) = depth.checked_sub(1) else {
            return Err(("", Why::TooDeep));
        };
        self.take_fields(value, Others::Passed)?;
        let Some(members) = value.as_object() else {
            return Err(("", Why::OtherSort));
        };
        for late in [false, true] {
            for (name, member) in members.iter() {
                self.take_member(name.as_str(), member, late, depth)?;
            }
        }
        Ok(())
    }

    /// One member, in the turn of those that are late, or of the others. A field is taken already.
    #[cycle(members)]
    fn take_member<'v>(
        &mut self,
        name: &'v str,
        member: &'v Value,
        late: bool,
        depth: usize,
    ) -> Result<(), (&'v str, Why)> {
        if self.is_field(name) {
            return Ok(());
        }
        let row = match self.row_or_number(name) {
            Ok(row) => row,
            Err(why) => return Err((name, why)),
        };
        let kind = match row.0 {
            Some(row) => self.kind(row),
            None => None,
        };
        if late != is_late(kind) || is_absent(kind, member) {
            return Ok(());
        }
        match row {
            (Some(row), number) => self.take_known(name, row, number, member, depth),
            (None, number) => named(self.take_unknown(number, member), name),
        }
    }

    /// Whether the structure before the innermost open list has a field of this name.
    fn is_field(&self, name: &str) -> bool {
        match self.innermost_structure() {
            Some(place) => row_named(self.table(), place, name.as_bytes()).is_some(),
            None => false,
        }
    }

    /// The kind of the row at this place.
    fn kind(&self, row: usize) -> Option<Kind> {
        self.table().options(row)?.kind
    }

    /// The row of an attribute and its number, by its name, or by decimal digits.
    fn row_or_number(&self, name: &str) -> Result<(Option<usize>, u16), Why> {
        if self.innermost().is_none() {
            return Err(Why::NoName);
        }
        if let Some(row) = self.numbered_row(name) {
            return Ok((Some(row), self.number_of(row)?));
        }
        match name.parse::<u16>() {
            Ok(number) if number <= NUMBER => Ok((self.row_of(number), number)),
            _ => Err(Why::NoName),
        }
    }

    /// The row of this name, where it is that of one attribute, and not of all without a row.
    fn numbered_row(&self, name: &str) -> Option<usize> {
        let row = self.row(name).ok()?;
        let line = self.table().line(row)?;
        if line.span.is_some() { Some(row) } else { None }
    }

    /// An attribute without a row, by its bytes.
    fn take_unknown(&mut self, number: u16, member: &Value) -> Result<(), Why> {
        let digits = plain_digits(member).ok_or(Why::OtherSort)?;
        let bytes = digits_bytes(self.alloc(), digits)?;
        self.ask_value(number, bytes)
    }

    /// An attribute, or several, of the row at this place.
    #[cycle(members)]
    fn take_known<'v>(
        &mut self,
        name: &'v str,
        row: usize,
        number: u16,
        member: &'v Value,
        depth: usize,
    ) -> Result<(), (&'v str, Why)> {
        let (place, options) = match self.meaning(row) {
            Ok(meaning) => meaning,
            Err(why) => return Err((name, why)),
        };
        match several(&options, member) {
            Some(items) if options.kind != Some(Kind::Hops) => {
                for item in items {
                    self.take_one(name, (row, place, number), &options, item, depth)?;
                }
                Ok(())
            }
            _ => self.take_one(name, (row, place, number), &options, member, depth),
        }
    }

    /// The line that says what the attribute of this row is, and its options.
    fn meaning(&self, row: usize) -> Result<(usize, Options), Why> {
        let place = match self.place_of(row) {
            Err(Why::NoCase) => self.any_case(row)?,
            place => place?,
        };
        let options = self.table().options(place).ok_or(Why::NoName)?;
        Ok((place, *options))
    }

    /// The case of the choice of this row that stands for all without one.
    fn any_case(&self, row: usize) -> Result<usize, Why> {
        let options = self.table().options(row).ok_or(Why::NoName)?;
        let choice = options.of.ok_or(Why::NoCase)?;
        self.table().rest(choice).ok_or(Why::NoCase)
    }

    /// One attribute with this row, this meaning and this number.
    #[cycle(members)]
    fn take_one<'v>(
        &mut self,
        name: &'v str,
        (row, place, number): (usize, usize, u16),
        options: &Options,
        member: &'v Value,
        depth: usize,
    ) -> Result<(), (&'v str, Why)> {
        let taken = match options.kind {
            Some(Kind::Nest) => self.open_at(place, Some(row), Part::Nest(number | NESTED)),
            Some(Kind::Hops) => self.open_at(place, Some(row), Part::Hops(number)),
            _ => self.take_plain(number, options, member),
        };
        named(taken, name)?;
        match options.kind {
            Some(Kind::Nest) => self.take_members(member, depth)?,
            Some(Kind::Hops) => self.take_hops(member, depth)?,
            _ => return Ok(()),
        }
        self.close();
        Ok(())
    }

    /// The hops of an array.
    #[cycle(members)]
    fn take_hops<'v>(&mut self, value: &'v Value, depth: usize) -> Result<(), (&'v str, Why)> {
        let Some(items) = value.as_array() else {
            return Err(("", Why::OtherSort));
        };
        for item in items {
            named(self.open_hop(), "")?;
            self.take_members(item, depth)?;
            self.close();
        }
        Ok(())
    }

    /// An attribute with a value.
    fn take_plain(&mut self, number: u16, options: &Options, member: &Value) -> Result<(), Why> {
        let bytes = json_bytes(self.alloc(), self.table(), options, member, DEPTH)?;
        self.ask_value(number, bytes)
    }
}
