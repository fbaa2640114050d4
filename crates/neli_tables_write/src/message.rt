//! A message that is written by names.

ghost use Rattle.std.specs.Prelude.{◌≡◌, IfOk, OnErr, length, map, take};
ghost use Rattle.neli_tables_write.specs.Asked.{asked_view};

use crate::asked::{Asked, Part, says};
use crate::attributes::{NESTED, NUMBER};
use crate::choice::case_of;
use crate::fields::set_field;
use crate::json::{DEPTH, Others, set_fields};
use crate::nested::{headed, list_of};
use crate::open::{Open, nest_of};
use crate::structure::{size_of, zeros};
use crate::{Given, MAX_PAYLOAD, Refusal, Why, request_named, row_named, value_bytes};
use arrayvec::ArrayVec;
use neli_tables::{Kind, Options, Table, Tables, options_of};
use neli_tables_walk::{Body, GenericHeader, MAX_DEPTH, Nest};
use serde_json::Value;
use std::alloc::{AllocError, Global};

/// `NETLINK_GENERIC` of `linux/netlink.h`.
const GENERIC: u64 = 16;

/// A message that is being written: its body, by the names of a family's table.
#[derive(Drop)]
pub struct Message<'w, 't> {
    pub(crate) alloc: Global,
    pub(crate) table: &'w Table<'t>,
    line: usize,
    generic: Option<GenericHeader>,
    structure: Option<usize>,
    header: Vec<u8>,
    asked: Vec<Asked>,
    pub(crate) levels: ArrayVec<Open, MAX_DEPTH>,
}

/// The header of generic netlink of the message at this place, in a table of that protocol.
fn generic_of(table: &Table<'_>, line: usize) -> Option<GenericHeader> {
    let family = table.line(0)?;
    if family.span?.first != GENERIC {
        return None;
    }
    let command = table.line(line)?.span?.first;
    let version = options_of(family).version.unwrap_or(1);
    Some(GenericHeader {
        command: (command & 0xff) as u8,
        version: (version & 0xff) as u8,
        reserved: 0,
    })
}

impl<'w, 't> Message<'w, 't> {
    ghost use Rattle.neli_tables_write.specs.Messages.{Grows, IsBodyOf, IsPayloadOf, asked_of, message_view};

    /// The message of this name that may be sent to the kernel, of the first of the tables that has one.
    ///
    /// Refused as [`Message::of`] is, with [`Why::NoName`] also where no table has it.
    pub fn named(
        alloc: Global,
        tables: &'w Tables<'t>,
        name: &str,
    ) -> Result<Message<'w, 't>, Why> {
        for table in tables.tables() {
            if let Some(line) = request_named(table, name.as_bytes()) {
                return Message::of(alloc, table, line);
            }
        }
        Err(Why::NoName)
    }

    /// The message of the line at this place, whose fields are zero, and without attributes.
    ///
    /// Refused with [`Why::NoName`] where no message stands there, and with [`Why::Memory`].
    pub fn of(alloc: Global, table: &'w Table<'t>, line: usize) -> Result<Message<'w, 't>, Why> {
        let options = table.options(line).ok_or(Why::NoName)?;
        let nest = match options.kind {
            Some(Kind::Nest) => nest_of(table, options),
            _ => None,
        };
        let structure = match options.kind {
            Some(Kind::Struct) => options.of,
            _ => options.after,
        };
        let mut levels = ArrayVec::new();
        if let Some(nest) = nest {
            levels.push(Open {
                nest,
                row: None,
                first: 0,
            });
        }
        Ok(Message {
            alloc,
            table,
            line,
            generic: generic_of(table, line),
            structure,
            header: zeros(alloc, size_of(table, structure))?,
            asked: Vec::new(alloc),
            levels,
        })
    }

    /// The first byte of the body, which is its family; 0 in generic netlink.
    fn family(&self) -> u8 {
        if self.generic.is_some() {
            return 0;
        }
        self.header.first().copied().unwrap_or(0)
    }

    /// The header of generic netlink before the body: the number of the message, and the version of the family; `None`
    /// in other protocols.
    pub fn generic(&self) -> Option<GenericHeader> {
        self.generic
    }

    /// Sets the version and the two bytes after it of the header of generic netlink.
    pub(crate) fn set_generic(&mut self, version: Option<u64>, reserved: Option<u64>) {
        let Some(generic) = self.generic else {
            return;
        };
        self.generic = Some(GenericHeader {
            command: generic.command,
            version: version.map_or(generic.version, |it| (it & 0xff) as u8),
            reserved: reserved.map_or(generic.reserved, |it| (it & 0xffff) as u16),
        });
    }

    /// Sets a field of the structure at the front of the body.
    ///
    /// Refused, the message is as it was: with [`Why::NoName`] where the structure has no such field, and as a value
    /// is.
    pub fn field<'v>(&mut self, name: &str, value: impl Into<Given<'v>>) -> Result<(), Refusal<'t>>
        ensures unchanged { OnErr result (message_view self.new ≡ message_view self.old) }
    {
        let given = value.into();
        match self.set(name, given) {
            Ok(()) => Ok(()),
            Err(why) => Err(self.refusal(name, self.structure, name, why)),
        }
    }

    /// The same, refused by its reason alone.
    fn set(&mut self, name: &str, given: Given<'_>) -> Result<(), Why>
        ensures { OnErr result (message_view self.new ≡ message_view self.old) }
    {
        let structure = self.structure.ok_or(Why::NoName)?;
        let row = row_named(self.table, structure, name.as_bytes()).ok_or(Why::NoName)?;
        set_field(self.alloc, self.table, row, &mut self.header, given)
    }

    /// Puts an attribute at a path: names of nests from the outside in and its own, with dots between them. Nests that
    /// are open already, since the attribute before stands in them, are not opened anew; others are, and those that it
    /// does not stand in are left.
    ///
    /// Refused, the message is as it was: with [`Why::NoName`], [`Why::NoNest`], [`Why::NoCase`], [`Why::IsNest`],
    /// [`Why::TooDeep`], [`Why::TooLong`], and as a value is.
    #[tactic(auto, using(crate::proofs::Growing::grows_then, crate::proofs::Growing::given_back))]
    pub fn attr<'v>(&mut self, path: &str, value: impl Into<Given<'v>>) -> Result<(), Refusal<'t>>
        ensures unchanged { OnErr result (message_view self.new ≡ message_view self.old) }
    {
        let given = value.into();
        let (nests, name) = match path.rsplit_once('.') {
            Some(parts) => parts,
            None => ("", path),
        };
        let before = self.marked();
        match self.enter(nests) {
            Ok(()) => match self.put(name, given) {
                Ok(()) => Ok(()),
                Err(why) => Err(self.given_up(before, path, name, why)),
            },
            Err((name, why)) => Err(self.given_up(before, path, name, why)),
        }
    }

    /// Opens the nest at a path anew, even where it is open. What follows at paths that begin with this one stands in
    /// it.
    ///
    /// Refused as [`Message::attr`] is.
    #[tactic(auto, using(crate::proofs::Growing::grows_then, crate::proofs::Growing::given_back))]
    pub fn nest(&mut self, path: &str) -> Result<(), Refusal<'t>>
        ensures unchanged { OnErr result (message_view self.new ≡ message_view self.old) }
    {
        let (nests, name) = match path.rsplit_once('.') {
            Some(parts) => parts,
            None => ("", path),
        };
        let before = self.marked();
        match self.enter(nests) {
            Ok(()) => match self.open_named(name) {
                Ok(()) => Ok(()),
                Err(why) => Err(self.given_up(before, path, name, why)),
            },
            Err((name, why)) => Err(self.given_up(before, path, name, why)),
        }
    }

    /// What is asked for so far, and what is open.
    fn marked(&self) -> (usize, ArrayVec<Open, MAX_DEPTH>)
        ensures { result.0 ≡ length (asked_of self.now) }
    {
        let mut open = ArrayVec::new();
        for list in self.levels.iter() {
            if open.try_push(*list).is_err() {
                break;
            }
        }
        (self.asked.len(), open)
    }

    /// Gives up what was begun since a mark, and says why.
    fn given_up(
        &mut self,
        before: (usize, ArrayVec<Open, MAX_DEPTH>),
        path: &str,
        name: &str,
        why: Why,
    ) -> Refusal<'t>
        ensures { message_view self.new
            ≡ record (message_view self.old) { asked = take before.0 (asked_of self.old) } }
    {
        let section = self.levels.last().map(|open| open.nest.set);
        let refusal = self.refusal(path, section, name, why);
        self.asked.truncate(before.0);
        self.levels = before.1;
        refusal
    }

    /// Opens the nests of a path that are not open, and leaves those that it is not in. Refused with the name.
    #[tactic(auto, using(crate::proofs::Growing::grows_not, crate::proofs::Growing::grows_then))]
    fn enter<'p>(&mut self, nests: &'p str) -> Result<(), (&'p str, Why)>
        ensures { Grows (message_view self.old) (message_view self.new) }
    {
        let mut depth = 1;
        if !nests.is_empty() {
            for name in nests.split('.') {
                if !self.is_open(depth, name) {
                    self.levels.truncate(depth);
                    self.open_named(name).map_err(|why| (name, why))?;
                }
                depth = depth.saturating_add(1);
            }
        }
        self.levels.truncate(depth);
        Ok(())
    }

    /// Whether the nest with this name stands open in so many lists.
    fn is_open(&self, depth: usize, name: &str) -> bool {
        let Some(open) = self.levels.get(depth) else {
            return false;
        };
        let Some(row) = open.row else {
            return false;
        };
        match self.table.line(row) {
            Some(line) => line.name == name.as_bytes(),
            None => false,
        }
    }

    /// The payload of the first attribute with this number of the innermost list in which it means this row.
    fn picker(&self, by: usize, number: u64) -> Option<&[u8]> {
        let mut lists = self.levels.len();
        for open in self.levels.iter().rev() {
            if self.table.row(open.nest.set, number) == Some(by) {
                return self.first_in(open.first, lists, number);
            }
            lists = lists.saturating_sub(1);
        }
        None
    }

    /// The payload of the first attribute with this number that was asked for from this index on, in so many lists.
    fn first_in(&self, first: usize, lists: usize, number: u64) -> Option<&[u8]> {
        for asked in self.asked.iter().skip(first) {
            if let Part::Attribute(field) = asked.part
                && asked.lists == lists
                && (field & NUMBER) as u64 == number
            {
                return Some(&asked.bytes);
            }
        }
        None
    }

    /// The place of the line that says what the attribute of this row is: its own, or the case that its choice picks.
    pub(crate) fn place_of(&self, row: usize) -> Result<usize, Why> {
        let options = self.table.options(row).ok_or(Why::NoName)?;
        if options.kind != Some(Kind::Choice) {
            return Ok(row);
        }
        self.case(options).ok_or(Why::NoCase)
    }

    /// The place of the case that a choice picks.
    fn case(&self, options: &Options) -> Option<usize> {
        let choice = options.of?;
        if options.by_family {
            return self.table.row(choice, self.family() as u64);
        }
        let by = options.by?;
        let number = self.table.line(by)?.span?.first;
        let kind = self.table.options(by)?.kind;
        case_of(self.table, choice, kind, self.picker(by, number)?)
    }

    /// The number of the attribute of this row.
    pub(crate) fn number_of(&self, row: usize) -> Result<u16, Why> {
        let line = self.table.line(row).ok_or(Why::NoName)?;
        match line.span {
            Some(span) => Ok((span.first & NUMBER as u64) as u16),
            None => Ok(0),
        }
    }

    /// The place of the row with this name in the innermost open list.
    pub(crate) fn row(&self, name: &str) -> Result<usize, Why> {
        let open = self.levels.last().ok_or(Why::NoNest)?;
        row_named(self.table, open.nest.set, name.as_bytes()).ok_or(Why::NoName)
    }

    /// Asks for an attribute in the innermost open list.
    #[tactic(auto, using(crate::proofs::Growing::grows_not, crate::proofs::Growing::grows_then))]
    pub(crate) fn ask(&mut self, part: Part, bytes: Vec<u8>) -> Result<(), AllocError>
        ensures grows { Grows (message_view self.old) (message_view self.new) }
        ensures same { self.new.levels ≡ self.old.levels }
    {
        self.asked.push(Asked {
            lists: self.levels.len(),
            part,
            bytes,
        })?;
        Ok(())
    }

    /// Opens the nest with this name in the innermost open list.
    #[tactic(auto, using(crate::proofs::Growing::grows_not, crate::proofs::Growing::grows_then))]
    fn open_named(&mut self, name: &str) -> Result<(), Why>
        ensures { Grows (message_view self.old) (message_view self.new) }
    {
        let row = self.row(name)?;
        let field = self.number_of(row)? | NESTED;
        let place = self.place_of(row)?;
        self.open_at(place, Some(row), Part::Nest(field))
    }

    /// Opens the list that the line at this place means, as this part of the innermost open one.
    #[tactic(auto, using(crate::proofs::Growing::grows_not, crate::proofs::Growing::grows_then))]
    pub(crate) fn open_at(
        &mut self,
        place: usize,
        row: Option<usize>,
        part: Part,
    ) -> Result<(), Why>
        ensures { Grows (message_view self.old) (message_view self.new) }
    {
        let options = self.table.options(place).ok_or(Why::NoName)?;
        let nest = nest_of(self.table, options).ok_or(Why::NoNest)?;
        self.open_list(nest, row, part)
    }

    /// Opens a list of attributes after a structure, or of hops.
    #[tactic(auto, using(crate::proofs::Growing::grows_not, crate::proofs::Growing::grows_then))]
    pub(crate) fn open_list(
        &mut self,
        nest: Nest,
        row: Option<usize>,
        part: Part,
    ) -> Result<(), Why>
        ensures { Grows (message_view self.old) (message_view self.new) }
    {
        if self.levels.is_full() {
            return Err(Why::TooDeep);
        }
        let size = match part {
            Part::Hops(_) => 0,
            _ => nest.header,
        };
        let header = zeros(self.alloc, size)?;
        self.ask(part, header)?;
        self.levels.push(Open {
            nest,
            row,
            first: self.asked.len(),
        });
        Ok(())
    }

    /// Sets the fields of the structure before the innermost open list that an object of JSON has, where it has just been
    /// opened, and returns where it ends. Refused with the name of the member.
    pub(crate) fn take_fields<'v>(
        &mut self,
        value: &'v Value,
        others: Others,
    ) -> Result<usize, (&'v str, Why)> {
        let Some(place) = self.innermost_structure() else {
            return match others {
                Others::Refused => Err(("", Why::NoName)),
                Others::Passed => Ok(0),
            };
        };
        if self.levels.len() > 1
            && let Some(asked) = self.asked.last_mut()
        {
            return set_fields(
                self.alloc,
                self.table,
                place,
                &mut asked.bytes,
                value,
                others,
                DEPTH,
            );
        }
        set_fields(
            self.alloc,
            self.table,
            place,
            &mut self.header,
            value,
            others,
            DEPTH,
        )
    }

    /// The structure before the innermost open list, or that of the body where none is open.
    pub(crate) fn innermost_structure(&self) -> Option<usize> {
        match self.levels.last() {
            Some(open) if self.levels.len() > 1 => open.nest.after,
            _ => self.structure,
        }
    }

    /// Cuts a body without attributes that is longer than a message of so many bytes has room for.
    pub(crate) fn end_at(&mut self, length: u64) {
        let before = if self.generic.is_some() { 20 } else { 16 };
        if self.asked.is_empty() && length >= before {
            self.header.truncate((length - before) as usize);
        }
    }

    /// Takes these bytes for the whole body.
    pub(crate) fn take_body(&mut self, bytes: Vec<u8>) {
        self.header = bytes;
    }

    /// The place of the row with this number in the innermost open list.
    pub(crate) fn row_of(&self, number: u16) -> Option<usize> {
        self.table.row(self.levels.last()?.nest.set, number as u64)
    }

    /// What the innermost open list has.
    pub(crate) fn innermost(&self) -> Option<Nest> {
        Some(self.levels.last()?.nest)
    }

    /// What is asked for, in order.
    pub(crate) fn asked(&self) -> &[Asked]
        ensures { map asked_view result.now ≡ asked_of self.now }
    {
        &self.asked
    }

    /// The table.
    pub(crate) fn table(&self) -> &'w Table<'t> {
        self.table
    }

    /// The allocator.
    pub(crate) fn alloc(&self) -> Global {
        self.alloc
    }

    /// Leaves the innermost open nest; nothing where none is open.
    pub(crate) fn close(&mut self) {
        if self.levels.len() > 1 {
            self.levels.pop();
        }
    }

    /// Puts an attribute into the innermost open list.
    #[tactic(auto, using(crate::proofs::Growing::grows_not, crate::proofs::Growing::grows_then))]
    fn put(&mut self, name: &str, given: Given<'_>) -> Result<(), Why>
        ensures { Grows (message_view self.old) (message_view self.new) }
    {
        let row = self.row(name)?;
        let field = self.number_of(row)?;
        self.put_at(row, field, given)
    }

    /// Puts an attribute of the row at this place.
    #[tactic(auto, using(crate::proofs::Growing::grows_not, crate::proofs::Growing::grows_then))]
    fn put_at(&mut self, row: usize, field: u16, given: Given<'_>) -> Result<(), Why>
        ensures { Grows (message_view self.old) (message_view self.new) }
    {
        let place = self.place_of(row)?;
        let options = self.table.options(place).ok_or(Why::NoName)?;
        if matches!(options.kind, Some(Kind::Nest | Kind::Hops)) {
            return Err(Why::IsNest);
        }
        let bytes = value_bytes(self.alloc, self.table, options, given)?;
        if bytes.len() > MAX_PAYLOAD {
            return Err(Why::TooLong);
        }
        Ok(self.ask(Part::Attribute(field), bytes)?)
    }

    /// The structure and the attributes, as they are written.
    fn written(&self) -> Result<Vec<u8>, Why>
        ensures { IfOk result (λ bytes.
            take (length self.now.header.items) bytes.items ≡ self.now.header.items) }
    {
        if self.asked.is_empty() {
            return Ok(Vec::from_slice(self.alloc, &self.header)?);
        }
        let (list, _) = list_of(self.alloc, &self.asked, 0, 1)?;
        Ok(headed(self.alloc, &self.header, &list)?)
    }

    /// The body: the structure, and the attributes after it, from which the walk gives what was asked for, in order.
    ///
    /// Refused with [`Why::NoCase`] where the walk would give something else, as where a field that picks what an
    /// attribute is was set to another value after that; with [`Why::TooLong`]; and with [`Why::Memory`].
    pub fn body(&self) -> Result<Vec<u8>, Why>
        ensures { IfOk result (λ bytes. IsBodyOf (message_view self.now) bytes.items) }
    {
        let bytes = self.written()?;
        let body = Body {
            table: Some(self.table),
            line: Some(self.line),
            generic: self.generic,
            bytes: &bytes,
        };
        if says(&body, &self.asked) {
            Ok(bytes)
        } else {
            Err(Why::NoCase)
        }
    }

    /// The payload of the message: the header of generic netlink, in that protocol, and the body.
    ///
    /// Refused as the body is.
    pub fn payload(&self) -> Result<Vec<u8>, Why>
        ensures { IfOk result (λ bytes. IsPayloadOf (message_view self.now) bytes.items) }
    {
        let body = self.body()?;
        let Some(generic) = self.generic else {
            return Ok(body);
        };
        let mut bytes = Vec::new(self.alloc);
        bytes.extend_from_slice(&[generic.command, generic.version])?;
        bytes.extend_from_slice(&generic.reserved.to_le_bytes())?;
        bytes.extend_from_slice(&body)?;
        Ok(bytes)
    }
}
