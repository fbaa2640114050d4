//! The tables of several families.

ghost use Rattle.std.specs.Prelude.{◌≡◌, ℕ, [], ◌∷◌, ◌++◌, Ok, Some, OnErr, OnOk, map, slice_get, position};
ghost use Rattle.std.specs.Option.{option_map};
ghost use Rattle.neli_tables.specs.Families.{by_id, fixed_id, generic_in, has_id, is_family, is_of, learnt};
ghost use Rattle.neli_tables.specs.Families.{learnt_as, message_found, message_from, message_of, protocol_in};
ghost use Rattle.neli_tables.specs.Families.{tables_in};
ghost use Rattle.neli_tables.specs.RowKeys.{way_number};

use crate::options::options_of;
use crate::table::Table;
use crate::way::Way;
use std::alloc::{AllocError, Global};
use std::collections::BTreeMap;

/// `NETLINK_GENERIC` of `linux/netlink.h`.
const GENERIC: u64 = 16;

/// The tables of several families, and the numbers of those of generic netlink, as they were learnt. A table is meant
/// by its index, in the order in which they were added.
#[derive(Drop)]
pub struct Tables<'t> {
    tables: Vec<Table<'t>>,
    learnt: BTreeMap<u16, usize>,
}

/// A message among several tables: the index of its table, and its place there.
#[derive(Clone, Copy, Debug, PartialEq, Eq)]
pub struct MessagePlace {
    /// The index of the table.
    pub table: usize,
    /// The place of the message's line.
    pub line: usize,
}

impl<'t> Tables<'t> {
    /// No tables.
    pub fn new(alloc: Global) -> Tables<'t>
        ensures tables { tables_in result ≡ [] }
        ensures learnt { (id : ℕ) → learnt result id ≡ None }
    {
        Tables {
            tables: Vec::new(alloc),
            learnt: BTreeMap::new(alloc),
        }
    }

    /// Adds a table behind the others. Where memory runs out, nothing is added.
    pub fn add(&mut self, table: Table<'t>) -> Result<(), AllocError>
        ensures ok { OnOk result (tables_in self.new ≡ tables_in self.old ++ table.entry ∷ []) }
        ensures unchanged { OnErr result (tables_in self.new ≡ tables_in self.old) }
        ensures learnt { (id : ℕ) → learnt self.new id ≡ learnt self.old id }
    {
        self.tables.push(table)?;
        Ok(())
    }

    /// The tables, in the order in which they were added.
    pub fn tables(&self) -> &[Table<'t>]
        ensures { result.now ≡ tables_in self.now }
    {
        &self.tables
    }

    /// The table of this index.
    pub fn table(&self, index: usize) -> Option<&Table<'t>>
        ensures { option_map (λ table. table.now) result ≡ slice_get (tables_in self.now) index }
    {
        self.tables.get(index)
    }

    /// The first table of this protocol (`NETLINK_*` of `linux/netlink.h`).
    pub fn of_protocol(&self, protocol: u64) -> Option<usize>
        ensures { result ≡ position (is_of (Some protocol)) (tables_in self.now) }
    {
        self.tables
            .iter()
            .position(|table| is_of(table, Some(protocol)))
    }

    /// The first table of generic netlink whose family has this name.
    pub fn generic(&self, name: &[u8]) -> Option<usize>
        ensures { result ≡ generic_in name.now (tables_in self.now) }
    {
        self.tables.iter().position(|table| is_family(table, name))
    }

    /// The table of generic netlink whose family has this number: as was learnt last; or else the first that has a
    /// fixed number, as the controller's.
    pub fn generic_by_id(&self, id: u16) -> Option<usize>
        ensures { result ≡ by_id (learnt self.now id) id (tables_in self.now) }
    {
        match self.learnt_for(id) {
            Some(index) => Some(index),
            None => self.fixed_for(id),
        }
    }

    /// The table that was learnt for this number.
    fn learnt_for(&self, id: u16) -> Option<usize>
        ensures { result ≡ learnt self.now id }
    {
        self.learnt.get(&id).copied()
    }

    /// The first table of generic netlink whose family has this number for good.
    fn fixed_for(&self, id: u16) -> Option<usize>
        ensures { result ≡ position (has_id id) (tables_in self.now) }
    {
        self.tables.iter().position(|table| has_id(table, id))
    }

    /// Learns that the family of generic netlink with this name has this number, in place of the one that had it.
    /// Where memory runs out, nothing is learnt.
    pub fn learn(&mut self, id: u16, name: &[u8]) -> Result<(), AllocError>
        ensures tables { tables_in self.new ≡ tables_in self.old }
        ensures ok { OnOk result ((n : ℕ) → learnt self.new n
            ≡ learnt_as id (generic_in name.now (tables_in self.old)) n (learnt self.old n)) }
        ensures unchanged { OnErr result ((n : ℕ) → learnt self.new n ≡ learnt self.old n) }
    {
        match self.generic(name) {
            Some(index) => {
                self.learnt.insert(id, index)?;
            }
            None => {
                self.learnt.remove(&id);
            }
        }
        Ok(())
    }

    /// The message of a protocol that has this number, goes this way, and whose body begins with this byte: in the
    /// first table of the protocol that has one; or else in the first that is of every protocol.
    pub fn message(
        &self,
        protocol: u64,
        way: Way,
        first: Option<u8>,
        number: u64,
    ) -> Option<MessagePlace>
        ensures { result ≡ message_found protocol (way_number way) first number (tables_in self.now) }
    {
        match message_from(&self.tables, Some(protocol), way, first, number) {
            Some(place) => Some(place),
            None => self.common_message(way, first, number),
        }
    }

    /// The message of every protocol, as an error or the end of a dump, that has this number, goes this way, and whose
    /// body begins with this byte: in the first table that is of every protocol and has one. A protocol's own messages
    /// may have the same number, as the commands of generic netlink.
    pub fn common_message(&self, way: Way, first: Option<u8>, number: u64) -> Option<MessagePlace>
        ensures { result ≡ message_from None (way_number way) first number 0 (tables_in self.now) }
    {
        message_from(&self.tables, None, way, first, number)
    }
}

/// The message in the first table that has one, of those of this protocol, or of those without one.
fn message_from(
    tables: &[Table<'_>],
    protocol: Option<u64>,
    way: Way,
    first: Option<u8>,
    number: u64,
) -> Option<MessagePlace>
    ensures { result ≡ message_from protocol (way_number way) first number 0 tables.now }
{
    for (index, table) in tables.iter().enumerate() {
        if let Some(line) = message_in(table, protocol, way, first, number) {
            return Some(MessagePlace { table: index, line });
        }
    }
    None
}

/// The place of a message in a table, where that is of this protocol.
fn message_in(
    table: &Table<'_>,
    protocol: Option<u64>,
    way: Way,
    first: Option<u8>,
    number: u64,
) -> Option<usize>
    ensures { result ≡ message_of protocol (way_number way) first number table.now }
{
    if is_of(table, protocol) {
        table.message(way, first, number)
    } else {
        None
    }
}

/// The protocol of a table's family; `None` where it is of every protocol.
fn protocol_in(table: &Table<'_>) -> Option<u64>
    ensures { result ≡ protocol_in table.now }
{
    Some(table.line(0)?.span?.first)
}

/// Whether the family of a table has this protocol, or is of every one.
fn is_of(table: &Table<'_>, protocol: Option<u64>) -> bool
    ensures { result ≡ is_of protocol table.now }
{
    match (protocol_in(table), protocol) {
        (Some(one), Some(other)) => one == other,
        (None, None) => true,
        _ => false,
    }
}

/// Whether this is the table of the family of generic netlink that has this name.
fn is_family(table: &Table<'_>, name: &[u8]) -> bool
    ensures { result ≡ is_family name.now table.now }
{
    match table.line(0) {
        Some(line) => is_of(table, Some(GENERIC)) && line.name == name,
        None => false,
    }
}

/// The fixed number of a family of generic netlink.
fn fixed_id(table: &Table<'_>) -> Option<u64>
    ensures { result ≡ fixed_id table.now }
{
    options_of(table.line(0)?).id
}

/// Whether this is the table of a family of generic netlink whose fixed number is this one.
fn has_id(table: &Table<'_>, id: u16) -> bool
    ensures { result ≡ has_id id table.now }
{
    match fixed_id(table) {
        Some(fixed) => is_of(table, Some(GENERIC)) && fixed == id as u64,
        None => false,
    }
}
