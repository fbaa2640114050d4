//! The tables that are built in.

ghost use Rattle.std.specs.Prelude.{◌≡◌, ℕ, None, IfOk, OnOk};
ghost use Rattle.neli_tables.specs.Families.{learnt, tables_in};
ghost use Rattle.neli_tables_walk.specs.Built.{AreRead, IsAdded, built_in_headings};

use neli_tables::{ReadError, Table, Tables};
use neli_tables_generic::GenericTable;
use neli_tables_routing::RoutingTable;
use neli_tables_system::SystemTable;
use std::alloc::Global;

/// The tables of all families that are built in: those of routing, of generic netlink, and of
/// filters, sockets, IPsec and processes, in the order of `RoutingTable`, `GenericTable` and
/// `SystemTable`.
///
/// Refused where memory runs out. Each text can be read, as a test says.
pub fn built_in(alloc: Global) -> Result<Tables<'static>, ReadError>
    ensures tables { IfOk result (λ tables. AreRead built_in_headings (tables_in tables)) }
    ensures learnt { IfOk result (λ tables. (id : ℕ) → learnt tables id ≡ None) }
{
    let mut tables = Tables::new(alloc);
    for table in RoutingTable::all() {
        add_text(alloc, &mut tables, table.text())?;
    }
    for table in GenericTable::all() {
        add_text(alloc, &mut tables, table.text())?;
    }
    for table in SystemTable::all() {
        add_text(alloc, &mut tables, table.text())?;
    }
    Ok(tables)
}

/// Reads a text, and adds its table behind the others.
fn add_text<'t>(alloc: Global, tables: &mut Tables<'t>, text: &'t [u8]) -> Result<(), ReadError>
    ensures added { OnOk result (IsAdded text.now (tables_in tables.old) (tables_in tables.new)) }
    ensures learnt { (id : ℕ) → learnt tables.new id ≡ learnt tables.old id }
{
    tables.add(Table::read(alloc, text)?)?;
    Ok(())
}
