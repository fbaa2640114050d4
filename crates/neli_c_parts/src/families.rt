//! Tables of families, as C holds them.

ghost use Rattle.std.specs.Prelude.{◌≡◌, [], ℕ, None, IfErr, IfOk, OnErr, OnOk};
ghost use Rattle.neli_tables.specs.Schemas.{IsWhyNot, table_in};
ghost use Rattle.neli_tables.specs.Families.{generic_in, learnt, learnt_as, tables_in};
ghost use Rattle.neli_tables_walk.specs.Built.{AreRead, IsAdded, built_in_headings};
ghost use Rattle.neli_tables_walk.specs.Controller.{family_said, learnt_from};

use neli_tables::{ReadError, Table, Tables};
use neli_tables_walk::{Head, built_in, learn_from};
use std::alloc::{AllocError, Global};

/// Tables of families, whose texts stay as they are while the tables are open.
#[derive(Drop)]
pub struct Families {
    /// The tables.
    pub tables: Tables<'static>,
}

impl Families {
    /// No tables.
    pub fn new(alloc: Global) -> Families
        ensures tables { tables_in result.tables ≡ [] }
        ensures learnt { (id : ℕ) → learnt result.tables id ≡ None }
    {
        Families {
            tables: Tables::new(alloc),
        }
    }

    /// The tables that are built in. Refused where memory runs out.
    pub fn built_in(alloc: Global) -> Result<Families, ReadError>
        ensures tables { IfOk result
            (λ families. AreRead built_in_headings (tables_in families.tables)) }
        ensures learnt { IfOk result
            (λ families. (id : ℕ) → learnt families.tables id ≡ None) }
    {
        match built_in(alloc) {
            Ok(tables) => Ok(Families { tables }),
            Err(error) => Err(error),
        }
    }

    /// Adds the table that a text is behind the others.
    ///
    /// Refused as `read_table` refuses the text: by the number of its first bad line, and where memory runs out. Then
    /// nothing is added.
    pub fn add(&mut self, alloc: Global, text: &'static [u8]) -> Result<(), ReadError>
        ensures added { OnOk result
            (IsAdded text.now (tables_in self.old.tables) (tables_in self.new.tables)) }
        ensures refused { IfErr result (IsWhyNot (table_in text.now)) }
        ensures unchanged { OnErr result
            (tables_in self.new.tables ≡ tables_in self.old.tables) }
        ensures learnt { (id : ℕ) → learnt self.new.tables id ≡ learnt self.old.tables id }
    {
        let table = Table::read(alloc, text)?;
        match self.tables.add(table) {
            Ok(()) => Ok(()),
            Err(_) => Err(ReadError::Memory),
        }
    }

    /// Learns that the family of generic netlink with this name has this number. Refused where memory runs out; then
    /// nothing is learnt.
    pub fn learn(&mut self, id: u16, name: &[u8]) -> Result<(), AllocError>
        ensures tables { tables_in self.new.tables ≡ tables_in self.old.tables }
        ensures ok { OnOk result ((n : ℕ) → learnt self.new.tables n
            ≡ learnt_as id (generic_in name.now (tables_in self.old.tables)) n
            (learnt self.old.tables n)) }
        ensures unchanged { OnErr result
            ((n : ℕ) → learnt self.new.tables n ≡ learnt self.old.tables n) }
    {
        self.tables.learn(id, name)
    }

    /// Learns the number of a family from a message of the controller that names it. Refused where memory runs out;
    /// then nothing is learnt.
    pub fn learn_from(&mut self, head: Head, payload: &[u8]) -> Result<(), AllocError>
        ensures tables { tables_in self.new.tables ≡ tables_in self.old.tables }
        ensures ok { OnOk result ((n : ℕ) → learnt self.new.tables n
            ≡ learnt_from (family_said head payload.now) (tables_in self.old.tables) n
            (learnt self.old.tables n)) }
        ensures unchanged { OnErr result
            ((n : ℕ) → learnt self.new.tables n ≡ learnt self.old.tables n) }
    {
        learn_from(&mut self.tables, head, payload)
    }
}
