//! Tables of netlink families, read from their text, and what is found in them.
//!
//! - [`read_table`]: a text as its lines, or its first bad line.
//! - [`Table`]: a family's table. It finds a message by its number and its way, a row of a section by its number, and
//!   what a choice picks by a text, each by its place among the table's lines.
//! - [`Options`], [`prefix_of`]: what the options of a line say.
//! - [`is_set`], [`unnamed_bits`]: the names of the bits of a value, and the bits that have none.
//! - [`are_plain`]: texts that need no escape in quotes, as the names that a table keeps to be printed as they stand.
//! - [`Tables`]: the tables of several families, and the numbers of those of generic netlink, once they are learnt.
//!
//! A row is found in a map that is made once, when a table is read.
#![tactic(auto)]

mod bits;
mod column;
mod firsts;
mod index;
mod key;
mod kind;
mod likely;
mod line;
mod names;
mod number;
mod options;
mod plain;
mod rows;
mod schema;
mod section;
mod setting;
mod table;
mod tables;
mod text;
mod way;
mod why;
mod word;

pub use bits::{is_set, unnamed_bits};
pub use column::{Column, plain_kind};
pub use key::Key;
pub use kind::Kind;
pub use line::Line;
pub use number::Span;
pub use options::{Options, options_of, prefix_of};
pub use plain::are_plain;
pub use schema::{ReadError, read_table};
pub use setting::{Said, Setting, Value};
pub use table::Table;
pub use tables::{MessagePlace, Tables};
pub use way::Way;
pub use why::Why;
pub use word::Word;
