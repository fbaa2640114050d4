//! What lines are found by.

ghost use Rattle.std.specs.Prelude.{◌≡◌, ◌<◌};
ghost use Rattle.neli_tables.specs.Lines.{line_view};
ghost use Rattle.neli_tables.specs.RowKeys.{goes, group_key, is_row, key_of, message_key, message_key_of};
ghost use Rattle.neli_tables.specs.RowKeys.{numbered};
ghost use Rattle.neli_tables.specs.RowKeys.{rest_key, row_key, section_after, way_number};

use crate::options::{Options, options_of};
use crate::{Line, Span, Word};

/// Which way a message goes.
#[derive(Clone, Copy, Debug, PartialEq, Eq)]
pub enum Way {
    /// To the kernel.
    Request,
    /// From the kernel.
    Reply,
}

/// What a line is found by: its sort, where it belongs, and its number.
pub type Key = (u8, u64, u64);

/// The key of a row of a section.
pub fn row_key(section: usize, number: u64) -> Key
    ensures { result ≡ row_key section number }
{
    (0, section as u64, number)
}

/// The key of the row of a section that stands for all other numbers or texts.
pub fn rest_key(section: usize) -> Key
    ensures { result ≡ rest_key section }
{
    (1, section as u64, 0)
}

/// The key of a group.
pub fn group_key(number: u64) -> Key
    ensures { result ≡ group_key number }
{
    (2, 0, number)
}

/// The key of a message that goes this way, and whose body begins with this byte; or with any.
pub fn message_key(way: u8, first: Option<u64>, number: u64) -> Key
    requires { way < 3 }
    ensures { result ≡ message_key way first number }
{
    match first {
        Some(first) => (6 + way, first, number),
        None => (3 + way, 0, number),
    }
}

/// The number of a way; 0 is both.
pub fn way_number(way: Way) -> u8
    ensures { result ≡ way_number way }
{
    match way {
        Way::Request => 1,
        Way::Reply => 2,
    }
}

/// The number of the way that a message goes by its options.
fn goes(options: &Options) -> u8
    ensures { result ≡ goes options.now.request options.now.reply }
{
    match (options.request, options.reply) {
        (true, false) => 1,
        (false, true) => 2,
        _ => 0,
    }
}

/// Whether a line with this first word is a row of the section above it.
pub fn is_row(word: Word) -> bool
    ensures { result ≡ is_row word }
{
    match word {
        Word::Value | Word::Field | Word::Attr | Word::Each | Word::Case | Word::Else => true,
        Word::Family | Word::Group | Word::Message | Word::Struct => false,
        Word::Set | Word::Choice | Word::Enum | Word::Flags => false,
    }
}

/// The section of a line that stands here, below another section.
pub fn section_after(section: usize, place: usize, word: Word) -> usize
    ensures { result ≡ section_after section place word }
{
    if is_row(word) { section } else { place }
}

/// The key of a message with these options.
fn message_key_of(line: &Line<'_>, span: Span) -> Key
    ensures { result ≡ message_key_of (line_view line.now) span.first }
{
    let options = options_of(line);
    message_key(goes(&options), options.family, span.first)
}

/// What a line of this section is found by, if it is.
pub fn key_of(section: usize, line: &Line<'_>) -> Option<Key>
    ensures { result ≡ key_of section (line_view line.now) }
{
    match line.word {
        Word::Each | Word::Else => Some(rest_key(section)),
        Word::Attr | Word::Value | Word::Case => Some(row_key(section, line.span?.first)),
        Word::Group => Some(group_key(line.span?.first)),
        Word::Message => Some(message_key_of(line, line.span?)),
        _ => None,
    }
}
