//! The lines that may stand below others.

ghost use Rattle.std.specs.Prelude.{◌≡◌};
ghost use Rattle.neli_tables.specs.Schemas.{place_fault, row_fits, section_after};

use crate::why::Why;
use crate::word::Word;

/// The section that the lines below this one belong to.
pub(crate) fn section_after(section: Option<Word>, word: Word) -> Option<Word>
    ensures { result ≡ section_after section word }
{
    match word {
        Word::Value | Word::Field | Word::Attr | Word::Each | Word::Case | Word::Else => section,
        Word::Family | Word::Group | Word::Message | Word::Struct => Some(word),
        Word::Set | Word::Choice | Word::Enum | Word::Flags => Some(word),
    }
}

/// Whether a line with this first word may stand in this section, or begins one.
fn row_fits(section: Word, word: Word) -> bool
    ensures { result ≡ row_fits section word }
{
    match word {
        Word::Value => matches!(section, Word::Enum | Word::Flags),
        Word::Field => matches!(section, Word::Struct),
        Word::Attr | Word::Each => matches!(section, Word::Set),
        Word::Case | Word::Else => matches!(section, Word::Choice),
        _ => true,
    }
}

/// Why a line with this first word may not stand in this section, or at the front of a text.
pub(crate) fn place_fault(section: Option<Word>, word: Word) -> Option<Why>
    ensures { result ≡ place_fault section word }
{
    match section {
        None => match word {
            Word::Family => None,
            _ => Some(Why::FamilyFirst),
        },
        Some(section) => match word {
            Word::Family => Some(Why::FamilyFirst),
            _ => {
                if row_fits(section, word) {
                    None
                } else {
                    Some(Why::RowElsewhere)
                }
            }
        },
    }
}
