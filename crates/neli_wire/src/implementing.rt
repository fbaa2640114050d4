//! What implementers of the wire traits call: parts of writing and reading that meet the traits' contracts.
//!
//! - Writing: [`write_all`] appends values, [`pad_from`] zeros up to a multiple of four, and [`undo_on_refusal`]
//!   removes what a refused write has appended.
//! - Reading: [`read_all`] reads values to the end of their bytes, [`read_padded_payload`] what follows a header that
//!   states a length; [`strip_to_four`] passes padding, and [`within_input`] makes a refusal one of a whole input.
//! - Sizes: [`size_of_all`] adds sizes up, [`padded_length`] rounds one up to four, and [`length_refusal`] is the text
//!   for a length that does not fit its field.

pub use crate::frames::read_padded_payload;
pub use crate::lists::{read_all, size_of_all, write_all};
pub use crate::reading::{strip_to_four, within_input};
pub use crate::sizes::{length_refusal, padded_length};
pub use crate::writing::{pad_from, undo_on_refusal};
