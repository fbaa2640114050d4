//! The calls that types of your own need to implement the wire traits. `docs/EXTENDING.md` has whole examples.
//!
//! [`bodies`] has the common parts of fixed headers with attributes after them.

pub use neli_body as bodies;
pub use neli_list::{handle_of_payload, read_borrowed, read_first, read_whole};
pub use neli_wire::implementing::{
    pad_from, padded_length, read_all, read_padded_payload, size_of_all, strip_to_four,
    undo_on_refusal, within_input, write_all,
};
