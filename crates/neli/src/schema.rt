//! Messages by the tables of their families: what attributes are called, and what their payloads are.
//!
//! - [`built_in`]: the tables of all families; [`Table::read`] reads one of your own.
//! - [`body_of`]: which line of which table a message has. [`Body::walk`] gives its attributes, each
//!   with its path and what its payload is.
//! - [`PayloadText`], [`PayloadJson`]: a payload, printed. [`PathText`]: a path by the names on it.
//! - [`check`]: the first attribute of a request that the kernel's parser does not allow; [`check_as`] by the strict or
//!   the liberal one. [`Policies`]: what the running kernel itself allows. [`find`]: the attribute at the offset that an
//!   extended acknowledgement states. [`Refusal`]: an error in one line.

pub use neli_tables::{
    Column, Kind, Line, MessagePlace, Options, ReadError, Span, Table, Tables, Way, Why, Word,
    is_set, options_of, prefix_of, unnamed_bits,
};
pub use neli_tables_check::{
    Diagnosis, PathText, Place, Policies, Refusal, Unmet, Validation, Violation, Wrong, check,
    check_as, find, validation_of,
};
pub use neli_tables_generic::GenericTable;
pub use neli_tables_routing::RoutingTable;
pub use neli_tables_system::SystemTable;
pub use neli_tables_walk::{
    Body, Breach, Context, Fields, FieldsJson, FieldsText, Found, GENERIC_HEADER_SIZE,
    GenericHeader, Head, Item, MAX_DEPTH, Name, NameJson, Nest, Number, NumberJson, Path, Payload,
    PayloadJson, PayloadText, Rest, Shape, Step, Visit, Visits, Walk, answer_of, body_of,
    breach_of, built_in, first_payload, is_answer, learn_from,
};
