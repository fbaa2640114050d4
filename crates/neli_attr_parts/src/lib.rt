//! The parts of both kinds of attributes: their payload, their type field, their frame and the
//! errors of their builders.
//!
//! - [`Buffer`]: bytes that a value owns. [`Attribute`]: the calls for an attribute's payload.
//! - [`AttrType`]: the type field of a generic attribute.
//! - [`BuildError`]: why a builder made no value, for all builders.
//! - [`frame`]: how an attribute is read and written, by the type of its type field.
//! - [`laws`]: what buffers, type fields and errors state about themselves.
#![tactic(auto)]

mod attr_type;
mod attribute;
mod buffer;
mod builders;
pub mod frame;
pub mod laws;

pub use attr_type::{AttrType, AttrTypeBuilder, AttrTypeBuilderError};
pub use attribute::Attribute;
pub use buffer::Buffer;
pub use builders::{BuildError, of};
