//! Payloads of bytes, and lists of attributes and of messages.

pub use neli_attr::{Buffer, FrameList, GenlBuffer, RtBuffer, TryClone};
pub use neli_reader::NlBuffer;
