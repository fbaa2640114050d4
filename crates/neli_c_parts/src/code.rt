//! The code that a call returns: from 0 on a result, below 0 a refusal. `include/neli.h` states when each is returned.

/// Done; of parts read one by one, that the last was read.
pub const OK: i32 = 0;
/// A message, an attribute or an item was returned.
pub const ITEM: i32 = 1;
/// No item has arrived yet.
pub const WAITS: i32 = 2;
/// The kernel answered with an error.
pub const KERNEL_ERROR: i32 = 3;
/// The listed objects changed meanwhile.
pub const INTERRUPTED: i32 = 4;
/// The socket's buffer ran over.
pub const OVERRUN: i32 = 5;
/// An attribute is not as its row says.
pub const VIOLATION: i32 = 6;

/// The bytes end too early.
pub const SHORT: i32 = -1;
/// A length does not fit.
pub const LENGTH: i32 = -2;
/// Memory ran out.
pub const MEMORY: i32 = -3;
/// The room is too small.
pub const ROOM: i32 = -4;
/// The router is closed, or is open already.
pub const STATE: i32 = -5;
/// No such handle exists, or no item was read.
pub const HANDLE: i32 = -6;
/// The sequence number is in use.
pub const IN_USE: i32 = -7;
/// A message arrived that no request has the number for.
pub const STRAY: i32 = -8;
/// Something arrived in place of an acknowledgement.
pub const NO_ACK: i32 = -9;
/// An acknowledgement arrived that was not requested.
pub const UNEXPECTED_ACK: i32 = -10;
/// The link failed.
pub const LINK: i32 = -11;
/// Bytes cannot be read.
pub const BYTES: i32 = -12;
/// A pointer is null: the header returns it.
pub const NULL: i32 = -13;
/// A place is past the bytes.
pub const PLACE: i32 = -14;
/// The message is of another kind.
pub const KIND: i32 = -15;
/// No zero byte ends the text.
pub const TEXT: i32 = -16;
/// A line of a table is bad.
pub const TABLE: i32 = -17;
/// The reads of an answer ended before it did.
pub const UNENDED: i32 = -18;
