//! What a call that lends returns within the library.

/// The code of a lend, and the bytes that are lent then: they keep a router or a session as it is.
#[derive(Clone, Copy)]
pub(crate) struct Lending<'r> {
    pub(crate) code: i32,
    pub(crate) bytes: &'r [u8],
}
