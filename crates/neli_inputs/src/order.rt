//! The byte order of a file's numbers.

ghost use Rattle.std.specs.Prelude.{◌≡◌, ◌≤◌, ◌+◌, length};
ghost use Rattle.neli_inputs.specs.Orders.{half_in, number_in};

use byteorder::{BigEndian, ByteOrder, LittleEndian};

/// The byte order of a file's numbers.
#[derive(Clone, Copy, Debug, PartialEq, Eq)]
pub enum Order {
    /// The low byte first.
    Little,
    /// The high byte first.
    Big,
}

/// The number in the four bytes at this offset.
pub(crate) fn number_in(order: Order, bytes: &[u8], after: usize) -> u32
    requires { after + 4 ≤ length bytes.now }
    ensures { result ≡ number_in order bytes.now after }
{
    match order {
        Order::Little => LittleEndian::read_u32(&bytes[after..]),
        Order::Big => BigEndian::read_u32(&bytes[after..]),
    }
}

/// The number in the two bytes at this offset.
pub(crate) fn half_in(order: Order, bytes: &[u8], after: usize) -> u16
    requires { after + 2 ≤ length bytes.now }
    ensures { result ≡ half_in order bytes.now after }
{
    match order {
        Order::Little => LittleEndian::read_u16(&bytes[after..]),
        Order::Big => BigEndian::read_u16(&bytes[after..]),
    }
}
