//! The options of a line, except its kind.

ghost use Rattle.std.specs.Prelude.{◌≡◌, map};
ghost use Rattle.neli_tables.specs.Rows.{row_view};
ghost use Rattle.neli_tables.specs.Keys.{key_named, keys};

use crate::rows::row_named;

/// An option of a line, except its kind.
#[derive(Clone, Copy, Debug, PartialEq, Eq)]
pub enum Key {
    /// `after`. The structure before the attributes.
    After,
    /// `by`. The attribute that picks the case.
    By,
    /// `by-family`. The message's family picks the case.
    ByFamily,
    /// `enum`. The names of the value.
    Enum,
    /// `flags`. The names of the value's bits.
    Flags,
    /// `array`. Values one after the other, up to the end.
    Array,
    /// `multi`. The attribute may occur several times.
    Multi,
    /// `length`. The least and the largest length in bytes.
    Length,
    /// `range`. The least and the largest value.
    Range,
    /// `mask`. The bits that may be set.
    Mask,
    /// `hex`. Printed as hexadecimal digits.
    Hex,
    /// `request`. The message is one to the kernel.
    Request,
    /// `reply`. The message is one from the kernel.
    Reply,
    /// `family`. The first byte of the message's body.
    Family,
    /// `version`. The version of generic netlink.
    Version,
    /// `id`. The family's number, if it is fixed.
    Id,
    /// `at`. The bytes of the body that hold the message's number.
    At,
    /// `prefix`. The prefix of the header's names.
    Prefix,
    /// `strict`. The kernel reads the message by its strict parser.
    Strict,
    /// `strict-from`. The number from which on attributes are read so, whatever the message.
    StrictFrom,
}

/// Each name, and its option.
static KEYS: [(&[u8], Key); 20] = [
    (b"after", Key::After),
    (b"by", Key::By),
    (b"by-family", Key::ByFamily),
    (b"enum", Key::Enum),
    (b"flags", Key::Flags),
    (b"array", Key::Array),
    (b"multi", Key::Multi),
    (b"length", Key::Length),
    (b"range", Key::Range),
    (b"mask", Key::Mask),
    (b"hex", Key::Hex),
    (b"request", Key::Request),
    (b"reply", Key::Reply),
    (b"family", Key::Family),
    (b"version", Key::Version),
    (b"id", Key::Id),
    (b"at", Key::At),
    (b"prefix", Key::Prefix),
    (b"strict", Key::Strict),
    (b"strict-from", Key::StrictFrom),
];

/// The whole table.
#[tactic(auto, unfolding(crate::specs::Keys::keys))]
fn key_rows() -> &'static [(&'static [u8], Key)]
    ensures { map row_view result.now ≡ keys }
{
    &KEYS
}

/// Returns the option with this name.
pub(crate) fn key_named(name: &[u8]) -> Option<Key>
    ensures { result ≡ key_named name.now }
{
    row_named(key_rows(), name)
}
