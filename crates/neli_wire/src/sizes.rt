//! Sizes of values, and lengths rounded up to four.

ghost use Rattle.std.specs.Prelude.{◌≡◌, ◌≤◌, ℕ, codes, min};
ghost use Rattle.neli_wire.specs.Sizes.{align, IsRounded};

/// A length rounded up to four, as the kernel's `NLMSG_ALIGN`, `NLA_ALIGN` and `RTA_ALIGN` do
/// (`linux/netlink.h`, `linux/rtnetlink.h`). The rounded length fits a usize.
pub const fn alignto(len: usize) -> usize
    requires { align len ≤ usize.MAX }
    ensures { result ≡ align len }
{
    if len > usize::MAX - 3 {
        len
    } else {
        (len + 3) / 4 * 4
    }
}

/// A size rounded up to four, capped at `usize::MAX`.
pub fn padded_length(size: usize) -> usize
    ensures { result ≡ min (align size) usize.MAX }
{
    if size > usize::MAX - 3 {
        usize::MAX
    } else {
        alignto(size)
    }
}

/// The text of a refusal for a length that does not fit its field.
pub fn length_refusal() -> &'static str
    ensures { result.now ≡ codes "Length does not fit its field" }
{
    "Length does not fit its field"
}

/// How many bytes a value takes, capped at `usize::MAX`.
pub trait Size {
    // The length of a value's wire bytes without padding at its end.
    ghost unpadded_length: { Self → ℕ };

    // The length of the whole wire bytes.
    ghost wire_length: { Self → ℕ };

    /// The number of bytes of the value, without padding at its end.
    fn unpadded_size(&self) -> usize
        ensures { result ≡ min (unpadded_length self.now) usize.MAX };

    /// The unpadded size rounded up to four, in bytes.
    fn padded_size(&self) -> usize
        ensures { result ≡ min (align (unpadded_length self.now)) usize.MAX }
    {
        padded_length(self.unpadded_size())
    }

    /// How many bytes `ToBytes::to_bytes` appends: the unpadded size or the padded one, by type.
    /// This library pads attributes and messages, and no other value.
    fn written_size(&self) -> usize
        ensures { result ≡ min (wire_length self.now) usize.MAX };

    // The wire bytes are as many as without padding, or that rounded up to four.
    ghost rounded: { (v : Self) → IsRounded (unpadded_length v) (wire_length v) };
}
