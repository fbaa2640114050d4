//! Masks of 32 bits, one for each of the groups 1 to 32.

ghost use Rattle.std.specs.Prelude.{◌≡◌, ◌↔◌, ◌<◌, Some, Ok, Err, IfOk, IfErr, IsErr, IsOk, length, slice_index};
ghost use Rattle.neli_util.specs.Groups.{HasNoZero};
ghost use Rattle.neli_util.specs.Masks.{is_masked, groups_of, IsMaskOf, past_mask, past_mask_text};

use neli_wire::NoMemory;
use std::alloc::Global;
use std::fmt;

/// The number of groups that have a bit in a mask.
pub const MASK_WIDTH: u32 = 32;

/// Whether the mask has the bit of a group.
pub fn is_in_mask(mask: u32, group: u32) -> bool
    ensures { result ≡ is_masked mask group }
{
    if group == 0 || group > MASK_WIDTH {
        return false;
    }
    (mask >> (group - 1)) & 1 == 1
}

/// The groups of a mask, lowest first.
///
/// Refused only if memory runs out; the mask 0 takes none.
pub fn mask_to_vec(alloc: Global, mask: u32) -> Result<Vec<u32>, NoMemory>
    ensures value { IfOk result (λ groups. groups.items ≡ groups_of mask) }
    ensures empty { mask ≡ 0 → IsOk result }
{
    let mut groups = Vec::new(alloc);
    for bit in 0..MASK_WIDTH {
        let group = bit + 1;
        if is_in_mask(mask, group) {
            groups.push(group)?;
        }
    }
    Ok(groups)
}

/// The mask with the bits of these groups, or the first group that has none.
pub fn slice_to_mask(groups: &[u32]) -> Result<u32, u32>
    requires { HasNoZero groups.now }
    ensures value { IfOk result (IsMaskOf groups.now) }
    ensures first { IfErr result (λ n. n ≡ slice_index (past_mask groups.now) 0) }
    ensures refused { IsErr result ↔ (0 < length (past_mask groups.now)) }
{
    let mut mask = 0;
    for group in groups {
        if *group > MASK_WIDTH {
            return Err(*group);
        }
        mask |= 1 << (*group - 1);
    }
    Ok(mask)
}

/// A group that has no bit in a mask.
#[derive(Drop)]
pub struct PastMask(pub u32);

impl fmt::Display for PastMask {
    ghost output = { λ m. Some (past_mask_text m.0) };

    fn fmt<W: fmt::Write>(&self, f: &mut fmt::Formatter<W>) -> fmt::Result {
        let n = self.0;
        write!(f, "Group {n} cannot be represented with a bit width of 32")
    }
}
