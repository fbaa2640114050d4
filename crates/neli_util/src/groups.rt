//! Multicast groups.

ghost use Rattle.std.specs.Prelude.{◌≡◌, ◌↔◌, ◌⊎◌, ◌<◌, [], ◌∷◌, false, IfOk, IfErr, IsErr, IsOk, OnOk, OnErr, IsTrue};
ghost use Rattle.std.specs.Prelude.{length, slice_index};
ghost use Rattle.neli_util.specs.Groups.{HasNoZero, has, without_zeros, without, lacking, with_added};
ghost use Rattle.neli_util.specs.Masks.{groups_of, IsMaskOf, past_mask, past_mask_text};

use crate::masks::{MASK_WIDTH, PastMask, is_in_mask, mask_to_vec, slice_to_mask};
use neli_wire::{NoMemory, SerError};
use std::alloc::Global;
use std::marker::Model;

/// Multicast groups, a list without 0. Contracts see it as that list.
///
/// Groups are numbered from 1. A mask is the older form, `nl_groups` of `struct sockaddr_nl` in
/// linux/netlink.h: 32 bits, of which group 1 has the lowest and group 32 the highest.
#[derive(Drop)]
pub struct Groups {
    numbers: Vec<u32>,
}

impl Model for Groups {
    ghost use Rattle.std.specs.Prelude.{ℕ, List};
    ghost use Rattle.neli_util.specs.Groups.{HasNoZero};

    ghost Value = { List ℕ };

    ghost view = { λ g. g.numbers.items };

    ghost invariant = { λ g. HasNoZero g.numbers.items };
}

impl Groups {
    /// No groups. It takes no memory.
    pub fn empty(alloc: Global) -> Groups
        ensures { result ≡ [] }
    {
        Groups {
            numbers: Vec::new(alloc),
        }
    }

    /// The groups of a mask, lowest first.
    ///
    /// Refused only if memory runs out; the mask 0 takes none.
    pub fn new_bitmask(alloc: Global, mask: u32) -> Result<Groups, NoMemory>
        ensures value { IfOk result (λ groups. groups ≡ groups_of mask) }
        ensures no_zero { IfOk result HasNoZero }
        ensures empty { mask ≡ 0 → IsOk result }
    {
        let numbers = mask_to_vec(alloc, mask)?;
        Ok(Groups { numbers })
    }

    /// Adds the missing groups of a mask, lowest first.
    ///
    /// Refused only if memory runs out; then the groups are as they were. Only a missing group takes memory.
    pub fn add_bitmask(&mut self, mask: u32) -> Result<(), NoMemory>
        ensures ok { OnOk result (self.new ≡ with_added (groups_of mask) self.old) }
        ensures no_zero { HasNoZero self.new }
        ensures none_lacking { lacking (groups_of mask) self.old ≡ [] → IsOk result }
        ensures unchanged { OnErr result (self.new ≡ self.old) }
    {
        add_masked(&mut self.numbers, mask)
    }

    /// Removes the groups of a mask, with all repeats. It takes no memory.
    pub fn remove_bitmask(&mut self, mask: u32)
        ensures value { self.new ≡ without (groups_of mask) self.old }
        ensures no_zero { HasNoZero self.new }
    {
        self.numbers.retain(|group| !is_in_mask(mask, *group));
    }

    /// These groups in their order, with repeats; zeros are left out.
    ///
    /// Refused only if memory runs out; an empty list takes none.
    pub fn new_groups(alloc: Global, groups: &[u32]) -> Result<Groups, NoMemory>
        ensures value { IfOk result (λ list. list ≡ without_zeros groups.now) }
        ensures no_zero { IfOk result HasNoZero }
        ensures empty { groups.now ≡ [] → IsOk result }
    {
        let mut numbers = copy_of(alloc, groups)?;
        numbers.retain(|group| *group != 0);
        Ok(Groups { numbers })
    }

    /// Adds the missing groups, in their order and each once; zeros are left out.
    ///
    /// Refused only if memory runs out; then the groups are as they were. Only a missing group takes memory.
    pub fn add_groups(&mut self, groups: &[u32]) -> Result<(), NoMemory>
        ensures ok { OnOk result (self.new ≡ with_added groups.now self.old) }
        ensures no_zero { HasNoZero self.new }
        ensures none_lacking { lacking groups.now self.old ≡ [] → IsOk result }
        ensures unchanged { OnErr result (self.new ≡ self.old) }
    {
        add_lacking(&mut self.numbers, groups)
    }

    /// Removes these groups, with all repeats. It takes no memory.
    pub fn remove_groups(&mut self, groups: &[u32])
        ensures value { self.new ≡ without groups.now self.old }
        ensures no_zero { HasNoZero self.new }
    {
        self.numbers.retain(|group| !groups.contains(group));
    }

    /// The mask with the bits of these groups.
    ///
    /// Refused exactly where a group is above 32: with a text that names the first such group, or because memory ran
    /// out for this text.
    pub fn as_bitmask(&self, alloc: Global) -> Result<u32, SerError>
        ensures value { IfOk result (IsMaskOf self.now) }
        ensures refused { IsErr result ↔ (0 < length (past_mask self.now)) }
        ensures error { IfErr result (λ e. (e ≡ SerError.Memory)
            ⊎ (e ≡ SerError.Msg (past_mask_text (slice_index (past_mask self.now) 0)))) }
    {
        match slice_to_mask(&self.numbers) {
            Ok(mask) => Ok(mask),
            Err(group) => Err(SerError::new(alloc, PastMask(group))?),
        }
    }

    /// A copy of the list.
    ///
    /// Refused only if memory runs out; without groups it takes none.
    pub fn as_groups(&self, alloc: Global) -> Result<Vec<u32>, NoMemory>
        ensures value { IfOk result (λ list. list.items ≡ self.now) }
        ensures no_zero { HasNoZero self.now }
        ensures empty { self.now ≡ [] → IsOk result }
    {
        copy_of(alloc, &self.numbers)
    }

    /// The list itself. It takes no memory.
    pub fn into_groups(self) -> Vec<u32>
        ensures value { result.items ≡ self }
        ensures no_zero { HasNoZero self }
    {
        let Groups { numbers } = self;
        numbers
    }

    /// Whether there are no groups.
    pub fn is_empty(&self) -> bool
        ensures { IsTrue result ↔ (self.now ≡ []) }
    {
        self.numbers.is_empty()
    }
}

// A copy of the numbers. A copy of none takes no memory.
fn copy_of(alloc: Global, numbers: &[u32]) -> Result<Vec<u32>, NoMemory>
    ensures value { IfOk result (λ copy. copy.items ≡ numbers.now) }
    ensures empty { numbers.now ≡ [] → IsOk result }
{
    let mut copy = Vec::with_capacity(alloc, numbers.len())?;
    copy.extend_from_slice(numbers)?;
    Ok(copy)
}

// Adds a number, if it is above 0 and missing. It takes memory only then.
fn add_one(list: &mut Vec<u32>, number: u32) -> Result<(), NoMemory>
    ensures ok { OnOk result (list.new.items ≡ with_added (number ∷ []) list.old.items) }
    ensures unchanged { OnErr result (list.new.items ≡ list.old.items) }
    ensures above { OnErr result (0 < number) }
    ensures lacking { OnErr result (has list.old.items number ≡ false) }
{
    if number != 0 && !list.contains(&number) {
        list.push(number)?;
    }
    Ok(())
}

// Adds the missing ones of the added numbers above 0, each once, or leaves the list as it was.
fn add_lacking(list: &mut Vec<u32>, added: &[u32]) -> Result<(), NoMemory>
    ensures ok { OnOk result (list.new.items ≡ with_added added.now list.old.items) }
    ensures none_lacking { lacking added.now list.old.items ≡ [] → IsOk result }
    ensures unchanged { OnErr result (list.new.items ≡ list.old.items) }
{
    let before = list.len();
    for number in added {
        if let Err(error) = add_one(list, *number) {
            list.truncate(before);
            return Err(error);
        }
    }
    Ok(())
}

// Adds the missing groups of a mask, lowest first, or leaves the list as it was.
fn add_masked(list: &mut Vec<u32>, mask: u32) -> Result<(), NoMemory>
    ensures ok { OnOk result (list.new.items ≡ with_added (groups_of mask) list.old.items) }
    ensures none_lacking { lacking (groups_of mask) list.old.items ≡ [] → IsOk result }
    ensures unchanged { OnErr result (list.new.items ≡ list.old.items) }
{
    let before = list.len();
    for bit in 0..MASK_WIDTH {
        let group = bit + 1;
        if is_in_mask(mask, group) {
            if let Err(error) = add_one(list, group) {
                list.truncate(before);
                return Err(error);
            }
        }
    }
    Ok(())
}
