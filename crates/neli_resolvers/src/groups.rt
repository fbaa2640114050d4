//! Finds groups by their name or their number.

ghost use Rattle.std.specs.Prelude.{◌≡◌, ◌<◌, Err, IfErr, IfOk, Ok, OnErr, None, length, map, option_map};
ghost use Rattle.std.specs.Prelude.{string_bytes};
ghost use Rattle.neli_wire.specs.Refusals.{Refuses};
ghost use Rattle.neli_attr.specs.Nlattr.{nlattr_view};
ghost use Rattle.neli_resolvers.specs.Attributes.{group_attrs_take_memory};
ghost use Rattle.neli_resolvers.specs.Items.{first_found, last_found};
ghost use Rattle.neli_resolvers.specs.Resolvers.{match_number, name_if};

use crate::attributes::{group_attrs, group_id, group_name};
use crate::items::readable;
use neli_attr::{Buffer, Nlattr};
use neli_consts::Index;
use neli_wire::{DeError, NoMemory};
use std::alloc::Global;

/// The number of a group with this name. A group that cannot be read is skipped.
///
/// Refused only if memory runs out; a group without a payload takes none.
fn match_number(
    alloc: Global,
    group: &Nlattr<Index, Buffer>,
    name: &str,
) -> Result<Option<u32>, NoMemory>
    ensures value { IfOk result (λ n. n ≡ match_number name.now (nlattr_view group.now)) }
    ensures memory { OnErr result (group_attrs_take_memory (nlattr_view group.now)) }
{
    let Some(attrs) = readable(group_attrs(alloc, group))? else {
        return Ok(None);
    };
    let Some(own) = readable(group_name(alloc, &attrs))? else {
        return Ok(None);
    };
    if own.as_str() != name {
        return Ok(None);
    }
    Ok(group_id(alloc, &attrs))
}

/// The number of the first of these groups with this name and a number.
///
/// Refused only if memory runs out, and never without groups.
pub(crate) fn first_match(
    alloc: Global,
    groups: &[Nlattr<Index, Buffer>],
    name: &str,
) -> Result<Option<u32>, NoMemory>
    ensures value { IfOk result
        (λ n. n ≡ first_found (match_number name.now) (map nlattr_view groups.now)) }
    ensures memory { OnErr result (0 < length groups.now) }
{
    for candidate in groups {
        let found = match_number(alloc, candidate, name)?;
        if found.is_some() {
            return Ok(found);
        }
    }
    Ok(None)
}

/// The name of a group with this number.
fn name_if(alloc: Global, group: &Nlattr<Index, Buffer>, id: u32) -> Result<Option<String>, DeError>
    ensures value { IfOk result
        (λ name. name_if id (nlattr_view group.now) ≡ Ok (option_map string_bytes name)) }
    ensures refused { IfErr result (Refuses (name_if id (nlattr_view group.now))
        (group_attrs_take_memory (nlattr_view group.now))) }
{
    let attrs = group_attrs(alloc, group)?;
    if group_id(alloc, &attrs) != Some(id) {
        return Ok(None);
    }
    Ok(Some(group_name(alloc, &attrs)?))
}

/// The name of the last of these groups with this number.
pub(crate) fn last_name(
    alloc: Global,
    groups: &[Nlattr<Index, Buffer>],
    id: u32,
) -> Result<Option<String>, DeError>
    ensures value { IfOk result
        (λ name. last_found (name_if id) (map nlattr_view groups.now)
        ≡ Ok (option_map string_bytes name)) }
    ensures refused { IfErr result
        (Refuses (last_found (name_if id) (map nlattr_view groups.now))
        (0 < length groups.now)) }
{
    let mut found = None;
    for group in groups {
        found = name_if(alloc, group, id)?.or(found);
    }
    Ok(found)
}
