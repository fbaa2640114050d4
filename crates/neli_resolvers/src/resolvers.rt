//! The resolvers.

ghost use Rattle.std.specs.Prelude.{◌≡◌, Err, IfErr, IfOk, IsSome, Ok, OnErr, None, map, option_map, string_bytes};
ghost use Rattle.neli_wire.specs.Refusals.{Refuses};
ghost use Rattle.neli_attr.specs.Handles.{attrs_in};
ghost use Rattle.neli_attr.specs.Nlattr.{nlattr_view};
ghost use Rattle.neli_resolvers.specs.Attributes.{family_name_takes_memory};
ghost use Rattle.neli_resolvers.specs.Items.{IsRefusal, attributes_said};
ghost use Rattle.neli_resolvers.specs.Resolvers.{both_answer, family_answer, family_takes_memory, group_answer};
ghost use Rattle.neli_resolvers.specs.Resolvers.{group_takes_memory, lent_family_takes_memory, match_in, names_answer};
ghost use Rattle.neli_resolvers.specs.Resolvers.{both_take_memory, lent_group_takes_memory, match_takes_memory};
ghost use Rattle.neli_resolvers.specs.Resolvers.{message_names_take_memory, names_in, names_said, names_take_memory};
ghost use Rattle.neli_resolvers.specs.Resolvers.{number_told};

use crate::attributes::{family_id, family_name, groups};
use crate::groups::{first_match, last_name};
use crate::items::{CtrlMessage, readable, refuse_errors, without_errors};
use crate::texts::{NoFamily, NoGroup};
use crate::{CtrlError, CtrlItem};
use neli_attr::GenlAttrHandle;
use neli_consts::CtrlAttr;
use neli_reader::RouterError;
use neli_wire::{DeError, MsgError};
use std::alloc::Global;

/// The family's number in a message.
fn number_told(alloc: Global, message: &CtrlMessage) -> Option<u16>
    ensures { result ≡ number_told message.now }
{
    let body = message.get_payload()?;
    family_id(alloc, &body.attrs().get_attr_handle())
}

/// Returns the number of the requested family: the last in the controller's messages. The items stay with the caller.
///
/// Refused with a copy of the first error among the items; else, if no message has a number, with a text that names the
/// family. Only the copy or the text takes memory.
pub fn find_genl_family(alloc: Global, family: &str, items: &[CtrlItem]) -> Result<u16, CtrlError>
    ensures value { IfOk result (λ n. family_answer family.now items.now ≡ Ok n) }
    ensures refused { IfErr result (IsRefusal (family_answer family.now items.now)
        (lent_family_takes_memory family.now items.now)) }
{
    refuse_errors(items)?;
    let mut found = None;
    for item in items {
        if let Ok(message) = item {
            found = number_told(alloc, message).or(found);
        }
    }
    match found {
        Some(number) => Ok(number),
        None => Err(RouterError::new(alloc, NoFamily { family })?),
    }
}

/// Returns the number of the requested family: the last in the controller's messages.
///
/// Refused with the first error among the items; else, if no message has a number, with a text that names the family.
/// Only that text takes memory.
pub fn resolve_genl_family(
    alloc: Global,
    family: &str,
    items: Vec<CtrlItem>,
) -> Result<u16, CtrlError>
    ensures value { IfOk result (λ n. family_answer family.now items.items ≡ Ok n) }
    ensures refused { IfErr result (IsRefusal (family_answer family.now items.items)
        (family_takes_memory family.now items.items)) }
{
    find_genl_family(alloc, family, &without_errors(items)?)
}

/// The number of the first group with this name in a message.
fn match_in(alloc: Global, message: &CtrlMessage, name: &str) -> Result<Option<u32>, DeError>
    ensures value { IfOk result (λ n. match_in name.now message.now ≡ Ok n) }
    ensures refused { IfErr result
        (Refuses (match_in name.now message.now) (match_takes_memory message.now)) }
{
    let Some(body) = message.get_payload() else {
        return Ok(None);
    };
    let attrs = body.attrs().get_attr_handle();
    let all = groups(alloc, &attrs)?;
    Ok(first_match(alloc, all.get_attrs(), name)?)
}

/// Returns the number of the group with this name: that of the last message with such a group, and the first in that
/// message. A group without a readable name and number is skipped. The items stay with the caller.
///
/// Refused with a copy of the first error among the items; else with the refusal of the first payload whose groups
/// cannot be read; else, if no group has the name, with a text that names both. The copy, the groups of messages and
/// the text take memory.
pub fn find_nl_mcast_group(
    alloc: Global,
    family: &str,
    group: &str,
    items: &[CtrlItem],
) -> Result<u32, CtrlError>
    ensures value { IfOk result (λ n. group_answer family.now group.now items.now ≡ Ok n) }
    ensures refused { IfErr result (IsRefusal (group_answer family.now group.now items.now)
        (lent_group_takes_memory family.now group.now items.now)) }
{
    refuse_errors(items)?;
    let mut found = None;
    for item in items {
        if let Ok(message) = item {
            found = match_in(alloc, message, group)?.or(found);
        }
    }
    match found {
        Some(number) => Ok(number),
        None => Err(RouterError::new(alloc, NoGroup { family, group })?),
    }
}

/// Returns the number of the group with this name: that of the last message with such a group, and the first in that
/// message. A group without a readable name and number is skipped.
///
/// Refused with the first error among the items; else with the refusal of the first payload whose groups cannot be
/// read; else, if no group has the name, with a text that names both. If no item is an error, the groups of messages
/// and the text take memory.
pub fn resolve_nl_mcast_group(
    alloc: Global,
    family: &str,
    group: &str,
    items: Vec<CtrlItem>,
) -> Result<u32, CtrlError>
    ensures value { IfOk result (λ n. group_answer family.now group.now items.items ≡ Ok n) }
    ensures refused { IfErr result (IsRefusal (group_answer family.now group.now items.items)
        (group_takes_memory family.now group.now items.items)) }
{
    find_nl_mcast_group(alloc, family, group, &without_errors(items)?)
}

/// Returns the numbers of the family and of its group with this name, from one reply: each as [`find_genl_family`] and
/// [`find_nl_mcast_group`] return it.
///
/// Refused as the family is; else as the group is. Memory is taken where they take it.
pub fn find_genl_family_and_group(
    alloc: Global,
    family: &str,
    group: &str,
    items: &[CtrlItem],
) -> Result<(u16, u32), CtrlError>
    ensures value { IfOk result (λ both. both_answer family.now group.now items.now ≡ Ok both) }
    ensures refused { IfErr result (IsRefusal (both_answer family.now group.now items.now)
        (both_take_memory family.now group.now items.now)) }
{
    let number = find_genl_family(alloc, family, items)?;
    let group = find_nl_mcast_group(alloc, family, group, items)?;
    Ok((number, group))
}

/// The names of the family and of its last group with this number. Groups that cannot be read as a list are skipped.
fn names_said(
    alloc: Global,
    attrs: &GenlAttrHandle<'_, CtrlAttr>,
    id: u32,
) -> Result<Option<(String, String)>, DeError>
    ensures value { IfOk result (λ names. names_said id (map nlattr_view (attrs_in attrs.now))
        ≡ Ok (option_map (λ p. (string_bytes p.0, string_bytes p.1)) names)) }
    ensures refused { IfErr result
        (Refuses (names_said id (map nlattr_view (attrs_in attrs.now)))
        (family_name_takes_memory (map nlattr_view (attrs_in attrs.now)))) }
{
    let family = family_name(alloc, attrs)?;
    let Some(all) = readable(groups(alloc, attrs))? else {
        return Ok(None);
    };
    match last_name(alloc, all.get_attrs(), id)? {
        Some(name) => Ok(Some((family, name))),
        None => Ok(None),
    }
}

/// The names of the family and of its last group with this number, in a message.
fn names_in(
    alloc: Global,
    message: &CtrlMessage,
    id: u32,
) -> Result<Option<(String, String)>, DeError>
    ensures value { IfOk result (λ names. names_in id message.now
        ≡ Ok (option_map (λ p. (string_bytes p.0, string_bytes p.1)) names)) }
    ensures refused { IfErr result
        (Refuses (names_in id message.now) (message_names_take_memory message.now)) }
    ensures payload { OnErr result (IsSome (attributes_said message.now)) }
{
    let Some(body) = message.get_payload() else {
        return Ok(None);
    };
    names_said(alloc, &body.attrs().get_attr_handle(), id)
}

/// Returns the names of the family and the group with this number, from the last message with such a group.
///
/// Refused with the first failure, item by item, and in an item first the family's name, then group by group: an item
/// that is an error; a payload without a readable name of the family; a group that cannot be read, if the list of
/// groups can; the group with the number, if its name cannot be read. If the number is not found, refused with a text.
/// Memory is taken in a message up to the first failure, included, that has bytes for the name of its family.
pub fn lookup_id(
    alloc: Global,
    id: u32,
    items: Vec<CtrlItem>,
) -> Result<(String, String), CtrlError>
    ensures value { IfOk result
        (λ names. names_answer id items.items ≡ Ok (string_bytes names.0, string_bytes names.1)) }
    ensures refused { IfErr result
        (IsRefusal (names_answer id items.items) (names_take_memory id items.items)) }
{
    let mut found = None;
    for item in items {
        found = names_in(alloc, &item?, id)?.or(found);
    }
    found.ok_or(RouterError::Msg(MsgError::from_static(
        "ID does not correspond to a multicast group",
    )))
}
