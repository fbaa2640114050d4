//! What the controller of generic netlink says of a family.

ghost use Rattle.std.specs.Prelude.{◌≡◌, ℕ, IsOk, None, OnErr, OnOk};
ghost use Rattle.std.specs.Option.{option_map};
ghost use Rattle.neli_tables.specs.Families.{learnt, tables_in};
ghost use Rattle.neli_tables_walk.specs.Controller.{family_said, first_payload, id_in};
ghost use Rattle.neli_tables_walk.specs.Controller.{learnt_from, names_family};
ghost use Rattle.neli_tables_walk.specs.Controller.{pair_view};

use crate::generic::{GENERIC, GENERIC_HEADER_SIZE, generic_header};
use crate::{Head, without_zero};
use byteorder::{ByteOrder, LittleEndian};
use neli_consts::{CtrlAttr, CtrlCmd, GenlId};
use neli_lent::LentNlattrs;
use neli_tables::Tables;
use std::alloc::AllocError;

/// Learns the number of a family of generic netlink from a message of the controller that names it
/// (`CTRL_CMD_NEWFAMILY` with `CTRL_ATTR_FAMILY_ID` and `CTRL_ATTR_FAMILY_NAME`). Of any other
/// message nothing is learnt, and none is refused.
///
/// Refused where memory runs out; then nothing is learnt.
pub fn learn_from(tables: &mut Tables<'_>, head: Head, payload: &[u8]) -> Result<(), AllocError>
    ensures tables { tables_in tables.new ≡ tables_in tables.old }
    ensures ok { OnOk result ((n : ℕ) → learnt tables.new n
        ≡ learnt_from (family_said head payload.now) (tables_in tables.old) n
        (learnt tables.old n)) }
    ensures unchanged { OnErr result ((n : ℕ) → learnt tables.new n ≡ learnt tables.old n) }
    ensures other { family_said head payload.now ≡ None → IsOk result }
{
    match family_said(head, payload) {
        Some((id, name)) => tables.learn(id, name),
        None => Ok(()),
    }
}

/// The number and the name of the family that a message of the controller names.
fn family_said(head: Head, payload: &[u8]) -> Option<(u16, &[u8])>
    ensures { option_map pair_view result ≡ family_said head payload.now }
{
    if !names_family(head, payload) {
        return None;
    }
    let attributes = &payload[GENERIC_HEADER_SIZE..];
    let id = id_in(first_payload(attributes, u16::from(CtrlAttr::FamilyId))?)?;
    let name = first_payload(attributes, u16::from(CtrlAttr::FamilyName))?;
    Some((id, without_zero(name)))
}

/// Whether this is a message of the controller that names a family.
fn names_family(head: Head, payload: &[u8]) -> bool
    ensures { result ≡ names_family head payload.now }
{
    match generic_header(payload) {
        Some(header) => {
            head.protocol == GENERIC
                && head.message_type == u16::from(GenlId::Ctrl)
                && header.command == u8::from(CtrlCmd::Newfamily)
        }
        None => false,
    }
}

/// The payload of the first attribute of a list that has this number; `None` where there is none
/// before the end or a fault.
pub fn first_payload(attributes: &[u8], number: u16) -> Option<&[u8]>
    ensures { option_map (λ bytes. bytes.now) result ≡ first_payload number attributes.now }
{
    let Ok(found) = LentNlattrs::<u16>::new(attributes).get_attribute(number) else {
        return None;
    };
    let Some(attribute) = found else {
        return None;
    };
    Some(attribute.attr_payload())
}

/// The number that two bytes are.
fn id_in(bytes: &[u8]) -> Option<u16>
    ensures { result ≡ id_in bytes.now }
{
    if bytes.len() == 2 {
        Some(LittleEndian::read_u16(bytes))
    } else {
        None
    }
}
