//! Reads the controller's attributes.

ghost use Rattle.std.specs.Prelude.{◌≡◌, Ok, IfErr, IfOk, map, string_bytes};
ghost use Rattle.std.specs.Result.{result_ok};
ghost use Rattle.neli_wire.specs.Refusals.{Refuses};
ghost use Rattle.neli_attr.specs.Handles.{attrs_in};
ghost use Rattle.neli_attr.specs.Nlattr.{nlattr_view};
ghost use Rattle.neli_resolvers.specs.Attributes.{family_id, family_name, group_attrs, group_id, group_name, groups};
ghost use Rattle.neli_resolvers.specs.Attributes.{family_name_takes_memory, groups_take_memory};
ghost use Rattle.neli_resolvers.specs.Attributes.{group_attrs_take_memory, group_name_takes_memory};

use neli_attr::{Buffer, GenlAttrHandle, Nlattr};
use neli_consts::{CtrlAttr, CtrlAttrMcastGrp, Index};
use neli_wire::DeError;
use std::alloc::Global;

/// The number of a family.
pub(crate) fn family_id(alloc: Global, attrs: &GenlAttrHandle<'_, CtrlAttr>) -> Option<u16>
    ensures { result ≡ result_ok (family_id (map nlattr_view (attrs_in attrs.now))) }
{
    attrs.get_attr_payload_as(alloc, CtrlAttr::FamilyId).ok()
}

/// The name of a family.
pub(crate) fn family_name(
    alloc: Global,
    attrs: &GenlAttrHandle<'_, CtrlAttr>,
) -> Result<String, DeError>
    ensures value { IfOk result
        (λ name. family_name (map nlattr_view (attrs_in attrs.now)) ≡ Ok (string_bytes name)) }
    ensures refused { IfErr result
        (Refuses (family_name (map nlattr_view (attrs_in attrs.now)))
        (family_name_takes_memory (map nlattr_view (attrs_in attrs.now)))) }
{
    attrs.get_attr_payload_as_with_len(alloc, CtrlAttr::FamilyName)
}

/// The groups of a family.
pub(crate) fn groups<'a>(
    alloc: Global,
    attrs: &'a GenlAttrHandle<'_, CtrlAttr>,
) -> Result<GenlAttrHandle<'a, Index>, DeError>
    ensures value { IfOk result (λ all.
        groups (map nlattr_view (attrs_in attrs.now)) ≡ Ok (map nlattr_view (attrs_in all))) }
    ensures refused { IfErr result
        (Refuses (groups (map nlattr_view (attrs_in attrs.now)))
        (groups_take_memory (map nlattr_view (attrs_in attrs.now)))) }
{
    attrs.get_nested_attributes::<Index>(alloc, CtrlAttr::McastGroups)
}

/// The attributes of a group.
pub(crate) fn group_attrs(
    alloc: Global,
    group: &Nlattr<Index, Buffer>,
) -> Result<GenlAttrHandle<'_, CtrlAttrMcastGrp>, DeError>
    ensures value { IfOk result
        (λ attrs. group_attrs (nlattr_view group.now) ≡ Ok (map nlattr_view (attrs_in attrs))) }
    ensures refused { IfErr result (Refuses (group_attrs (nlattr_view group.now))
        (group_attrs_take_memory (nlattr_view group.now))) }
{
    group.get_attr_handle(alloc)
}

/// The name of a group.
pub(crate) fn group_name(
    alloc: Global,
    attrs: &GenlAttrHandle<'_, CtrlAttrMcastGrp>,
) -> Result<String, DeError>
    ensures value { IfOk result
        (λ name. group_name (map nlattr_view (attrs_in attrs.now)) ≡ Ok (string_bytes name)) }
    ensures refused { IfErr result
        (Refuses (group_name (map nlattr_view (attrs_in attrs.now)))
        (group_name_takes_memory (map nlattr_view (attrs_in attrs.now)))) }
{
    attrs.get_attr_payload_as_with_len(alloc, CtrlAttrMcastGrp::Name)
}

/// The number of a group.
pub(crate) fn group_id(alloc: Global, attrs: &GenlAttrHandle<'_, CtrlAttrMcastGrp>) -> Option<u32>
    ensures { result ≡ result_ok (group_id (map nlattr_view (attrs_in attrs.now))) }
{
    attrs.get_attr_payload_as(alloc, CtrlAttrMcastGrp::Id).ok()
}
