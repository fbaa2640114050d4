//! Attributes that are made of a type and a payload, and lists that grow by them.

ghost use Rattle.std.specs.Prelude.{◌≡◌, ℕ, List, [], true, false, IfOk, IfErr, OnOk, OnErr};
ghost use Rattle.std.specs.Fn.{FnOnceReturnsAtMut};
ghost use Rattle.neli_wire.specs.Writing.{wire_all};
ghost use Rattle.neli_attr.specs.Rtattr.{with_length as routing};
ghost use Rattle.neli_attr.specs.Nlattr.{with_length as generic};
ghost use Rattle.neli_short.specs.Made.{IsFilled, IsMade, IsPut, RefusesFilled, RefusesMade, field};

use neli_attr::{
    AttrSlice, AttrTypeBuilder, Attribute, Buffer, FrameList, Nlattr, NlattrBuilder, Rtattr,
    RtattrBuilder,
};
use neli_consts::NlAttrType;
use neli_consts_attrs::RtaType;
use neli_list::TypedPayload;
use neli_wire::{NoMemory, SerError, ToBytes};
use std::alloc::Global;

/// Attributes that are made of a type and a payload.
pub trait Made: TypedPayload + ToBytes + Drop {
    // The attribute of this type and these bytes.
    ghost made: { Self.Kind → List ℕ → Self };

    // The same where the bytes are a list of attributes.
    ghost nest: { Self.Kind → List ℕ → Self };

    /// The attribute of this type, whose payload is the wire bytes of `payload`. A generic attribute has neither flag.
    ///
    /// Refused first with the payload's own refusal; then with a `SerError::Msg` where four bytes and the
    /// wire bytes pass the 65535 of the length field. Out of memory may stand in place of either.
    fn of<P: ToBytes + Drop>(alloc: Global, kind: Self::Kind, payload: P) -> Result<Self, SerError>
        ensures made { IfOk result (IsMade (made kind) (P.wire payload)) }
        ensures refused { IfErr result (RefusesMade (P.wire payload)) };

    /// The attribute of this type, whose payload is this list of attributes. A generic one is marked as nested.
    ///
    /// Refused as [`of`](Made::of) is.
    fn nest_of<A: ToBytes + Drop>(
        alloc: Global,
        kind: Self::Kind,
        attrs: FrameList<A>,
    ) -> Result<Self, SerError>
        ensures made { IfOk result (IsMade (nest kind) (wire_all A.wire attrs)) }
        ensures refused { IfErr result (RefusesMade (wire_all A.wire attrs)) };
}

/// A routing attribute without a payload.
fn empty_routing<T: RtaType>(alloc: Global, kind: T) -> Result<Rtattr<T, Buffer>, NoMemory>
    ensures { IfOk result (λ a. a ≡ routing kind []) }
{
    match RtattrBuilder::default()
        .rta_type(kind)
        .rta_payload(())
        .build(alloc)
    {
        Ok(attr) => Ok(attr),
        Err(_) => Err(NoMemory),
    }
}

/// A generic attribute without a payload, marked as nested where that is said.
fn empty_generic<T: NlAttrType>(
    alloc: Global,
    kind: T,
    is_nested: bool,
) -> Result<Nlattr<T, Buffer>, NoMemory>
    ensures { IfOk result (λ a. a ≡ generic (field is_nested kind) []) }
{
    let Ok(nla_type) = AttrTypeBuilder::default()
        .nla_type(kind)
        .nla_nested(is_nested)
        .build()
    else {
        return Err(NoMemory);
    };
    match NlattrBuilder::default()
        .nla_type(nla_type)
        .nla_payload(())
        .build(alloc)
    {
        Ok(attr) => Ok(attr),
        Err(_) => Err(NoMemory),
    }
}

/// The attribute with the wire bytes of `payload` as its payload.
fn filled<K, A: Attribute<K> + Drop, P: ToBytes>(
    alloc: Global,
    mut attr: A,
    payload: &P,
) -> Result<A, SerError>
    ensures made { IfOk result (IsMade (A.with_payload attr) (P.wire payload.now)) }
    ensures refused { IfErr result (RefusesMade (P.wire payload.now)) }
{
    attr.set_payload(alloc, payload)?;
    Ok(attr)
}

impl<T: RtaType> Made for Rtattr<T, Buffer> {
    ghost made = { routing };

    ghost nest = { routing };

    fn of<P: ToBytes + Drop>(alloc: Global, kind: T, payload: P) -> Result<Self, SerError> {
        filled(alloc, empty_routing(alloc, kind)?, &payload)
    }

    fn nest_of<A: ToBytes + Drop>(
        alloc: Global,
        kind: T,
        attrs: FrameList<A>,
    ) -> Result<Self, SerError> {
        filled(alloc, empty_routing(alloc, kind)?, &attrs)
    }
}

impl<T: NlAttrType> Made for Nlattr<T, Buffer> {
    ghost made = { λ kind. generic (field false kind) };

    ghost nest = { λ kind. generic (field true kind) };

    fn of<P: ToBytes + Drop>(alloc: Global, kind: T, payload: P) -> Result<Self, SerError> {
        filled(alloc, empty_generic(alloc, kind, false)?, &payload)
    }

    fn nest_of<A: ToBytes + Drop>(
        alloc: Global,
        kind: T,
        attrs: FrameList<A>,
    ) -> Result<Self, SerError> {
        filled(alloc, empty_generic(alloc, kind, true)?, &attrs)
    }
}

/// Lists to which attributes are put by their type and payload.
pub trait Put<A: Made>: AttrSlice<A> {
    /// Appends the attribute of this type, whose payload is the wire bytes of `payload`.
    ///
    /// Refused as [`Made::of`] is; then the list is as it was.
    fn put<P: ToBytes + Drop>(
        &mut self,
        alloc: Global,
        kind: A::Kind,
        payload: P,
    ) -> Result<(), SerError>
        ensures put { OnOk result (IsPut (A.made kind) (P.wire payload)
            (Self.attrs_of self.old) (Self.attrs_of self.new)) }
        ensures refused { IfErr result (RefusesMade (P.wire payload)) }
        ensures unchanged { OnErr result (self.new ≡ self.old) };

    /// Appends the attribute of this type, whose payload is the list that `fill` fills.
    ///
    /// Refused as `fill` is, or as [`Made::nest_of`] is; then the list is as it was.
    fn put_nest<
        B: ToBytes + Drop,
        E: From<SerError> + Drop,
        F: FnOnce(&mut FrameList<B>) -> Result<(), E>,
    >(&mut self, alloc: Global, kind: A::Kind, fill: F) -> Result<(), E>
        requires { F.IsAlwaysCallable fill }
        ensures put { let fills = FnOnceReturnsAtMut F.FnOnce fill [] in
            OnOk result (IsFilled fills (A.nest kind) B.wire (Self.attrs_of self.old)
            (Self.attrs_of self.new)) }
        ensures refused { let fills = FnOnceReturnsAtMut F.FnOnce fill [] in
            IfErr result (RefusesFilled fills B.wire E.from_gives) }
        ensures unchanged { OnErr result (self.new ≡ self.old) };
}

/// Appends the attribute of this type, whose payload is this list.
pub(crate) fn put_list<A: Made, B: ToBytes + Drop>(
    list: &mut FrameList<A>,
    alloc: Global,
    kind: A::Kind,
    attrs: FrameList<B>,
) -> Result<(), SerError>
    ensures put { OnOk result (IsPut (A.nest kind) (wire_all B.wire attrs) list.old list.new) }
    ensures refused { IfErr result (RefusesMade (wire_all B.wire attrs)) }
    ensures unchanged { OnErr result (list.new ≡ list.old) }
{
    list.push(A::nest_of(alloc, kind, attrs)?)?;
    Ok(())
}

impl<A: Made> Put<A> for FrameList<A> {
    fn put<P: ToBytes + Drop>(
        &mut self,
        alloc: Global,
        kind: A::Kind,
        payload: P,
    ) -> Result<(), SerError> {
        self.push(A::of(alloc, kind, payload)?)?;
        Ok(())
    }

    fn put_nest<
        B: ToBytes + Drop,
        E: From<SerError> + Drop,
        F: FnOnce(&mut FrameList<B>) -> Result<(), E>,
    >(&mut self, alloc: Global, kind: A::Kind, fill: F) -> Result<(), E> {
        let mut attrs = FrameList::new(alloc);
        fill(&mut attrs)?;
        put_list(self, alloc, kind, attrs)?;
        Ok(())
    }
}
