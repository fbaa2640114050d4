//! The attributes of an extended acknowledgement, made by the words by which they are read.

ghost use Rattle.std.specs.Prelude.{◌≡◌, ◌++◌, Some, None, OnOk, IfErr, IfOk, IsOk};
ghost use Rattle.std.specs.Option.{option_map};
ghost use Rattle.neli_consts.specs.declared.nlmsg.NlmsgerrAttr.TheVariants as kind;
ghost use Rattle.neli_attr.specs.Attributes.{attribute_payload};
ghost use Rattle.neli_short.specs.ExtAcks.{RefusesBuilt, built_ext_ack, given, given_policy, given_wire};
ghost use Rattle.neli_short.specs.ExtAcks.{number_bytes, policy_wire, text_bytes};
ghost use Rattle.neli_short.specs.Made.{RefusesMade};

use crate::Put;
use crate::make::put_list;
use neli_attr::{Buffer, GenlBuffer};
use neli_consts::NlmsgerrAttr;
use neli_consts_linux::{NLMSGERR_ATTR_MISS_NEST, NLMSGERR_ATTR_MISS_TYPE, NlPolicyTypeAttr};
use neli_wire::SerError;
use std::alloc::Global;

/// A builder of the attributes of an extended acknowledgement.
#[derive(Debug, Drop)]
pub struct ExtAckBuilder<'a> {
    text: Option<&'a str>,
    offset: Option<u32>,
    policy: Option<GenlBuffer<NlPolicyTypeAttr, Buffer>>,
    missing_type: Option<u32>,
    missing_nest: Option<u32>,
}

impl<'a> Default for ExtAckBuilder<'a> {
    ghost is_default = { λ b. b ≡ record {
      text = None;
      offset = None;
      policy = None;
      missing_type = None;
      missing_nest = None;
    } };

    fn default() -> Self {
        ExtAckBuilder {
            text: None,
            offset: None,
            policy: None,
            missing_type: None,
            missing_nest: None,
        }
    }
}

impl<'a> ExtAckBuilder<'a> {
    /// What was wrong, in words.
    pub fn text(mut self, value: &'a str) -> Self
        ensures { result ≡ record self.entry { text = Some value.entry } }
    {
        self.text = Some(value);
        self
    }

    /// Where in the request it was, in bytes from the request's header.
    pub fn offset(mut self, value: u32) -> Self
        ensures { result ≡ record self.entry { offset = Some value } }
    {
        self.offset = Some(value);
        self
    }

    /// What the kernel would have taken there (`NLMSGERR_ATTR_POLICY`): the attributes of a policy. They become the
    /// payload of one attribute, which is marked as nested.
    pub fn policy(mut self, attrs: GenlBuffer<NlPolicyTypeAttr, Buffer>) -> Self
        ensures { result ≡ record self.entry { policy = Some attrs } }
    {
        self.policy = Some(attrs);
        self
    }

    /// The number of an attribute that is missing.
    pub fn missing_type(mut self, value: u32) -> Self
        ensures { result ≡ record self.entry { missing_type = Some value } }
    {
        self.missing_type = Some(value);
        self
    }

    /// Where in the request the nest stands in which that attribute is missing, in bytes from the request's header.
    pub fn missing_nest(mut self, value: u32) -> Self
        ensures { result ≡ record self.entry { missing_nest = Some value } }
    {
        self.missing_nest = Some(value);
        self
    }

    /// The attributes of what was given, in the order of their numbers.
    ///
    /// Refused with a `SerError::Msg` where a text with its zero is longer than 65531 bytes, or then where the wire
    /// bytes of a policy's attributes are; or where memory runs out.
    pub fn build(self, alloc: Global) -> Result<GenlBuffer<NlmsgerrAttr, Buffer>, SerError>
        ensures built { IfOk result (λ attrs. attrs ≡ built_ext_ack self.entry) }
        ensures refused { IfErr result (RefusesBuilt self.entry) }
    {
        let mut attrs = GenlBuffer::new(alloc);
        put_text(alloc, &mut attrs, self.text)?;
        put_number(alloc, &mut attrs, NlmsgerrAttr::Offset, self.offset)?;
        put_policy(alloc, &mut attrs, self.policy)?;
        put_number(
            alloc,
            &mut attrs,
            NLMSGERR_ATTR_MISS_TYPE,
            self.missing_type,
        )?;
        put_number(
            alloc,
            &mut attrs,
            NLMSGERR_ATTR_MISS_NEST,
            self.missing_nest,
        )?;
        Ok(attrs)
    }
}

/// Appends the text, where one was given.
fn put_text(
    alloc: Global,
    attrs: &mut GenlBuffer<NlmsgerrAttr, Buffer>,
    text: Option<&str>,
) -> Result<(), SerError>
    ensures put { OnOk result (attrs.new ≡ attrs.old
        ++ given kind.Msg (text_bytes (option_map (λ t. t.now) text.entry))) }
    ensures fits { OnOk result
        (IsOk (attribute_payload (given_wire (text_bytes (option_map (λ t. t.now) text.entry))))) }
    ensures refused { IfErr result
        (RefusesMade (given_wire (text_bytes (option_map (λ t. t.now) text.entry)))) }
{
    match text {
        Some(text) => attrs.put(alloc, NlmsgerrAttr::Msg, text),
        None => Ok(()),
    }
}

/// Appends the policy, where one was given.
fn put_policy(
    alloc: Global,
    attrs: &mut GenlBuffer<NlmsgerrAttr, Buffer>,
    policy: Option<GenlBuffer<NlPolicyTypeAttr, Buffer>>,
) -> Result<(), SerError>
    ensures put { OnOk result (attrs.new ≡ attrs.old ++ given_policy policy) }
    ensures refused { IfErr result (RefusesMade (policy_wire policy)) }
{
    match policy {
        Some(policy) => put_list(attrs, alloc, NlmsgerrAttr::Policy, policy),
        None => Ok(()),
    }
}

/// Appends the number of this kind, where one was given.
fn put_number(
    alloc: Global,
    attrs: &mut GenlBuffer<NlmsgerrAttr, Buffer>,
    kind: NlmsgerrAttr,
    number: Option<u32>,
) -> Result<(), SerError>
    ensures put { OnOk result (attrs.new ≡ attrs.old ++ given kind (number_bytes number)) }
    ensures refused { IfErr result (λ e. e ≡ SerError.Memory) }
{
    match number {
        Some(number) => attrs.put(alloc, kind, number),
        None => Ok(()),
    }
}
