//! What an extended acknowledgement says, by words: `NLMSGERR_ATTR_*` of `linux/netlink.h`.

ghost use Rattle.std.specs.Prelude.{◌≡◌};
ghost use Rattle.std.specs.Option.{option_and_then, option_copied, option_map};
ghost use Rattle.neli_consts.specs.declared.nlmsg.NlmsgerrAttr.TheVariants as kind;
ghost use Rattle.neli_reader.specs.Explained.{place_in, words_in};
ghost use Rattle.neli_reader.specs.Answers.{Attributes};
ghost use Rattle.neli_short.specs.ExtAcks.{from_start, miss_nest, miss_type, payload_in};

use crate::found::text_of;
use byteorder::{ByteOrder, LittleEndian};
use neli_attr::{Buffer, GenlBuffer};
use neli_consts::NlmsgerrAttr;
use neli_consts_linux::{NLMSGERR_ATTR_MISS_NEST, NLMSGERR_ATTR_MISS_TYPE, NlPolicyTypeAttr};
use neli_lent::LentNlattrs;
use neli_reader::Nlmsgerr;

/// What an error or an acknowledgement says beside its code. Of two attributes of a kind the first counts; one whose
/// payload is not of its form is left out, as a missing one is. No call takes memory.
pub trait ExtAck {
    // The attributes that say more.
    ghost said: { Self → Attributes };

    /// The attributes that say more.
    fn said(&self) -> &GenlBuffer<NlmsgerrAttr, Buffer>
        ensures { result.now ≡ said self.now };

    /// What was wrong, in words (`NLMSGERR_ATTR_MSG`), without the zero at the end.
    fn text(&self) -> Option<&str>
        ensures { option_map (λ t. t.now) result
            ≡ option_and_then words_in (payload_in kind.Msg (said self.now)) }
    {
        text_in(payload_of(self.said(), NlmsgerrAttr::Msg)?)
    }

    /// Where in the request it was, in bytes from the request's header (`NLMSGERR_ATTR_OFFS`).
    fn offset(&self) -> Option<u32>
        ensures { result ≡ option_and_then place_in (payload_in kind.Offset (said self.now)) }
    {
        number_in(payload_of(self.said(), NlmsgerrAttr::Offset)?)
    }

    /// The number of an attribute that is missing (`NLMSGERR_ATTR_MISS_TYPE`).
    fn missing_type(&self) -> Option<u32>
        ensures { result ≡ option_and_then place_in (payload_in miss_type (said self.now)) }
    {
        number_in(payload_of(self.said(), NLMSGERR_ATTR_MISS_TYPE)?)
    }

    /// Where in the request the nest stands in which that attribute is missing, in bytes from the request's header
    /// (`NLMSGERR_ATTR_MISS_NEST`); none where it is missing in the message itself.
    fn missing_nest(&self) -> Option<u32>
        ensures { result ≡ option_and_then place_in (payload_in miss_nest (said self.now)) }
    {
        number_in(payload_of(self.said(), NLMSGERR_ATTR_MISS_NEST)?)
    }

    /// What the kernel would have taken there (`NLMSGERR_ATTR_POLICY`): the attributes of a policy, lent.
    fn policy(&self) -> Option<LentNlattrs<'_, NlPolicyTypeAttr>>
        ensures { result ≡ option_map from_start (payload_in kind.Policy (said self.now)) }
    {
        Some(LentNlattrs::new(payload_of(self.said(), NlmsgerrAttr::Policy)?))
    }
}

impl<M> ExtAck for Nlmsgerr<M> {
    ghost said = { λ e. e.ext_ack };

    fn said(&self) -> &GenlBuffer<NlmsgerrAttr, Buffer> {
        self.ext_ack()
    }
}

impl ExtAck for GenlBuffer<NlmsgerrAttr, Buffer> {
    ghost said = { λ attrs. attrs };

    fn said(&self) -> &GenlBuffer<NlmsgerrAttr, Buffer> {
        self
    }
}

/// The payload of the first attribute of this kind.
fn payload_of(attrs: &GenlBuffer<NlmsgerrAttr, Buffer>, kind: NlmsgerrAttr) -> Option<&[u8]>
    ensures { option_copied result ≡ payload_in kind attrs.now }
{
    let number = u16::from(kind);
    let mut attrs = attrs.as_ref().iter();
    let found = attrs.find(|attr| u16::from(attr.nla_type().nla_type()) == number)?;
    Some(found.nla_payload().as_ref())
}

/// The text of a payload, where it has one.
fn text_in(payload: &[u8]) -> Option<&str>
    ensures { option_map (λ t. t.now) result ≡ words_in payload.now }
{
    text_of(payload).ok()
}

/// The number of a payload, where that has four bytes.
fn number_in(payload: &[u8]) -> Option<u32>
    ensures { result ≡ place_in payload.now }
{
    if payload.len() == 4 {
        Some(LittleEndian::read_u32(payload))
    } else {
        None
    }
}
