//! Which object a message is about.

ghost use Rattle.std.specs.Prelude.{◌≡◌, ◌++◌, Some, IfOk, IfSome, OnOk, flat_map, option_map, length};
ghost use Rattle.neli_lent.specs.Attributes.{attribute_view};
ghost use Rattle.neli_lent.specs.Messages.{message_view};
ghost use Rattle.neli_cache.specs.Keys.{attribute_bytes, attribute_part, is_meant, key_of, part_of, said, told};

use neli_lent::{LentAttr, LentAttrs, LentMessage};
use neli_wire::NoMemory;
use std::alloc::Global;

/// Bytes of a payload that are part of a key.
#[derive(Clone, Copy, Debug, PartialEq, Eq)]
pub enum Part {
    /// None: it fills the list of parts.
    Nothing,
    /// Those from the first place up to the second, or to the payload's end where that comes first.
    Bytes(usize, usize),
    /// The first attribute of this type behind the header, its header and its payload as they stand. No bytes where
    /// there is none, or where one before it cannot be read.
    Attribute(u16),
}

/// Which messages say that an object is there, or gone, and which of their bytes are its key.
#[derive(Clone, Copy, Debug)]
pub struct Keys {
    /// The type of a message that says that an object is there, as `RTM_NEWLINK`.
    pub new_type: u16,
    /// The type of one that says that it is gone, as `RTM_DELLINK`.
    pub gone_type: u16,
    /// The first byte of the payloads that are meant, if not all are: in routing the family of addresses.
    pub family: Option<u8>,
    /// The length of a payload's header; a shorter payload says nothing.
    pub header: usize,
    /// The parts of a key, one after the other.
    pub parts: [Part; 6],
}

/// What a message says of the object with a key: its payload, or that it is gone.
#[derive(Drop)]
pub(crate) struct Told<'b> {
    pub(crate) key: Vec<u8>,
    pub(crate) payload: Option<&'b [u8]>,
}

/// Appends an attribute's header and payload, or nothing.
fn push_attribute(key: &mut Vec<u8>, attribute: Option<LentAttr<'_, u16>>) -> Result<(), NoMemory>
    ensures { OnOk result (key.new.items
        ≡ key.old.items ++ attribute_bytes (option_map attribute_view attribute.entry)) }
{
    if let Some(attribute) = attribute {
        key.extend_from_slice(&attribute.attr_len().to_le_bytes())?;
        key.extend_from_slice(&attribute.attr_type().to_le_bytes())?;
        key.extend_from_slice(attribute.attr_payload())?;
    }
    Ok(())
}

/// The first attribute of a type in these bytes, if there is one before the first that cannot be read.
fn attribute_in(bytes: &[u8], t: u16) -> Option<LentAttr<'_, u16>>
    ensures { option_map attribute_view result ≡ attribute_part t bytes.now }
{
    match LentAttrs::<u16>::new(bytes).get_attribute(t) {
        Ok(attribute) => attribute,
        Err(_) => None,
    }
}

/// Appends a part of a payload, behind whose header of this length attributes stand.
fn push_part(key: &mut Vec<u8>, part: Part, header: usize, payload: &[u8]) -> Result<(), NoMemory>
    ensures { OnOk result (key.new.items ≡ key.old.items ++ part_of header payload.now part) }
{
    match part {
        Part::Nothing => Ok(()),
        Part::Bytes(start, end) => {
            let end = end.min(payload.len());
            if start < end {
                key.extend_from_slice(&payload[start..end])?;
            }
            Ok(())
        }
        Part::Attribute(t) => {
            let attributes = payload.get(header..).unwrap_or(&[]);
            push_attribute(key, attribute_in(attributes, t))
        }
    }
}

impl Keys {
    /// The key of the object that a payload is about.
    pub fn key_of(&self, alloc: Global, payload: &[u8]) -> Result<Vec<u8>, NoMemory>
        ensures { IfOk result (λ key. key.items ≡ key_of self.now payload.now) }
    {
        let mut key = Vec::new(alloc);
        for part in &self.parts {
            push_part(&mut key, *part, self.header, payload)?;
        }
        Ok(key)
    }

    /// Whether a payload is meant: it has a header, and is of the family.
    fn means(&self, payload: &[u8]) -> bool
        ensures { result ≡ is_meant self.now payload.now }
    {
        if payload.len() < self.header {
            return false;
        }
        match self.family {
            None => true,
            Some(family) => match payload.first() {
                None => false,
                Some(first) => *first == family,
            },
        }
    }

    /// What a message says of which object; none where it is about none.
    pub(crate) fn read<'b>(
        &self,
        alloc: Global,
        message: &LentMessage<'b, u16>,
    ) -> Result<Option<Told<'b>>, NoMemory>
        ensures { IfOk result (λ t. option_map told t ≡ said self.now (message_view message.now)) }
    {
        let payload = message.nl_payload();
        let is_new = *message.nl_type() == self.new_type;
        let is_gone = *message.nl_type() == self.gone_type;
        if !(is_new || is_gone) || !self.means(payload) {
            return Ok(None);
        }
        let key = self.key_of(alloc, payload)?;
        Ok(Some(Told {
            key,
            payload: if is_new { Some(payload) } else { None },
        }))
    }
}
