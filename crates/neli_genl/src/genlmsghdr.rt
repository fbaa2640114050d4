//! Messages of generic netlink.

ghost use Rattle.std.specs.Prelude.{◌≡◌, ◌+◌, ◌++◌, ◌<◌, ◌≤◌, Some, None, Ok, IfOk, IfErr, OnOk, OnErr, drop, length};
ghost use Rattle.std.specs.Prelude.{min, take};
ghost use Rattle.neli_wire.specs.Refusals.{Refuses};
ghost use Rattle.neli_wire.specs.Place.{whole};
ghost use Rattle.neli_wire.specs.Reading.{map_refusal, refusal_within};
ghost use Rattle.neli_wire.specs.laws.Sizes.{unpadded-rounded};
ghost use Rattle.neli_wire.specs.Writing.{RefusesWrite, append_wire};
ghost use Rattle.neli_attr.specs.Nlattr.{nlattr_view};
ghost use Rattle.neli_attr.specs.Builders.{IsWhyNot};
ghost use Rattle.neli_genl.specs.Genlmsghdr.{GenlFields, AttributesRead, fields_of, genlmsghdr_built, genlmsghdr_bytes};
ghost use Rattle.neli_genl.specs.Genlmsghdr.{genlmsghdr_of, genlmsghdr_plain, genlmsghdr_size, genlmsghdr_takes_memory};
ghost use Rattle.neli_genl.specs.Genlmsghdr.{genlmsghdr_wire, parts_of, parts_take_memory};
ghost use Rattle.neli_genl.specs.View.{says};
ghost use Rattle.neli_genl.specs.laws.Genlmsghdr.{genlmsghdr_of-never_short, genlmsghdr_of-no_memory};
ghost use Rattle.neli_genl.specs.laws.Genlmsghdr.{genlmsghdr_wire-length, genlmsghdr_wire-zeros};
ghost use Rattle.neli_genl.specs.laws.Genlmsghdr.{genlmsghdr_wire-no_memory};

use crate::NoUserHeader;
use neli_attr::{Buffer, BuildError, GenlBuffer, TryClone, of};
use neli_body::HeaderBytes;
use neli_body::numbers::{u8_in, u16_in};
use neli_consts::{Cmd, NlAttrType};
use neli_wire::implementing::{undo_on_refusal, within_input};
use neli_wire::{
    Constant, Cursor, DeError, FromBytes, FromBytesWithInput, Header, NoMemory, SerError, Size,
    ToBytes, TypeSize, UninitializedFieldError,
};
use std::alloc::Global;

/// A message of generic netlink: `struct genlmsghdr` of `linux/genetlink.h`, 4 bytes, a header of the family's own,
/// whose size is a multiple of four, and attributes.
#[derive(Debug, Drop, PartialEq, Eq)]
pub struct Genlmsghdr<C, T, H = NoUserHeader> {
    cmd: C,
    version: u8,
    reserved: u16,
    header: H,
    attrs: GenlBuffer<T, Buffer>,
}

impl<C, T, H> Genlmsghdr<C, T, H> {
    /// What the message asks of the family, or reports from it.
    pub fn cmd(&self) -> &C
        ensures { result.now ≡ self.now.cmd }
    {
        &self.cmd
    }

    /// The version of the family's messages.
    pub fn version(&self) -> &u8
        ensures { result.now ≡ self.now.version }
    {
        &self.version
    }

    /// The family's own header.
    pub fn header(&self) -> &H
        ensures { result.now ≡ self.now.header }
    {
        &self.header
    }

    /// The attributes.
    pub fn attrs(&self) -> &GenlBuffer<T, Buffer>
        ensures { result.now ≡ self.now.attrs }
    {
        &self.attrs
    }
}

impl<C: Cmd, T: NlAttrType, H: Copy> Genlmsghdr<C, T, H> {
    /// An equal message.
    ///
    /// Refused only if memory runs out, and never where it has no attributes.
    pub fn try_clone(&self) -> Result<Self, NoMemory>
        ensures value { IfOk result (λ m. m ≡ self.now) }
        ensures memory { OnErr result (0 < length self.now.attrs) }
    {
        Ok(Genlmsghdr {
            cmd: self.cmd,
            version: self.version,
            reserved: self.reserved,
            header: self.header,
            attrs: self.attrs.try_clone()?,
        })
    }
}

impl<C: Cmd, T: NlAttrType, H: Copy> TryClone for Genlmsghdr<C, T, H> {
    ghost copy_takes_memory = { λ m. 0 < length m.attrs };

    fn try_clone(&self) -> Result<Self, NoMemory> {
        Genlmsghdr::try_clone(self)
    }
}

impl<C, T, H: TypeSize> Header for Genlmsghdr<C, T, H> {
    ghost use Rattle.std.below.core.specs.declared.int.usize.TheConstants.{MAX};

    ghost header = { min (4 + H.width) MAX };

    /// Four bytes and those of the family's own header.
    fn header_size() -> usize {
        H::type_size().saturating_add(4)
    }
}

impl<C: Cmd, T: NlAttrType, H: Size> Size for Genlmsghdr<C, T, H> {
    ghost unpadded_length = { genlmsghdr_size H.wire_length };

    ghost wire_length = { genlmsghdr_size H.wire_length };

    ghost rounded = { unpadded-rounded (genlmsghdr_size H.wire_length) };

    fn unpadded_size(&self) -> usize {
        self.header
            .written_size()
            .saturating_add(4)
            .saturating_add(self.attrs.written_size())
    }

    fn written_size(&self) -> usize {
        self.unpadded_size()
    }
}

/// Appends a message. A refusal leaves some of it appended.
#[tactic(auto, using(neli_wire::specs::laws::Writing::append_wire_both))]
fn write_fields<C: Cmd, T: NlAttrType, H: ToBytes>(
    message: &Genlmsghdr<C, T, H>,
    buffer: &mut Vec<u8>,
) -> Result<(), SerError>
    ensures appended { OnOk result
        (append_wire buffer.old.items
        (genlmsghdr_wire C.wire_number T.wire_number H.wire message.now) ≡ Ok buffer.new.items) }
    ensures refused { IfErr result
        (RefusesWrite (genlmsghdr_wire C.wire_number T.wire_number H.wire message.now)) }
    ensures front { OnErr result (take (length buffer.old.items) buffer.new.items
        ≡ buffer.old.items) }
{
    append_head(message.cmd, message.version, message.reserved, buffer)?;
    message.header.to_bytes(buffer)?;
    message.attrs.to_bytes(buffer)
}

/// Appends the bytes before the family's own header. A refusal leaves the buffer as it was.
fn append_head<C: Cmd>(
    cmd: C,
    version: u8,
    reserved: u16,
    buffer: &mut Vec<u8>,
) -> Result<(), SerError>
    ensures appended { OnOk result
        (append_wire buffer.old.items (Ok (genlmsghdr_bytes (C.wire_number cmd) version reserved))
        ≡ Ok buffer.new.items) }
    ensures refused { IfErr result
        (RefusesWrite (Ok (genlmsghdr_bytes (C.wire_number cmd) version reserved))) }
    ensures unchanged { OnErr result (buffer.new.items ≡ buffer.old.items) }
{
    let bytes = HeaderBytes::new()
        .u8(cmd.to_wire())
        .u8(version)
        .u16(reserved);
    buffer.extend_from_slice(bytes.as_slice())?;
    Ok(())
}

impl<C: Cmd, T: NlAttrType, H: ToBytes> ToBytes for Genlmsghdr<C, T, H> {
    ghost wire = { genlmsghdr_wire C.wire_number T.wire_number H.wire };

    ghost length_is = { genlmsghdr_wire-length C.wire_number T.wire_number
        H.wire H.Size.wire_length H.length_is };

    ghost zeros_after = { genlmsghdr_wire-zeros C.wire_number T.wire_number
        H.wire H.Size.wire_length H.length_is };

    ghost no_memory = { genlmsghdr_wire-no_memory C.wire_number T.wire_number H.wire H.no_memory };

    fn to_bytes(&self, buffer: &mut Vec<u8>) -> Result<(), SerError> {
        let start = buffer.len();
        let outcome = write_fields(self, buffer);
        undo_on_refusal(buffer, start, outcome)
    }
}

/// The family's own header at a place in an input of `n` bytes.
fn read_header<H: FromBytes>(alloc: Global, cursor: &mut Cursor<'_>, n: usize) -> Result<H, DeError>
    ensures value { IfOk result (λ h. map_refusal (refusal_within n) (H.read cursor.old.rest)
        ≡ Ok (H.view h, cursor.new.rest)) }
    ensures refused { IfErr result
        (Refuses (map_refusal (refusal_within n) (H.read cursor.old.rest))
        (H.takes_memory cursor.old.rest)) }
{
    match H::from_bytes(alloc, cursor) {
        Ok(header) => Ok(header),
        Err(error) => Err(within_input(error, n)),
    }
}

/// The family's own header and what follows it, in an input of `n` bytes.
#[tactic(auto, using(neli_wire::specs::laws::Reading::refused_first), unfolding(crate::specs::Genlmsghdr::parts_of, crate::specs::Genlmsghdr::parts_take_memory))]
fn read_parts<H: FromBytes, A: FromBytesWithInput>(
    alloc: Global,
    bytes: &[u8],
    n: usize,
) -> Result<(H, A), DeError>
    ensures value { IfOk result (λ p. parts_of H.read A.read n bytes.now
        ≡ Ok (H.view p.0, A.view p.1)) }
    ensures refused { IfErr result
        (Refuses (parts_of H.read A.read n bytes.now)
        (parts_take_memory H.read H.takes_memory A.takes_memory bytes.now)) }
{
    let mut cursor = Cursor::new(bytes);
    let header = read_header(alloc, &mut cursor, n)?;
    let rest = cursor.rest();
    let attrs = read_rest(alloc, rest)?;
    Ok((header, attrs))
}

/// The value that all of the bytes spell.
fn read_rest<A: FromBytesWithInput>(alloc: Global, bytes: &[u8]) -> Result<A, DeError>
    ensures value { IfOk result (λ a. A.read bytes.now ≡ Ok (A.view a)) }
    ensures refused { IfErr result (Refuses (A.read bytes.now) (A.takes_memory bytes.now)) }
{
    A::from_bytes_with_input(alloc, &mut Cursor::new(bytes), bytes.len())
}

/// The message of bytes that begin with its first four; the size of the family's own header is allowed.
#[tactic(auto, using(neli_wire::specs::laws::Reading::refused_first))]
fn read_fields<C: Constant<Number = u8>, H: FromBytes, A: FromBytesWithInput>(
    alloc: Global,
    bytes: &[u8],
) -> Result<(C, u8, u16, H, A), DeError>
    requires { 4 ≤ length bytes.now }
    ensures value { IfOk result (λ m. fields_of C.wire_value H.read A.read bytes.now
        ≡ Ok (record {
          cmd = m.0;
          version = m.1;
          reserved = m.2;
          header = H.view m.3;
          attrs = A.view
              m.4;
        })) }
    ensures refused { IfErr result
        (Refuses (fields_of C.wire_value H.read A.read bytes.now)
        (parts_take_memory H.read H.takes_memory A.takes_memory (drop 4 bytes.now))) }
{
    let (header, attrs) = read_parts(alloc, &bytes[4..], bytes.len())?;
    Ok((
        C::from_wire(u8_in(bytes, 0)),
        u8_in(bytes, 1),
        u16_in(bytes, 2),
        header,
        attrs,
    ))
}

/// The message that all of the bytes spell.
fn read_message<C: Constant<Number = u8>, T: NlAttrType, H: TypeSize>(
    alloc: Global,
    bytes: &[u8],
) -> Result<Genlmsghdr<C, T, H>, DeError>
    ensures value { IfOk result
        (λ m. genlmsghdr_of H.width C.wire_value T.wire_value H.FromBytes.read bytes.now
        ≡ Ok (says H.FromBytes.view m)) }
    ensures refused { IfErr result
        (Refuses (genlmsghdr_of H.width C.wire_value T.wire_value H.FromBytes.read bytes.now)
        (genlmsghdr_takes_memory H.width H.FromBytes.read H.FromBytes.takes_memory bytes.now)) }
{
    if H::type_size() % 4 != 0 || bytes.len() < 4 {
        return Err(DeError::InvalidInput(bytes.len()));
    }
    match read_fields(alloc, bytes) {
        Ok((cmd, version, reserved, header, attrs)) => Ok(Genlmsghdr {
            cmd,
            version,
            reserved,
            header,
            attrs,
        }),
        Err(error) => Err(error),
    }
}

impl<C: Cmd, T: NlAttrType, H: TypeSize> FromBytesWithInput for Genlmsghdr<C, T, H> {
    ghost use Rattle.neli_genl.specs.View.{says};

    ghost Value = { GenlFields C H.FromBytes.Value (AttributesRead T) };

    ghost view = { says H.FromBytes.view };

    ghost read = { genlmsghdr_of H.width C.wire_value T.wire_value H.FromBytes.read };

    ghost takes_memory = { genlmsghdr_takes_memory H.width H.FromBytes.read
        H.FromBytes.takes_memory };

    ghost no_memory = { genlmsghdr_of-no_memory H.width C.wire_value T.wire_value
        H.FromBytes.read H.FromBytes.no_memory };

    ghost never_short = { genlmsghdr_of-never_short H.width C.wire_value T.wire_value
        H.FromBytes.read };

    /// Reads a message. Also `InvalidInput(n)` if the size of the family's own header is no multiple of four.
    fn from_bytes_with_input(
        alloc: Global,
        cursor: &mut Cursor<'_>,
        n: usize,
    ) -> Result<Self, DeError> {
        let bytes = cursor.input(n)?;
        match read_message(alloc, bytes) {
            Ok(message) => {
                cursor.advance(n);
                Ok(message)
            }
            Err(error) => Err(error),
        }
    }
}

/// Why no message of generic netlink was built.
pub type GenlmsghdrBuilderError = BuildError<{ of::GENLMSGHDR }>;

/// A builder of messages of generic netlink.
#[derive(Debug, Drop)]
pub struct GenlmsghdrBuilder<C, T, H = NoUserHeader> {
    cmd: Option<C>,
    version: Option<u8>,
    header: Option<H>,
    attrs: Option<GenlBuffer<T, Buffer>>,
}

impl<C, T, H> Default for GenlmsghdrBuilder<C, T, H> {
    ghost is_default = { λ b.
        b ≡ record { cmd = None; version = None; header = None; attrs = None } };

    fn default() -> Self {
        GenlmsghdrBuilder {
            cmd: None,
            version: None,
            header: None,
            attrs: None,
        }
    }
}

impl<C: Cmd, T: NlAttrType, H: Drop> GenlmsghdrBuilder<C, T, H> {
    /// What the message asks of the family, or reports from it.
    pub fn cmd(mut self, value: C) -> Self
        ensures { result ≡ record self { cmd = Some value } }
    {
        self.cmd = Some(value);
        self
    }

    /// The version of the family's messages.
    pub fn version(mut self, value: u8) -> Self
        ensures { result ≡ record self { version = Some value } }
    {
        self.version = Some(value);
        self
    }

    /// The family's own header. `build` needs none.
    pub fn header(mut self, value: H) -> Self
        ensures { result ≡ record self { header = Some value } }
    {
        self.header = Some(value);
        self
    }

    /// The attributes. None by default.
    pub fn attrs(mut self, value: GenlBuffer<T, Buffer>) -> Self
        ensures { result ≡ record self { attrs = Some value } }
    {
        self.attrs = Some(value);
        self
    }
}

impl<C: Cmd, T: NlAttrType, H: TypeSize> GenlmsghdrBuilder<C, T, H> {
    /// Builds the message, with the family's own header. It takes no memory.
    ///
    /// Refused first if the command, the version or the header is missing, with the name of the first one; then if the
    /// header's size is no multiple of four.
    pub fn build_with_header(
        self,
        alloc: Global,
    ) -> Result<Genlmsghdr<C, T, H>, GenlmsghdrBuilderError>
        ensures built { IfOk result (λ m. genlmsghdr_built H.width self ≡ Ok m) }
        ensures refused { IfErr result (λ e. (e ≡ BuildError.Memory → ⊥)
            × IsWhyNot (genlmsghdr_built H.width self) e) }
    {
        let cmd = self.cmd.ok_or(UninitializedFieldError::new("cmd"))?;
        let version = self.version.ok_or(UninitializedFieldError::new("version"))?;
        let header = self.header.ok_or(UninitializedFieldError::new("header"))?;
        if H::type_size() % 4 != 0 {
            return Err(BuildError::ValidationError("Header size is not a multiple of four"));
        }
        Ok(Genlmsghdr {
            cmd,
            version,
            reserved: 0,
            header,
            attrs: self.attrs.unwrap_or(GenlBuffer::new(alloc)),
        })
    }
}

impl<C: Cmd, T: NlAttrType> GenlmsghdrBuilder<C, T, NoUserHeader> {
    /// Builds the message, without a header of the family's own. It takes no memory.
    ///
    /// Refused if the command or the version is missing; the error names the first one.
    pub fn build(self, alloc: Global) -> Result<Genlmsghdr<C, T>, GenlmsghdrBuilderError>
        ensures built { IfOk result (λ m. genlmsghdr_plain (record {}) self ≡ Ok m) }
        ensures refused { IfErr result (λ e. (e ≡ BuildError.Memory → ⊥)
            × IsWhyNot (genlmsghdr_plain (record {}) self) e) }
    {
        Ok(Genlmsghdr {
            cmd: self.cmd.ok_or(UninitializedFieldError::new("cmd"))?,
            version: self.version.ok_or(UninitializedFieldError::new("version"))?,
            reserved: 0,
            header: self.header.unwrap_or(NoUserHeader),
            attrs: self.attrs.unwrap_or(GenlBuffer::new(alloc)),
        })
    }
}
