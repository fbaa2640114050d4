//! A body with a builder: a probe of a port.

ghost use Rattle.std.specs.Prelude.{◌≡◌, ◌+◌, Some, None, Ok, IfOk, IfErr, OnOk, OnErr, length, take};
ghost use Rattle.neli.specs.wire.Writing.{RefusesWrite, append_wire};
ghost use Rattle.neli.specs.attr.Builders.{IsWhyNot};
ghost use Rattle.example_body.specs.Probe.{probe_wire, built_probe};
ghost use Rattle.example_body.specs.laws.Probe.{probe_wire-length, probe_wire-no_memory};

use neli::err::{BuildError, SerError, UninitializedFieldError};
use neli::implementing::undo_on_refusal;
use neli::{Header, Size, ToBytes};

/// The size of a probe's header, in bytes.
const HEADER_SIZE: usize = 4;

/// The default number of hops that a probe may take.
pub const DEFAULT_HOPS: u8 = 64;

/// A probe: a header of four bytes and a payload.
///
/// ```text
///  0       1       2               4
///  +-------+-------+---------------+---- - - -+
///  | hops  | kind  | port          | payload  |
///  +-------+-------+---------------+---- - - -+
/// ```
#[derive(Debug, Drop)]
pub struct Probe<P> {
    hops: u8,
    kind: u8,
    port: u16,
    payload: P,
}

impl<P> Probe<P> {
    /// The number of hops that it may take.
    pub fn hops(&self) -> &u8
        ensures { result.now ≡ self.now.hops }
    {
        &self.hops
    }

    /// What the probe asks the port.
    pub fn kind(&self) -> &u8
        ensures { result.now ≡ self.now.kind }
    {
        &self.kind
    }

    /// The port.
    pub fn port(&self) -> &u16
        ensures { result.now ≡ self.now.port }
    {
        &self.port
    }

    /// The payload of the probe.
    pub fn payload(&self) -> &P
        ensures { result.now ≡ self.now.payload }
    {
        &self.payload
    }
}

impl<P: Size> Size for Probe<P> {
    ghost use Rattle.neli.specs.wire.laws.Sizes.{unpadded-rounded};

    ghost unpadded_length = { λ p. 4 + P.wire_length p.payload };

    ghost wire_length = { λ p. 4 + P.wire_length p.payload };

    ghost rounded = { unpadded-rounded (λ p. 4 + P.wire_length p.payload) };

    fn unpadded_size(&self) -> usize {
        self.payload.written_size().saturating_add(HEADER_SIZE)
    }

    fn written_size(&self) -> usize {
        self.unpadded_size()
    }
}

/// Appends the header's fields and the payload. A refusal leaves some of them after what was there.
#[tactic(auto, using(neli::specs::laws::Writing::append_wire_both))]
fn write_fields<P: ToBytes>(probe: &Probe<P>, buffer: &mut Vec<u8>) -> Result<(), SerError>
    ensures appended { OnOk result (append_wire buffer.old.items (probe_wire P.wire probe.now)
        ≡ Ok buffer.new.items) }
    ensures refused { IfErr result (RefusesWrite (probe_wire P.wire probe.now)) }
    ensures front { OnErr result (take (length buffer.old.items) buffer.new.items
        ≡ buffer.old.items) }
{
    probe.hops.to_bytes(buffer)?;
    probe.kind.to_bytes(buffer)?;
    probe.port.to_bytes(buffer)?;
    probe.payload.to_bytes(buffer)
}

impl<P: ToBytes> ToBytes for Probe<P> {
    ghost use Rattle.neli.specs.wire.laws.Sizes.{unpadded-zeros};

    ghost wire = { probe_wire P.wire };

    ghost length_is = { probe_wire-length P.wire P.Size.wire_length P.length_is };

    ghost zeros_after = { λ p bytes e. unpadded-zeros (4 + P.Size.wire_length p.payload) bytes
        (probe_wire-length P.wire P.Size.wire_length P.length_is p bytes e) };

    ghost no_memory = { probe_wire-no_memory P.wire P.no_memory };

    fn to_bytes(&self, buffer: &mut Vec<u8>) -> Result<(), SerError> {
        let start = buffer.len();
        let outcome = write_fields(self, buffer);
        undo_on_refusal(buffer, start, outcome)
    }
}

impl<P> Header for Probe<P> {
    ghost header = { 4 };

    fn header_size() -> usize {
        HEADER_SIZE
    }
}

/// Why no probe was built. The number is this builder's own: one from 128 on.
pub type ProbeBuilderError = BuildError<128>;

/// A builder of probes. Kind, port and payload are required; hops default to [`DEFAULT_HOPS`].
#[derive(Debug, Drop)]
pub struct ProbeBuilder<P> {
    hops: Option<u8>,
    kind: Option<u8>,
    port: Option<u16>,
    payload: Option<P>,
}

impl<P> Default for ProbeBuilder<P> {
    ghost is_default = { λ b.
        b ≡ record { hops = None; kind = None; port = None; payload = None } };

    fn default() -> Self {
        ProbeBuilder {
            hops: None,
            kind: None,
            port: None,
            payload: None,
        }
    }
}

impl<P: Drop> ProbeBuilder<P> {
    /// The number of hops that it may take.
    pub fn hops(mut self, value: u8) -> Self
        ensures { result ≡ record self { hops = Some value } }
    {
        self.hops = Some(value);
        self
    }

    /// What the probe asks the port.
    pub fn kind(mut self, value: u8) -> Self
        ensures { result ≡ record self { kind = Some value } }
    {
        self.kind = Some(value);
        self
    }

    /// The port.
    pub fn port(mut self, value: u16) -> Self
        ensures { result ≡ record self { port = Some value } }
    {
        self.port = Some(value);
        self
    }

    /// The payload of the probe.
    pub fn payload(mut self, value: P) -> Self
        ensures { result ≡ record self { payload = Some value } }
    {
        self.payload = Some(value);
        self
    }

    /// Builds the probe. It takes no memory.
    ///
    /// Refused if the kind, the port or the payload is missing; the refusal names the first of them.
    pub fn build(self) -> Result<Probe<P>, ProbeBuilderError>
        ensures built { IfOk result (λ p. built_probe self ≡ Ok p) }
        ensures refused { IfErr result (IsWhyNot (built_probe self)) }
        ensures no_memory { IfErr result (λ e. e ≡ BuildError.Memory → ⊥) }
    {
        let kind = self.kind.ok_or(UninitializedFieldError::new("kind"))?;
        let port = self.port.ok_or(UninitializedFieldError::new("port"))?;
        let payload = self.payload.ok_or(UninitializedFieldError::new("payload"))?;
        Ok(Probe {
            hops: self.hops.unwrap_or(DEFAULT_HOPS),
            kind,
            port,
            payload,
        })
    }
}
