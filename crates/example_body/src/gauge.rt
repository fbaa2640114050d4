//! Fields of fixed size, and then attributes: a gauge.

ghost use Rattle.std.specs.Prelude.{◌≡◌};
ghost use Rattle.example_body.specs.Gauge.{IsPlainGauge, gauge_bytes, gauge_header};
ghost use Rattle.example_body.specs.laws.Gauge.{gauge-reads_back, gauge-width, gauge-writes_back};

use neli::implementing::bodies::numbers::{u16_in, u32_in};
use neli::implementing::bodies::{FixedHeader, HeaderBytes};
use neli::rtnl::{Body, Fields};

/// The fields of a gauge before its attributes.
#[derive(Clone, Copy, Debug, PartialEq, Eq)]
pub struct GaugeHeader {
    /// The number of the gauge.
    pub number: u32,
    /// What it measures.
    pub unit: u16,
    /// By how much a level is divided.
    pub scale: u16,
}

/// A gauge: its fields, 8 bytes, and attributes, whose types are numbers.
///
/// ```text
///  0               4       6       8
///  +---------------+-------+-------+---- - - -+
///  | number        | unit  | scale | rtattrs  |
///  +---------------+-------+-------+---- - - -+
/// ```
pub type Gauge = Body<GaugeHeader, u16>;

impl FixedHeader for GaugeHeader {
    ghost width = { 8 };

    ghost bytes_of = { gauge_bytes };

    ghost header_of = { gauge_header };

    ghost IsPlain = { IsPlainGauge };

    ghost width_is = { gauge-width };

    ghost reads_back = { gauge-reads_back };

    ghost writes_back = { gauge-writes_back };

    fn size() -> usize {
        8
    }

    fn spell(&self) -> HeaderBytes {
        HeaderBytes::new()
            .u32(self.number)
            .u16(self.unit)
            .u16(self.scale)
    }

    fn from_spelling(bytes: &[u8]) -> GaugeHeader {
        GaugeHeader {
            number: u32_in(bytes, 0),
            unit: u16_in(bytes, 4),
            scale: u16_in(bytes, 6),
        }
    }
}

impl Fields for GaugeHeader {
    fn name() -> &'static str {
        "Gauge"
    }
}
