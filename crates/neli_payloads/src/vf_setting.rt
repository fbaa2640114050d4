//! One setting of a virtual function.

ghost use Rattle.std.specs.Prelude.{◌≡◌, Ok};
ghost use Rattle.neli_wire.specs.Reading.{value_at};
ghost use Rattle.neli_wire.specs.laws.Reading.{value_at-local, value_at-no_memory};
ghost use Rattle.neli_wire.specs.laws.Sizes.{unpadded-rounded, unpadded-zeros};
ghost use Rattle.neli_wire.specs.laws.Writing.{written-length, written-no_memory};
ghost use Rattle.neli_payloads.specs.VfSetting.{IsPlainVfSetting, vf_setting_bytes, vf_setting_header};
ghost use Rattle.neli_payloads.specs.laws.VfSetting.{vf_setting-reads_back, vf_setting-width, vf_setting-writes_back};

use neli_body::numbers::u32_in;
use neli_body::{FixedHeader, HeaderBytes, read_fixed, write_fixed};
use neli_wire::{Cursor, DeError, FromBytes, SerError, Size, ToBytes};
use std::alloc::Global;

/// One setting of a virtual function, 8 bytes: the payload of five attributes of `IflaVf`, each by a struct of
/// `linux/if_link.h` of its own.
///
/// | Attribute | Struct | Meaning of `setting` |
/// |---|---|---|
/// | `TxRate` | `ifla_vf_tx_rate` | the greatest rate that it may send at, in Mbit/s; 0 is no limit |
/// | `Spoofchk` | `ifla_vf_spoofchk` | whether the source addresses of its frames are checked: 0 or 1 |
/// | `LinkState` | `ifla_vf_link_state` | its link: 0 is as the port's, 1 always up, 2 always down |
/// | `RssQueryEn` | `ifla_vf_rss_query_en` | whether it may ask how receive queues are chosen: 0 or 1 |
/// | `Trust` | `ifla_vf_trust` | whether it is trusted: 0 or 1 |
///
/// A kernel writes `u32::MAX` for a setting of 0 or 1 that the driver does not report.
#[derive(Clone, Copy, Debug, PartialEq, Eq)]
pub struct VfSetting {
    /// The number of the virtual function.
    pub vf: u32,
    /// The setting, in the unit of its attribute.
    pub setting: u32,
}

impl FixedHeader for VfSetting {
    ghost width = { 8 };

    ghost bytes_of = { vf_setting_bytes };

    ghost header_of = { vf_setting_header };

    ghost IsPlain = { IsPlainVfSetting };

    ghost width_is = { vf_setting-width };

    ghost reads_back = { vf_setting-reads_back };

    ghost writes_back = { vf_setting-writes_back };

    fn size() -> usize {
        8
    }

    fn spell(&self) -> HeaderBytes {
        HeaderBytes::new().u32(self.vf).u32(self.setting)
    }

    fn from_spelling(bytes: &[u8]) -> VfSetting {
        VfSetting {
            vf: u32_in(bytes, 0),
            setting: u32_in(bytes, 4),
        }
    }
}

impl Size for VfSetting {
    ghost unpadded_length = { λ _. 8 };

    ghost wire_length = { λ _. 8 };

    ghost rounded = { unpadded-rounded (λ _. 8) };

    fn unpadded_size(&self) -> usize {
        <VfSetting as FixedHeader>::size()
    }

    fn written_size(&self) -> usize {
        <VfSetting as FixedHeader>::size()
    }
}

impl ToBytes for VfSetting {
    ghost wire = { λ v. Ok (vf_setting_bytes v) };

    ghost length_is = { λ v bytes e.
        written-length (vf_setting_bytes v) bytes 8 (vf_setting-width v) e };

    ghost zeros_after = { λ v bytes e. unpadded-zeros 8 bytes
        (written-length (vf_setting_bytes v) bytes 8 (vf_setting-width v) e) };

    ghost no_memory = { λ v. written-no_memory (vf_setting_bytes v) };

    fn to_bytes(&self, buffer: &mut Vec<u8>) -> Result<(), SerError> {
        write_fixed(self, buffer)
    }
}

impl FromBytes for VfSetting {
    ghost use Rattle.neli_payloads.specs.declared.vf_setting.VfSetting.{VfSetting as Fields};

    ghost Value = { Fields };

    ghost view = { λ v. v };

    ghost read = { value_at 8 vf_setting_header };

    ghost takes_memory = { λ _. ⊥ };

    ghost local = { value_at-local 8 vf_setting_header };

    ghost no_memory = { value_at-no_memory 8 vf_setting_header };

    fn from_bytes(_alloc: Global, cursor: &mut Cursor<'_>) -> Result<VfSetting, DeError> {
        read_fixed(cursor)
    }
}
