//! The hardware address of a virtual function.

ghost use Rattle.std.specs.Prelude.{◌≡◌, ◌+◌, Ok, length};
ghost use Rattle.neli_wire.specs.Reading.{value_at};
ghost use Rattle.neli_wire.specs.laws.Reading.{value_at-local, value_at-no_memory};
ghost use Rattle.neli_wire.specs.laws.Sizes.{unpadded-rounded, unpadded-zeros};
ghost use Rattle.neli_wire.specs.laws.Writing.{written-length, written-no_memory};
ghost use Rattle.neli_payloads.specs.VfMac.{vf_mac_bytes, vf_mac_header};
ghost use Rattle.neli_payloads.specs.laws.VfMac.{vf_mac-width};

use neli_body::HeaderBytes;
use neli_body::numbers::u32_in;
use neli_wire::{Cursor, DeError, FromBytes, SerError, Size, ToBytes};
use std::alloc::Global;

/// The hardware address of a virtual function: `struct ifla_vf_mac` of `linux/if_link.h`, 36 bytes, the payload of
/// `IflaVf::Mac`.
///
/// The struct does not state the address's length: it is that of the link's own, and zeros follow it. That of an
/// Ethernet link is `HardwareAddress::from_bytes(&mac[..6])`.
#[derive(Clone, Copy, Debug, PartialEq, Eq)]
pub struct VfMac {
    /// The number of the virtual function.
    pub vf: u32,
    /// The address, and zeros.
    pub mac: [u8; 32],
}

impl Size for VfMac {
    ghost unpadded_length = { λ v. 4 + length v.mac };

    ghost wire_length = { λ v. 4 + length v.mac };

    ghost rounded = { unpadded-rounded (λ v. 4 + length v.mac) };

    fn unpadded_size(&self) -> usize {
        4 + self.mac.len()
    }

    fn written_size(&self) -> usize {
        4 + self.mac.len()
    }
}

impl ToBytes for VfMac {
    ghost wire = { λ v. Ok (vf_mac_bytes v) };

    ghost length_is = { λ v bytes e.
        written-length (vf_mac_bytes v) bytes (4 + length v.mac) (vf_mac-width v) e };

    ghost zeros_after = { λ v bytes e. unpadded-zeros (4 + length v.mac) bytes
        (written-length (vf_mac_bytes v) bytes (4 + length v.mac) (vf_mac-width v) e) };

    ghost no_memory = { λ v. written-no_memory (vf_mac_bytes v) };

    fn to_bytes(&self, buffer: &mut Vec<u8>) -> Result<(), SerError> {
        let bytes = HeaderBytes::new().u32(self.vf).bytes(&self.mac);
        buffer.extend_from_slice(bytes.as_slice())?;
        Ok(())
    }
}

impl FromBytes for VfMac {
    ghost use Rattle.neli_payloads.specs.declared.vf_mac.VfMac.{VfMac as Fields};

    ghost Value = { Fields };

    ghost view = { λ v. v };

    ghost read = { value_at 36 vf_mac_header };

    ghost takes_memory = { λ _. ⊥ };

    ghost local = { value_at-local 36 vf_mac_header };

    ghost no_memory = { value_at-no_memory 36 vf_mac_header };

    fn from_bytes(_alloc: Global, cursor: &mut Cursor<'_>) -> Result<VfMac, DeError> {
        let bytes = cursor.bytes(36)?;
        let mut mac = [0; 32];
        mac.copy_from_slice(&bytes[4..]);
        Ok(VfMac {
            vf: u32_in(bytes, 0),
            mac,
        })
    }
}
