//! Internet addresses of the standard library: their octets, the highest first (`struct in_addr`, `struct in6_addr`).

ghost use Rattle.std.specs.Prelude.{◌≡◌, ℕ, List, Ok, length};
ghost use Rattle.std.specs.Net.Addr.{ipv4_octets, ipv6_octets, ipv6_segments, segments_of};
ghost use Rattle.neli_wire.specs.Reading.{value_at};
ghost use Rattle.neli_wire.specs.laws.Reading.{value_at-local, value_at-no_memory};
ghost use Rattle.neli_wire.specs.laws.Sizes.{unpadded-rounded, unpadded-zeros};
ghost use Rattle.neli_wire.specs.laws.Writing.{own-length, written-no_memory};

use crate::{Cursor, DeError, FromBytes, SerError, Size, ToBytes};
use std::alloc::Global;
use std::net::{Ipv4Addr, Ipv6Addr};

impl Size for Ipv4Addr {
    ghost unpadded_length = { λ a. length (ipv4_octets a) };

    ghost wire_length = { λ a. length (ipv4_octets a) };

    ghost rounded = { unpadded-rounded (λ a. length (ipv4_octets a)) };

    fn unpadded_size(&self) -> usize {
        self.octets().len()
    }

    fn written_size(&self) -> usize {
        self.octets().len()
    }
}

impl ToBytes for Ipv4Addr {
    ghost wire = { λ a. Ok (ipv4_octets a) };

    ghost length_is = { λ a bytes e. own-length (ipv4_octets a) bytes e };

    ghost zeros_after = { λ a bytes e. unpadded-zeros (length (ipv4_octets a)) bytes
        (own-length (ipv4_octets a) bytes e) };

    ghost no_memory = { λ a. written-no_memory (ipv4_octets a) };

    fn to_bytes(&self, buffer: &mut Vec<u8>) -> Result<(), SerError> {
        buffer.extend_from_slice(&self.octets())?;
        Ok(())
    }
}

impl FromBytes for Ipv4Addr {
    ghost Value = { List ℕ };

    ghost view = { ipv4_octets };

    ghost read = { value_at 4 (λ octets. octets) };

    ghost takes_memory = { λ _. ⊥ };

    ghost local = { value_at-local 4 (λ octets. octets) };

    ghost no_memory = { value_at-no_memory 4 (λ octets. octets) };

    fn from_bytes(_alloc: Global, cursor: &mut Cursor<'_>) -> Result<Ipv4Addr, DeError> {
        let bytes = cursor.bytes(4)?;
        let mut octets = [0; 4];
        octets.copy_from_slice(bytes);
        Ok(Ipv4Addr::from_octets(octets))
    }
}

impl Size for Ipv6Addr {
    ghost unpadded_length = { λ a. length (ipv6_octets a) };

    ghost wire_length = { λ a. length (ipv6_octets a) };

    ghost rounded = { unpadded-rounded (λ a. length (ipv6_octets a)) };

    fn unpadded_size(&self) -> usize {
        self.octets().len()
    }

    fn written_size(&self) -> usize {
        self.octets().len()
    }
}

impl ToBytes for Ipv6Addr {
    ghost wire = { λ a. Ok (ipv6_octets a) };

    ghost length_is = { λ a bytes e. own-length (ipv6_octets a) bytes e };

    ghost zeros_after = { λ a bytes e. unpadded-zeros (length (ipv6_octets a)) bytes
        (own-length (ipv6_octets a) bytes e) };

    ghost no_memory = { λ a. written-no_memory (ipv6_octets a) };

    fn to_bytes(&self, buffer: &mut Vec<u8>) -> Result<(), SerError> {
        buffer.extend_from_slice(&self.octets())?;
        Ok(())
    }
}

impl FromBytes for Ipv6Addr {
    ghost Value = { List ℕ };

    ghost view = { ipv6_segments };

    ghost read = { value_at 16 segments_of };

    ghost takes_memory = { λ _. ⊥ };

    ghost local = { value_at-local 16 segments_of };

    ghost no_memory = { value_at-no_memory 16 segments_of };

    fn from_bytes(_alloc: Global, cursor: &mut Cursor<'_>) -> Result<Ipv6Addr, DeError> {
        let bytes = cursor.bytes(16)?;
        let mut octets = [0; 16];
        octets.copy_from_slice(bytes);
        Ok(Ipv6Addr::from_octets(octets))
    }
}
