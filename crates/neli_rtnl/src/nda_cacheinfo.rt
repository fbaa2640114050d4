//! When a neighbour was last heard of.

ghost use Rattle.std.specs.Prelude.{◌≡◌, ◌+◌, Some, None, Ok, IfOk, IfErr};
ghost use Rattle.neli_wire.specs.Reading.{value_at};
ghost use Rattle.neli_wire.specs.laws.Reading.{value_at-local, value_at-no_memory};
ghost use Rattle.neli_wire.specs.laws.Sizes.{unpadded-rounded, unpadded-zeros};
ghost use Rattle.neli_wire.specs.laws.Writing.{written-length, written-no_memory};
ghost use Rattle.neli_attr.specs.Builders.{IsWhyNot};
ghost use Rattle.neli_rtnl.specs.NdaCacheinfo.{IsPlainNdaCacheinfo, nda_cacheinfo_built, nda_cacheinfo_bytes, nda_cacheinfo_header};
ghost use Rattle.neli_rtnl.specs.laws.NdaCacheinfo.{nda_cacheinfo-reads_back, nda_cacheinfo-width, nda_cacheinfo-writes_back};

use neli_attr::{BuildError, TryClone, of};
use neli_body::numbers::u32_in;
use neli_body::{FixedHeader, HeaderBytes, read_fixed, write_fixed};
use neli_wire::{
    Cursor, DeError, FromBytes, NoMemory, SerError, Size, ToBytes, UninitializedFieldError,
};
use std::alloc::Global;

/// When a neighbour was last heard of: `struct nda_cacheinfo` of `linux/neighbour.h`, 16 bytes, the payload of
/// `Nda::Cacheinfo`. Times are counted back from now, in hundredths of a second.
#[derive(Debug, Drop, PartialEq, Eq)]
pub struct NdaCacheinfo {
    ndm_confirmed: u32,
    ndm_used: u32,
    ndm_updated: u32,
    ndm_refcnt: u32,
}

impl NdaCacheinfo {
    /// How long ago it was confirmed.
    pub fn ndm_confirmed(&self) -> &u32
        ensures { result.now ≡ self.now.ndm_confirmed }
    {
        &self.ndm_confirmed
    }

    /// How long ago it was used.
    pub fn ndm_used(&self) -> &u32
        ensures { result.now ≡ self.now.ndm_used }
    {
        &self.ndm_used
    }

    /// How long ago it was changed.
    pub fn ndm_updated(&self) -> &u32
        ensures { result.now ≡ self.now.ndm_updated }
    {
        &self.ndm_updated
    }

    /// The number of references to it.
    pub fn ndm_refcnt(&self) -> &u32
        ensures { result.now ≡ self.now.ndm_refcnt }
    {
        &self.ndm_refcnt
    }

    /// An equal cache entry. It takes no memory.
    pub fn try_clone(&self) -> Result<Self, NoMemory>
        ensures { result ≡ Ok self.now }
    {
        Ok(NdaCacheinfo {
            ndm_confirmed: self.ndm_confirmed,
            ndm_used: self.ndm_used,
            ndm_updated: self.ndm_updated,
            ndm_refcnt: self.ndm_refcnt,
        })
    }
}

impl TryClone for NdaCacheinfo {
    ghost copy_takes_memory = { λ _. ⊥ };

    fn try_clone(&self) -> Result<Self, NoMemory> {
        NdaCacheinfo::try_clone(self)
    }
}

impl FixedHeader for NdaCacheinfo {
    ghost width = { 16 };

    ghost bytes_of = { nda_cacheinfo_bytes };

    ghost header_of = { nda_cacheinfo_header };

    ghost IsPlain = { IsPlainNdaCacheinfo };

    ghost width_is = { nda_cacheinfo-width };

    ghost reads_back = { nda_cacheinfo-reads_back };

    ghost writes_back = { nda_cacheinfo-writes_back };

    fn size() -> usize {
        16
    }

    fn spell(&self) -> HeaderBytes {
        HeaderBytes::new()
            .u32(self.ndm_confirmed)
            .u32(self.ndm_used)
            .u32(self.ndm_updated)
            .u32(self.ndm_refcnt)
    }

    fn from_spelling(bytes: &[u8]) -> NdaCacheinfo {
        NdaCacheinfo {
            ndm_confirmed: u32_in(bytes, 0),
            ndm_used: u32_in(bytes, 4),
            ndm_updated: u32_in(bytes, 8),
            ndm_refcnt: u32_in(bytes, 12),
        }
    }
}

impl Size for NdaCacheinfo {
    ghost unpadded_length = { λ _. 16 };

    ghost wire_length = { λ _. 16 };

    ghost rounded = { unpadded-rounded (λ _. 16) };

    fn unpadded_size(&self) -> usize {
        <NdaCacheinfo as FixedHeader>::size()
    }

    fn written_size(&self) -> usize {
        <NdaCacheinfo as FixedHeader>::size()
    }
}

impl ToBytes for NdaCacheinfo {
    ghost wire = { λ v. Ok (nda_cacheinfo_bytes v) };

    ghost length_is = { λ v bytes e.
        written-length (nda_cacheinfo_bytes v) bytes 16 (nda_cacheinfo-width v) e };

    ghost zeros_after = { λ v bytes e. unpadded-zeros 16 bytes
        (written-length (nda_cacheinfo_bytes v) bytes 16 (nda_cacheinfo-width v) e) };

    ghost no_memory = { λ v. written-no_memory (nda_cacheinfo_bytes v) };

    fn to_bytes(&self, buffer: &mut Vec<u8>) -> Result<(), SerError> {
        write_fixed(self, buffer)
    }
}

impl FromBytes for NdaCacheinfo {
    ghost use Rattle.neli_rtnl.specs.declared.nda_cacheinfo.NdaCacheinfo.{NdaCacheinfo as Fields};

    ghost Value = { Fields };

    ghost view = { λ v. v };

    ghost read = { value_at 16 nda_cacheinfo_header };

    ghost takes_memory = { λ _. ⊥ };

    ghost local = { value_at-local 16 nda_cacheinfo_header };

    ghost no_memory = { value_at-no_memory 16 nda_cacheinfo_header };

    fn from_bytes(_alloc: Global, cursor: &mut Cursor<'_>) -> Result<NdaCacheinfo, DeError> {
        read_fixed(cursor)
    }
}

/// Why no neighbour's cache entry was built.
pub type NdaCacheinfoBuilderError = BuildError<{ of::NDA_CACHEINFO }>;

/// A builder of neighbours' cache entries.
#[derive(Debug, Drop)]
pub struct NdaCacheinfoBuilder {
    ndm_confirmed: Option<u32>,
    ndm_used: Option<u32>,
    ndm_updated: Option<u32>,
    ndm_refcnt: Option<u32>,
}

impl Default for NdaCacheinfoBuilder {
    ghost is_default = { λ b.
        b ≡ record {
          ndm_confirmed = None;
          ndm_used = None;
          ndm_updated = None;
          ndm_refcnt = None;
        } };

    fn default() -> Self {
        NdaCacheinfoBuilder {
            ndm_confirmed: None,
            ndm_used: None,
            ndm_updated: None,
            ndm_refcnt: None,
        }
    }
}

impl NdaCacheinfoBuilder {
    /// How long ago it was confirmed.
    pub fn ndm_confirmed(mut self, value: u32) -> Self
        ensures { result ≡ record self { ndm_confirmed = Some value } }
    {
        self.ndm_confirmed = Some(value);
        self
    }

    /// How long ago it was used.
    pub fn ndm_used(mut self, value: u32) -> Self
        ensures { result ≡ record self { ndm_used = Some value } }
    {
        self.ndm_used = Some(value);
        self
    }

    /// How long ago it was changed.
    pub fn ndm_updated(mut self, value: u32) -> Self
        ensures { result ≡ record self { ndm_updated = Some value } }
    {
        self.ndm_updated = Some(value);
        self
    }

    /// The number of references to it.
    pub fn ndm_refcnt(mut self, value: u32) -> Self
        ensures { result ≡ record self { ndm_refcnt = Some value } }
    {
        self.ndm_refcnt = Some(value);
        self
    }

    /// Builds the neighbour's cache entry. It takes no memory.
    ///
    /// Refused if a field is missing; the error names the first such field.
    pub fn build(self) -> Result<NdaCacheinfo, NdaCacheinfoBuilderError>
        ensures built { IfOk result (λ m. nda_cacheinfo_built self ≡ Ok m) }
        ensures refused { IfErr result (λ e. (e ≡ BuildError.Memory → ⊥)
            × IsWhyNot (nda_cacheinfo_built self) e) }
    {
        Ok(NdaCacheinfo {
            ndm_confirmed: self
                .ndm_confirmed
                .ok_or(UninitializedFieldError::new("ndm_confirmed"))?,
            ndm_used: self
                .ndm_used
                .ok_or(UninitializedFieldError::new("ndm_used"))?,
            ndm_updated: self
                .ndm_updated
                .ok_or(UninitializedFieldError::new("ndm_updated"))?,
            ndm_refcnt: self
                .ndm_refcnt
                .ok_or(UninitializedFieldError::new("ndm_refcnt"))?,
        })
    }
}
