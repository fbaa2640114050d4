//! What buffers, type fields and errors state about themselves, by their values: the errors of builders, and those of
//! writing and reading. The functions do nothing: their contracts are the laws.

ghost use Rattle.std.specs.Prelude.{◌≡◌, ◌<◌, None, Ok, Some, codes, length};
ghost use Rattle.std.specs.IoError.{error_kind};
ghost use Rattle.std.specs.String.{from_utf8_error_cause};
ghost use Rattle.neli_wire.specs.declared.errors.DeError.TheVariants as de;
ghost use Rattle.neli_wire.specs.ErrorTexts.{de_text, ser_text};
ghost use Rattle.neli_wire.specs.Messages.{name_of, uninitialized};
ghost use Rattle.neli_wire.specs.declared.errors.SerError.TheVariants as ser;
ghost use Rattle.neli_wire.specs.declared.errors.Utf8.TheVariants as utf8;
ghost use Rattle.neli_wire.specs.laws.Values.{AreSame, AreWrittenAs, GivesOnly, OnlyWhere};
ghost use Rattle.neli_attr_parts.specs.Builders.{IsMemory, IsMissing, IsRefusedPayload, error_text};
ghost use Rattle.neli_attr_parts.specs.TypeField.{number_of, type_of};

use crate::{AttrType, AttrTypeBuilder, Buffer, BuildError};
use neli_consts::NlAttrType;
use neli_list::TryClone;
use neli_wire::{
    Constant, DeError, FromBytesWithInput, MsgError, NoMemory, SerError, Size, ToBytes,
    UninitializedFieldError,
};
use std::alloc::{AllocError, AllocFailed};
use std::str::Utf8Error;
use std::string::FromUtf8Error;
use std::{fmt, io};

/// A buffer is its bytes in their order: when it is made, turned into them, written and read. A read and a copy take
/// memory only if there is a byte.
pub fn buffer_is_its_bytes()
    ensures made { GivesOnly ⟦<Buffer as From<Vec<u8>>>⟧.from_gives (λ bytes buffer. buffer ≡ bytes.items) }
    ensures given_up { GivesOnly ⟦<Vec<u8> as From<Buffer>>⟧.from_gives (λ buffer bytes. bytes.items ≡ buffer) }
    ensures written { AreWrittenAs ⟦<Buffer as ToBytes>⟧.wire ⟦<Buffer as Size>⟧.unpadded_length (λ bytes. bytes) }
    ensures read { AreSame ⟦<Buffer as FromBytesWithInput>⟧.read (λ bytes. Ok bytes) }
    ensures seen { AreSame ⟦<Buffer as FromBytesWithInput>⟧.view (λ bytes. bytes) }
    ensures memory { OnlyWhere ⟦<Buffer as FromBytesWithInput>⟧.takes_memory (λ bytes. 0 < length bytes) }
    ensures copy { OnlyWhere ⟦<Buffer as TryClone>⟧.copy_takes_memory (λ bytes. 0 < length bytes) }
    ensures shown { AreSame ⟦<Buffer as fmt::Debug>⟧.debug_output (λ bytes. Some (codes "Buffer")) }
{}

/// The type field of a generic attribute is its number of 14 bits with two flags above it, in each of its conversions.
pub fn type_field_is_its_number<T: NlAttrType>()
    ensures made { GivesOnly ⟦<AttrType<T> as From<u16>>⟧.from_gives
        (λ number field. field ≡ type_of T.wire_value number) }
    ensures numbered { GivesOnly ⟦<u16 as From<AttrType<T>>>⟧.from_gives
        (λ field number. number ≡ number_of T.wire_number field) }
    ensures written { AreSame ⟦<AttrType<T> as Constant>⟧.wire_number (number_of T.wire_number) }
    ensures read { AreSame ⟦<AttrType<T> as Constant>⟧.wire_value (type_of T.wire_value) }
    ensures builder { OnlyWhere ⟦<AttrTypeBuilder<T> as Default>⟧.is_default
        (λ b. b ≡ record { nla_nested = None; nla_network_order = None; nla_type = None }) }
{}

/// An error of a builder prints its text, and is made of what it reports: a missing field is named, a payload that is
/// refused has its words, and memory that ran out stays so.
pub fn errors_of_builders_say_why<const OF: u8, V: Drop>()
    ensures printed { AreSame ⟦<BuildError<OF> as fmt::Display>⟧.output (λ e. Some (error_text e)) }
    ensures missing { GivesOnly ⟦<BuildError<OF> as From<UninitializedFieldError>>⟧.from_gives
        (λ error e. IsMissing (name_of error) e) }
    ensures unwritten { GivesOnly ⟦<BuildError<OF> as From<SerError>>⟧.from_gives IsRefusedPayload }
    ensures memory { GivesOnly ⟦<BuildError<OF> as From<NoMemory>>⟧.from_gives (λ _ e. IsMemory e) }
    ensures allocation { GivesOnly ⟦<BuildError<OF> as From<AllocError>>⟧.from_gives
        (λ _ e. IsMemory e) }
    ensures kept_value { GivesOnly ⟦<BuildError<OF> as From<AllocFailed<V>>>⟧.from_gives
        (λ _ e. IsMemory e) }
{}

/// A message prints its text, and that of a missing field names the field. Out of memory prints as that.
pub fn messages_print_their_texts()
    ensures printed { AreSame ⟦<MsgError as fmt::Display>⟧.output (λ text. Some text) }
    ensures missing { GivesOnly ⟦<MsgError as From<UninitializedFieldError>>⟧.from_gives
        (λ error text. text ≡ uninitialized (name_of error)) }
    ensures field { AreSame ⟦<UninitializedFieldError as fmt::Display>⟧.output
        (λ error. Some (uninitialized (name_of error))) }
    ensures memory { AreSame ⟦<NoMemory as fmt::Display>⟧.output (λ error. Some (codes "Out of memory")) }
{}

/// An error of writing prints its text, and is what it is made of; memory that ran out stays so.
pub fn errors_of_writing_say_why<V: Drop>()
    ensures printed { AreSame ⟦<SerError as fmt::Display>⟧.output ser_text }
    ensures words { GivesOnly ⟦<SerError as From<MsgError>>⟧.from_gives (λ message e. e ≡ ser.Msg message) }
    ensures failed { GivesOnly ⟦<SerError as From<io::Error>>⟧.from_gives
        (λ error e. e ≡ ser.Io (error_kind error)) }
    ensures borrowed_text { GivesOnly ⟦<SerError as From<Utf8Error>>⟧.from_gives
        (λ error e. e ≡ ser.Utf8 (utf8.Str error)) }
    ensures owned_text { GivesOnly ⟦<SerError as From<FromUtf8Error>>⟧.from_gives
        (λ error e. e ≡ ser.Utf8 (utf8.String (from_utf8_error_cause error))) }
    ensures memory { GivesOnly ⟦<SerError as From<NoMemory>>⟧.from_gives (λ _ e. e ≡ ser.Memory) }
    ensures allocation { GivesOnly ⟦<SerError as From<AllocError>>⟧.from_gives (λ _ e. e ≡ ser.Memory) }
    ensures kept_value { GivesOnly ⟦<SerError as From<AllocFailed<V>>>⟧.from_gives
        (λ _ e. e ≡ ser.Memory) }
{}

/// An error of reading prints its text, and is what it is made of; memory that ran out stays so.
pub fn errors_of_reading_say_why<V: Drop>()
    ensures printed { AreSame ⟦<DeError as fmt::Display>⟧.output de_text }
    ensures words { GivesOnly ⟦<DeError as From<MsgError>>⟧.from_gives (λ message e. e ≡ de.Msg message) }
    ensures failed { GivesOnly ⟦<DeError as From<io::Error>>⟧.from_gives
        (λ error e. e ≡ de.Io (error_kind error)) }
    ensures borrowed_text { GivesOnly ⟦<DeError as From<Utf8Error>>⟧.from_gives
        (λ error e. e ≡ de.Utf8 (utf8.Str error)) }
    ensures owned_text { GivesOnly ⟦<DeError as From<FromUtf8Error>>⟧.from_gives
        (λ error e. e ≡ de.Utf8 (utf8.String (from_utf8_error_cause error))) }
    ensures memory { GivesOnly ⟦<DeError as From<NoMemory>>⟧.from_gives (λ _ e. e ≡ de.Memory) }
    ensures allocation { GivesOnly ⟦<DeError as From<AllocError>>⟧.from_gives (λ _ e. e ≡ de.Memory) }
    ensures kept_value { GivesOnly ⟦<DeError as From<AllocFailed<V>>>⟧.from_gives
        (λ _ e. e ≡ de.Memory) }
{}
