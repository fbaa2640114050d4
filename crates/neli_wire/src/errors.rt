//! Why a value is not written or read.
//!
//! A refused write returns a [`SerError`], a refused read a [`DeError`]. Both can hold an implementation's own message,
//! a [`MsgError`]. Each has a variant `Memory` for running out of memory; calls that can fail in no other way return
//! [`NoMemory`].

ghost use Rattle.std.specs.Prelude.{◌≡◌, ◌++◌, IfOk, IfSome, OnErr, Some, None, codes, string_bytes};
ghost use Rattle.std.specs.Fmt.{decimal};
ghost use Rattle.neli_wire.specs.declared.errors.SerError.TheVariants as ser;
ghost use Rattle.neli_wire.specs.declared.errors.DeError.TheVariants as de;
ghost use Rattle.neli_wire.specs.declared.errors.Utf8.TheVariants as utf8;
ghost use Rattle.neli_wire.specs.ErrorTexts.{ser_text, de_text};
ghost use Rattle.neli_wire.specs.Refusals.{de_copy_takes_memory, ser_copy_takes_memory};
ghost use Rattle.std.specs.IoError.{error_kind};
ghost use Rattle.std.specs.String.{from_utf8_error_cause};

use crate::MsgError;
use std::alloc::{AllocError, AllocFailed, Global};
use std::error::Error;
use std::io::ErrorKind;
use std::str::Utf8Error;
use std::string::FromUtf8Error;
use std::{fmt, io};

/// Bytes that are not UTF-8, where a borrowed or an owned text was read.
#[derive(Clone, Copy, Debug)]
pub enum Utf8 {
    /// A borrowed text, `&str`.
    Str(Utf8Error),
    /// An owned text, `String`.
    String(Utf8Error),
}

impl fmt::Display for Utf8 {
    fn fmt<W: fmt::Write>(&self, f: &mut fmt::Formatter<W>) -> fmt::Result {
        match self {
            Utf8::Str(error) => write!(f, "{error}"),
            Utf8::String(error) => write!(f, "{error}"),
        }
    }
}

/// Out of memory.
#[derive(Clone, Copy, Debug, PartialEq, Eq)]
pub struct NoMemory;

impl fmt::Display for NoMemory {
    ghost output = { λ _. Some (codes "Out of memory") };

    fn fmt<W: fmt::Write>(&self, f: &mut fmt::Formatter<W>) -> fmt::Result {
        write!(f, "Out of memory")
    }
}

impl Error for NoMemory {}

/// Why a value was not written.
#[derive(Debug, Drop)]
pub enum SerError {
    /// The value cannot be written; the message says why.
    Msg(MsgError),
    /// The destination of the bytes failed.
    Io(ErrorKind),
    /// A text is not UTF-8.
    Utf8(Utf8),
    /// Memory ran out.
    Memory,
}

/// Why a value was not read.
#[derive(Debug, Drop)]
pub enum DeError {
    /// The bytes cannot be read; the message says why.
    Msg(MsgError),
    /// The source of the bytes failed; `UnexpectedEof` where they end too early.
    Io(ErrorKind),
    /// A text is not UTF-8.
    Utf8(Utf8),
    /// The number of bytes does not fit the value; it is the one that the read names.
    InvalidInput(usize),
    /// Memory ran out.
    Memory,
}

impl SerError {
    /// The refusal with the text that `message` prints, where its type states that text.
    ///
    /// Refused only if memory runs out.
    pub fn new<D: fmt::Display + Drop>(alloc: Global, message: D) -> Result<SerError, NoMemory>
        ensures { IfOk result (λ e. IfSome (D.output message) (λ text. e ≡ ser.Msg text)) }
    {
        Ok(SerError::Msg(MsgError::new(alloc, message)?))
    }

    /// An equal error.
    ///
    /// Refused only if memory runs out, and only where the error has a text.
    pub fn try_clone(&self) -> Result<SerError, NoMemory>
        ensures value { IfOk result (λ e. e ≡ self.now) }
        ensures memory { OnErr result (ser_copy_takes_memory self.now) }
    {
        Ok(match self {
            SerError::Msg(message) => SerError::Msg(message.try_clone()?),
            SerError::Io(kind) => SerError::Io(*kind),
            SerError::Utf8(text) => SerError::Utf8(*text),
            SerError::Memory => SerError::Memory,
        })
    }
}

impl fmt::Display for SerError {
    ghost output = { ser_text };

    fn fmt<W: fmt::Write>(&self, f: &mut fmt::Formatter<W>) -> fmt::Result {
        match self {
            SerError::Msg(message) => write!(f, "{message}"),
            SerError::Io(kind) => write!(f, "IO error: {kind}"),
            SerError::Utf8(text) => write!(f, "UTF error: {text}"),
            SerError::Memory => write!(f, "Out of memory"),
        }
    }
}

impl Error for SerError {}

impl From<MsgError> for SerError {
    ghost from_gives = { λ m e. e ≡ ser.Msg m };

    fn from(message: MsgError) -> SerError {
        SerError::Msg(message)
    }
}

impl From<io::Error> for SerError {
    ghost from_gives = { λ error e. e ≡ ser.Io (error_kind error) };

    fn from(error: io::Error) -> SerError {
        SerError::Io(error.kind())
    }
}

impl From<Utf8Error> for SerError {
    ghost from_gives = { λ error e. e ≡ ser.Utf8 (utf8.Str error) };

    fn from(error: Utf8Error) -> SerError {
        SerError::Utf8(Utf8::Str(error))
    }
}

impl From<FromUtf8Error> for SerError {
    ghost from_gives = { λ error e. e ≡ ser.Utf8 (utf8.String (from_utf8_error_cause error)) };

    fn from(error: FromUtf8Error) -> SerError {
        SerError::Utf8(Utf8::String(error.utf8_error()))
    }
}

impl From<NoMemory> for SerError {
    ghost from_gives = { λ _ e. e ≡ ser.Memory };

    fn from(_error: NoMemory) -> SerError {
        SerError::Memory
    }
}

impl From<AllocError> for SerError {
    ghost from_gives = { λ _ e. e ≡ ser.Memory };

    fn from(_error: AllocError) -> SerError {
        SerError::Memory
    }
}

impl<T: Drop> From<AllocFailed<T>> for SerError {
    ghost from_gives = { λ _ e. e ≡ ser.Memory };

    fn from(_error: AllocFailed<T>) -> SerError {
        SerError::Memory
    }
}

impl DeError {
    /// The refusal with the text that `message` prints, where its type states that text.
    ///
    /// Refused only if memory runs out.
    pub fn new<D: fmt::Display + Drop>(alloc: Global, message: D) -> Result<DeError, NoMemory>
        ensures { IfOk result (λ e. IfSome (D.output message) (λ text. e ≡ de.Msg text)) }
    {
        Ok(DeError::Msg(MsgError::new(alloc, message)?))
    }

    /// An equal error.
    ///
    /// Refused only if memory runs out, and only where the error has a text.
    pub fn try_clone(&self) -> Result<DeError, NoMemory>
        ensures value { IfOk result (λ e. e ≡ self.now) }
        ensures memory { OnErr result (de_copy_takes_memory self.now) }
    {
        Ok(match self {
            DeError::Msg(message) => DeError::Msg(message.try_clone()?),
            DeError::Io(kind) => DeError::Io(*kind),
            DeError::Utf8(text) => DeError::Utf8(*text),
            DeError::InvalidInput(n) => DeError::InvalidInput(*n),
            DeError::Memory => DeError::Memory,
        })
    }
}

impl fmt::Display for DeError {
    ghost output = { de_text };

    fn fmt<W: fmt::Write>(&self, f: &mut fmt::Formatter<W>) -> fmt::Result {
        match self {
            DeError::Msg(message) => write!(f, "{message}"),
            DeError::Io(kind) => write!(f, "IO error: {kind}"),
            DeError::Utf8(text) => write!(f, "UTF8 error: {text}"),
            DeError::InvalidInput(n) => write!(f, "Invalid input was provided: {n}"),
            DeError::Memory => write!(f, "Out of memory"),
        }
    }
}

impl Error for DeError {}

impl From<MsgError> for DeError {
    ghost from_gives = { λ m e. e ≡ de.Msg m };

    fn from(message: MsgError) -> DeError {
        DeError::Msg(message)
    }
}

impl From<io::Error> for DeError {
    ghost from_gives = { λ error e. e ≡ de.Io (error_kind error) };

    fn from(error: io::Error) -> DeError {
        DeError::Io(error.kind())
    }
}

impl From<Utf8Error> for DeError {
    ghost from_gives = { λ error e. e ≡ de.Utf8 (utf8.Str error) };

    fn from(error: Utf8Error) -> DeError {
        DeError::Utf8(Utf8::Str(error))
    }
}

impl From<FromUtf8Error> for DeError {
    ghost from_gives = { λ error e. e ≡ de.Utf8 (utf8.String (from_utf8_error_cause error)) };

    fn from(error: FromUtf8Error) -> DeError {
        DeError::Utf8(Utf8::String(error.utf8_error()))
    }
}

impl From<NoMemory> for DeError {
    ghost from_gives = { λ _ e. e ≡ de.Memory };

    fn from(_error: NoMemory) -> DeError {
        DeError::Memory
    }
}

impl From<AllocError> for DeError {
    ghost from_gives = { λ _ e. e ≡ de.Memory };

    fn from(_error: AllocError) -> DeError {
        DeError::Memory
    }
}

impl<T: Drop> From<AllocFailed<T>> for DeError {
    ghost from_gives = { λ _ e. e ≡ de.Memory };

    fn from(_error: AllocFailed<T>) -> DeError {
        DeError::Memory
    }
}

impl From<AllocError> for NoMemory {
    fn from(_error: AllocError) -> NoMemory {
        NoMemory
    }
}

impl<T: Drop> From<AllocFailed<T>> for NoMemory {
    fn from(_error: AllocFailed<T>) -> NoMemory {
        NoMemory
    }
}
