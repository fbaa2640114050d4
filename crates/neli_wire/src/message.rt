//! Messages: texts that say what is wrong.

ghost use Rattle.std.specs.Prelude.{◌≡◌, ◌<◌, IfOk, IfSome, OnErr, Some, length};
ghost use Rattle.neli_wire.specs.Messages.{uninitialized};

use crate::NoMemory;
use std::alloc::Global;
use std::error::Error;
use std::fmt;
use std::marker::Model;

/// How a message keeps its text.
#[derive(Debug, Drop)]
enum Text {
    /// A text that stands in the program.
    Fixed(&'static str),
    /// A text made at run time.
    Owned(String),
    /// The text that names a missing field.
    Uninitialized(&'static str),
}

/// A message, which is its text.
#[derive(Debug, Drop)]
pub struct MsgError {
    text: Text,
}

impl Model for MsgError {
    ghost use Rattle.std.specs.Prelude.{ℕ, List};
    ghost use Rattle.std.specs.Coded.{coded_list, coded_ℕ};

    ghost Value = { List ℕ };

    ghost coded = { coded_list coded_ℕ };

    ghost use Rattle.neli_wire.specs.Messages.{text_of};

    ghost view = { λ m. text_of m.text };
}

impl MsgError {
    /// The message that prints what `message` prints, where its type states that.
    ///
    /// Refused only if memory runs out.
    pub fn new<D: fmt::Display + Drop>(alloc: Global, message: D) -> Result<MsgError, NoMemory>
        ensures { IfOk result (λ m. IfSome (D.output message) (λ text. m ≡ text)) }
    {
        Ok(MsgError {
            text: Text::Owned(message.to_string(alloc)?),
        })
    }

    /// The message with a fixed text. It takes no memory.
    pub fn from_static(text: &'static str) -> MsgError
        ensures { result ≡ text.now }
    {
        MsgError {
            text: Text::Fixed(text),
        }
    }

    /// A message with the same text.
    ///
    /// Refused only if memory runs out, and never where the text is empty.
    pub fn try_clone(&self) -> Result<MsgError, NoMemory>
        ensures value { IfOk result (λ m. m ≡ self.now) }
        ensures memory { OnErr result (0 < length self.now) }
    {
        let text = match &self.text {
            Text::Fixed(text) => Text::Fixed(*text),
            Text::Owned(text) if text.is_empty() => Text::Fixed(""),
            Text::Owned(text) => Text::Owned(text.clone()?),
            Text::Uninitialized(name) => Text::Uninitialized(*name),
        };
        Ok(MsgError { text })
    }
}

impl fmt::Display for MsgError {
    ghost output = { λ m. Some m };

    fn fmt<W: fmt::Write>(&self, f: &mut fmt::Formatter<W>) -> fmt::Result {
        match &self.text {
            Text::Fixed(text) => write!(f, "{text}"),
            Text::Owned(text) => write!(f, "{text}"),
            Text::Uninitialized(name) => write!(f, "`{name}` must be initialized"),
        }
    }
}

impl Error for MsgError {}

/// A builder's missing field.
#[derive(Clone, Copy, Debug)]
pub struct UninitializedFieldError {
    field_name: &'static str,
}

impl UninitializedFieldError {
    ghost use Rattle.neli_wire.specs.Messages.{name_of};

    /// The field with this name is missing.
    pub fn new(field_name: &'static str) -> UninitializedFieldError
        ensures { name_of result ≡ field_name.now }
    {
        UninitializedFieldError { field_name }
    }

    /// The name of the missing field.
    pub fn field_name(&self) -> &'static str
        ensures { result.now ≡ name_of self.now }
    {
        self.field_name
    }
}

impl fmt::Display for UninitializedFieldError {
    ghost use Rattle.std.specs.Prelude.{Some};
    ghost use Rattle.neli_wire.specs.Messages.{name_of, uninitialized};

    ghost output = { λ e. Some (uninitialized (name_of e)) };

    fn fmt<W: fmt::Write>(&self, f: &mut fmt::Formatter<W>) -> fmt::Result {
        let name = self.field_name;
        write!(f, "`{name}` must be initialized")
    }
}

impl Error for UninitializedFieldError {}

impl From<UninitializedFieldError> for MsgError {
    ghost use Rattle.std.specs.Prelude.{◌≡◌};
    ghost use Rattle.neli_wire.specs.Messages.{name_of, uninitialized};

    ghost from_gives = { λ e m. m ≡ uninitialized (name_of e) };

    /// The error's text. It takes no memory.
    fn from(error: UninitializedFieldError) -> MsgError {
        MsgError {
            text: Text::Uninitialized(error.field_name),
        }
    }
}
