//! What the options of a line say.

ghost use Rattle.std.specs.Prelude.{◌≡◌, map, IfOk};
ghost use Rattle.std.specs.Option.{option_map};
ghost use Rattle.neli_tables.specs.Lines.{line_view};
ghost use Rattle.neli_tables.specs.Settings.{setting_view, value_view};
ghost use Rattle.neli_tables.specs.Options.{key_option, kind_option, line_in, number_in, options_in};
ghost use Rattle.neli_tables.specs.Options.{options_of};
ghost use Rattle.neli_tables.specs.Options.{first_word, prefix_of, span_in, with_setting, word_in};

use crate::{Key, Kind, Line, Said, Setting, Span, Value};
use std::alloc::{AllocError, Global};

/// What the options of a line say. A place is that of a line of the same table, counted from 0. What says how a value is
/// printed stands together, for speed.
#[derive(Clone, Copy, Debug, PartialEq, Eq)]
pub struct Options {
    /// What the payload is; `None` where the line says no kind, as a message without a body.
    pub kind: Option<Kind>,
    /// Whether there are as many values, one after the other, as the payload has room for.
    pub array: bool,
    /// Whether the value is printed as hexadecimal digits.
    pub hex: bool,
    /// The place of the enum that names the value.
    pub values: Option<usize>,
    /// The place of the flag set that names the value's bits.
    pub flags: Option<usize>,
    /// The place of the set, the structure or the choice that the kind means.
    pub of: Option<usize>,
    /// The place of the structure before the attributes.
    pub after: Option<usize>,
    /// The place of the attribute that picks the case.
    pub by: Option<usize>,
    /// Whether the message's family picks the case.
    pub by_family: bool,
    /// Whether the attribute may stand several times.
    pub multi: bool,
    /// The least and the largest length in bytes.
    pub length: Option<Span>,
    /// The least and the largest value.
    pub range: Option<Span>,
    /// The bits that may be set.
    pub mask: Option<u64>,
    /// Whether the message is one to the kernel.
    pub request: bool,
    /// Whether the message is one from the kernel.
    pub reply: bool,
    /// The first byte of the message's body.
    pub family: Option<u64>,
    /// The version of the family of generic netlink.
    pub version: Option<u64>,
    /// The number of the family of generic netlink, where it is fixed.
    pub id: Option<u64>,
    /// The bytes of the body in which the message's number stands: from the first on, and before the last.
    pub at: Option<Span>,
    /// Whether the kernel reads the message by its strict parser.
    pub strict: bool,
    /// The number from which on attributes of the set are read so, whatever the message.
    pub strict_from: Option<u64>,
}

/// No options.
const NONE: Options = Options {
    kind: None,
    of: None,
    after: None,
    by: None,
    by_family: false,
    values: None,
    flags: None,
    array: false,
    multi: false,
    length: None,
    range: None,
    mask: None,
    hex: false,
    request: false,
    reply: false,
    family: None,
    version: None,
    id: None,
    at: None,
    strict: false,
    strict_from: None,
};

/// The line that a value means.
fn line_in(value: &Value<&[u8]>) -> Option<usize>
    ensures { result ≡ line_in (value_view value.now) }
{
    match value {
        Value::Line(place) => Some(*place),
        _ => None,
    }
}

/// The numbers that a value is.
fn span_in(value: &Value<&[u8]>) -> Option<Span>
    ensures { result ≡ span_in (value_view value.now) }
{
    match value {
        Value::Span(span) => Some(*span),
        _ => None,
    }
}

/// The number that a value is.
fn number_in(value: &Value<&[u8]>) -> Option<u64>
    ensures { result ≡ number_in (value_view value.now) }
{
    match value {
        Value::Span(span) => Some(span.first),
        _ => None,
    }
}

impl Options {
    /// Notes a kind.
    fn note_kind(&mut self, kind: Kind, value: &Value<&[u8]>)
        ensures { self.new ≡ kind_option self.old kind (value_view value.now) }
    {
        self.kind = Some(kind);
        self.of = line_in(value);
    }

    /// Notes one more that refers to a line, or says whether something holds.
    fn note_key(&mut self, key: Key, value: &Value<&[u8]>)
        ensures { self.new ≡ key_option self.old key (value_view value.now) }
    {
        match key {
            Key::After => self.after = line_in(value),
            Key::By => self.by = line_in(value),
            Key::ByFamily => self.by_family = true,
            Key::Enum => self.values = line_in(value),
            Key::Flags => self.flags = line_in(value),
            Key::Array => self.array = true,
            Key::Multi => self.multi = true,
            Key::Length => self.length = span_in(value),
            Key::Range => self.range = span_in(value),
            Key::Mask => self.mask = number_in(value),
            Key::Hex => self.hex = true,
            Key::Request => self.request = true,
            Key::Reply => self.reply = true,
            Key::Family => self.family = number_in(value),
            Key::Version => self.version = number_in(value),
            Key::Id => self.id = number_in(value),
            Key::At => self.at = span_in(value),
            Key::Strict => self.strict = true,
            Key::StrictFrom => self.strict_from = number_in(value),
            Key::Prefix => {}
        }
    }

    /// Notes one more.
    fn note(&mut self, setting: &Setting<&[u8]>)
        ensures { self.new ≡ with_setting self.old (setting_view setting.now) }
    {
        match setting.said {
            Said::Kind(kind) => self.note_kind(kind, &setting.value),
            Said::Key(key) => self.note_key(key, &setting.value),
        }
    }
}

/// What these options say.
fn options_in(settings: &[Setting<&[u8]>]) -> Options
    ensures { result ≡ options_in (map setting_view settings.now) }
{
    let mut options = NONE;
    for setting in settings {
        options.note(setting);
    }
    options
}

/// What the options of a line say. The one that is a word is [`prefix_of`].
pub fn options_of(line: &Line<'_>) -> Options
    ensures { result ≡ options_of (line_view line.now) }
{
    options_in(&line.settings)
}

/// What the options of these lines say, in order. Refused where memory runs out.
pub fn all_options(alloc: Global, lines: &[Line<'_>]) -> Result<Vec<Options>, AllocError>
    ensures { IfOk result (λ all. all.items ≡ map options_of (map line_view lines.now)) }
{
    let mut all = Vec::with_capacity(alloc, lines.len())?;
    for line in lines {
        all.push(options_of(line))?;
    }
    Ok(all)
}

/// The word that an option has.
fn word_in<'t>(setting: &Setting<&'t [u8]>) -> Option<&'t [u8]>
    ensures { option_map (λ word. word.now) result ≡ word_in (setting_view setting.now) }
{
    match setting.value {
        Value::Word(word) => Some(word),
        _ => None,
    }
}

/// The first word among these options.
fn first_word<'t>(settings: &[Setting<&'t [u8]>]) -> Option<&'t [u8]>
    ensures { option_map (λ word. word.now) result ≡ first_word (map setting_view settings.now) }
{
    for setting in settings {
        if let Some(word) = word_in(setting) {
            return Some(word);
        }
    }
    None
}

/// What the names of an enum or a flag set begin with in the kernel's header, by the option `prefix=`.
pub fn prefix_of<'t>(line: &Line<'t>) -> Option<&'t [u8]>
    ensures { option_map (λ word. word.now) result ≡ prefix_of (line_view line.now) }
{
    first_word(&line.settings)
}
