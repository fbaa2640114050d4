//! The request in the words of the command line.

ghost use Rattle.std.specs.Prelude.{◌≡◌, IfSome, Some, map, string_bytes};
ghost use Rattle.neli_show.specs.Requests.{command_in, command_of, named_option, named_output, named_protocol};
ghost use Rattle.neli_show.specs.Requests.{protocol_in, with_any, with_output, with_word};

use crate::family::{family_of, number_of};
use crate::info::Info;

/// `NETLINK_ROUTE` of `linux/netlink.h`.
const ROUTE: u16 = 0;

/// `NETLINK_CONNECTOR`.
const CONNECTOR: u16 = 11;

/// `NETLINK_GENERIC`.
const GENERIC: u16 = 16;

/// The form of printed messages.
#[derive(Clone, Copy, Debug, PartialEq, Eq)]
pub enum Output {
    /// As lines of text.
    Text,
    /// As text with names in colours.
    Colour,
    /// As lines of JSON.
    Json,
}

/// A request of the command line.
#[derive(Clone, Copy, Debug, PartialEq, Eq)]
pub struct Request {
    /// The form of printed messages.
    pub output: Output,
    /// The netlink protocol of datagrams for which the input states none.
    pub protocol: u16,
}

/// The output that a word names.
fn output_of(word: &str) -> Option<Output>
    ensures { result ≡ named_output word.now }
{
    match word {
        "json" => Some(Output::Json),
        "color" => Some(Output::Colour),
        _ => None,
    }
}

/// The protocol that a word names: by its name, by a family of generic netlink, or by its number.
fn protocol_of(word: &str) -> Option<u16>
    ensures named { IfSome (named_protocol word.now) (λ protocol. result ≡ Some protocol) }
    ensures any { result ≡ protocol_in word.now }
{
    match word {
        "route" => Some(ROUTE),
        "connector" => Some(CONNECTOR),
        "generic" => Some(GENERIC),
        _ if family_of(word).is_some() => Some(GENERIC),
        _ => number_of(word),
    }
}

/// The output that an option names; `--color=auto` is in colours if the output is a terminal.
fn option_of(terminal: bool, word: &str) -> Option<Output>
    ensures { result ≡ named_option terminal word.now }
{
    match word {
        "--json" => Some(Output::Json),
        "--color" | "--color=always" => Some(Output::Colour),
        "--color=auto" if terminal => Some(Output::Colour),
        "--color=auto" | "--color=never" => Some(Output::Text),
        _ => None,
    }
}

/// What the words so far ask for.
#[derive(Clone, Copy, Debug, PartialEq, Eq)]
pub(crate) struct Asking {
    /// What they ask about the program.
    pub info: Option<Info>,
    /// The form of printed messages, if they state one.
    pub output: Option<Output>,
    /// The protocol, if they state one.
    pub protocol: Option<u16>,
}

/// The form is stated once.
fn with_output(asking: Asking, output: Output) -> Option<Asking>
    ensures { result ≡ with_output asking output }
{
    if asking.output.is_some() {
        return None;
    }
    Some(Asking {
        output: Some(output),
        ..asking
    })
}

/// What words ask for with one more that is no option: an output, and then a protocol.
fn with_word(asking: Asking, word: &str) -> Option<Asking>
    ensures { result ≡ with_word asking word.now }
{
    if asking.protocol.is_some() {
        return None;
    }
    if let Some(output) = output_of(word) {
        return with_output(asking, output);
    }
    let protocol = protocol_of(word)?;
    Some(Asking {
        protocol: Some(protocol),
        ..asking
    })
}

/// What words ask for with one more.
fn with_any(terminal: bool, asking: Asking, word: &str) -> Option<Asking>
    ensures { result ≡ with_any terminal asking word.now }
{
    if let Some(info) = Info::of(word) {
        return Some(Asking {
            info: Some(info),
            ..asking
        });
    }
    if let Some(output) = option_of(terminal, word) {
        return with_output(asking, output);
    }
    with_word(asking, word)
}

/// What the words of the command line ask for.
#[derive(Clone, Copy, Debug, PartialEq, Eq)]
pub enum Command {
    /// To say this of the program.
    Tell(Info),
    /// To print messages.
    Show(Request),
}

/// The command of all words.
fn command_of(asking: Asking) -> Command
    ensures { result ≡ command_of asking }
{
    match asking.info {
        Some(info) => Command::Tell(info),
        None => Command::Show(Request {
            output: asking.output.unwrap_or(Output::Text),
            protocol: asking.protocol.unwrap_or(ROUTE),
        }),
    }
}

/// Returns the command in these words: options anywhere, and of the others first an output, then a protocol, each of
/// them optional.
pub fn command_in(terminal: bool, words: &[String]) -> Option<Command>
    ensures { result ≡ command_in terminal (map string_bytes words.now) }
{
    let mut asking = Asking {
        info: None,
        output: None,
        protocol: None,
    };
    for word in words {
        asking = with_any(terminal, asking, word.as_str())?;
    }
    Some(command_of(asking))
}
