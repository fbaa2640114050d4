//! `neli_show` prints netlink messages for people: types, flags, attributes and values by name.
//! `neli_show --json` prints an object for each message, `neli_show --color` names in colours.
//!
//! Standard input is a recording, a dump as text or raw bytes; the format is detected. docs/SHOW.md shows the output.
//!
//! - [`run`]: the request, the input, and the status of a run. [`request`]: the words of the
//!   command line. [`info`]: what the program says of itself.
//! - [`learn`]: the numbers of generic netlink's families, from a word ([`family`]) and from the
//!   controller's messages.
//! - [`part`]: a part of the input, as it is printed. [`gathered`]: what is printed, written by pieces
//!   of many bytes. [`whole`]: whether all of it is messages.
#![tactic(auto)]

mod family;
mod gathered;
mod info;
mod learn;
mod part;
mod request;
mod run;
mod whole;

use crate::run::run;
use std::env::Env;
use std::io::IsTerminal;
use std::process::ExitCode;
use std::{env, io};

/// The words after the program's name.
fn arguments<R: Env + AllocGlobal>(rt: &R) -> io::Result<Vec<String>> {
    let words: Vec<String> = env::args(rt)?.skip(1).collect(rt.alloc())?;
    Ok(words)
}

fn main(rt: HostRuntime) -> ExitCode {
    let words = arguments(&rt);
    let alloc = rt.alloc();
    let terminal = rt.stdout().is_terminal();
    let status = run(
        alloc,
        terminal,
        &words,
        &mut rt.stdin(),
        &mut rt.stdout(),
        &mut rt.stderr(),
    );
    ExitCode::from(status.code())
}
