//! What the program says of itself.

ghost use Rattle.std.specs.Prelude.{◌≡◌};
ghost use Rattle.neli_show.specs.Infos.{info_text, named_info};

/// What a word asks about the program.
#[derive(Clone, Copy, Debug, PartialEq, Eq)]
pub enum Info {
    /// How it is used.
    Help,
    /// Its version.
    Version,
}

impl Info {
    /// What a word asks for.
    pub fn of(word: &str) -> Option<Self>
        ensures { result ≡ named_info word.now }
    {
        match word {
            "-h" | "--help" => Some(Info::Help),
            "--version" => Some(Info::Version),
            _ => None,
        }
    }

    /// What is printed of it.
    pub fn text(self) -> &'static str
        ensures { result.now ≡ info_text self }
    {
        match self {
            Info::Help => {
                "usage: neli_show [OPTIONS] [PROTOCOL] < FILE\n\
                Prints netlink messages with the names of the kernel's headers.\n\
                \n\
                FILE is a recording (pcap, pcapng), a dump as text (xxd, hexdump -C, od -Ax -tx1,\n\
                tcpdump, tshark -x, strace -e read=all -e write=all, plain hexadecimal), or raw bytes.\n\
                PROTOCOL is of an input that states none: route (the default), connector,\n\
                generic, generic:FAMILY=ID, or a number of linux/netlink.h.\n\
                \n\
                --json          a line of JSON for each message; also json\n\
                --color[=WHEN]  names in colours: always (if WHEN is not given), auto, never; also color\n\
                -h, --help      this text\n\
                --version       the version\n\
                \n\
                Ends with 0 if all is messages, 1 if a part is none or the input or the output failed,\n\
                2 if it is not used so, 3 if memory ran out.\n"
            }
            Info::Version => "neli_show 0.1.0\n",
        }
    }
}
