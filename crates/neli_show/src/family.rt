//! A family of generic netlink and its number, in a word of the command line.

ghost use Rattle.std.specs.Prelude.{◌≡◌};
ghost use Rattle.std.specs.Option.{option_map};
ghost use Rattle.neli_show.specs.Families.{around, family_in, halves};
ghost use Rattle.neli_show.specs.Numbers.{number_in};

/// The number in a word, if it has at most 16 bits; a plus may stand before it.
pub fn number_of(word: &str) -> Option<u16>
    ensures { result ≡ number_in word.now }
{
    word.parse::<u16>().ok()
}

/// What stands before the first colon of a word, and what behind it.
fn around_colon(word: &str) -> Option<(&str, &str)>
    ensures { option_map halves result ≡ around 58 word.now }
{
    word.split_once(':')
}

/// What stands before the first equals sign of a word, and what behind it.
fn around_equals(word: &str) -> Option<(&str, &str)>
    ensures { option_map halves result ≡ around 61 word.now }
{
    word.split_once('=')
}

/// The name and the number of a family, in a word as `generic:nl80211=28`.
pub fn family_of(word: &str) -> Option<(&str, u16)>
    ensures { option_map (λ f. (f.0.now, f.1)) result ≡ family_in word.now }
{
    let (protocol, family) = around_colon(word)?;
    if protocol != "generic" {
        return None;
    }
    let (name, id) = around_equals(family)?;
    Some((name, number_of(id)?))
}
