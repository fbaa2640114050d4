//! How a request is answered, as C has it: a number of `enum neli_answering`.

ghost use Rattle.std.specs.Prelude.{◌≡◌};
ghost use Rattle.neli_c_parts.specs.Expecting.{answering_number, answering_of_number};

use neli_answers::Answering;

/// By a dump.
pub const DUMP: u32 = 0;
/// By messages, if any, and then the acknowledgement.
pub const ACKNOWLEDGEMENT: u32 = 1;
/// By one message, or by several up to the end of a dump.
pub const REPLY: u32 = 2;
/// By nothing that ends it.
pub const SILENCE: u32 = 3;

/// The number of this way to answer, from which it is found again.
pub fn number_of(answering: Answering) -> u32
    ensures number { result ≡ answering_number answering }
    ensures back { answering_of_number result ≡ answering }
{
    match answering {
        Answering::Dump => DUMP,
        Answering::Acknowledgement => ACKNOWLEDGEMENT,
        Answering::Reply => REPLY,
        Answering::Silence => SILENCE,
    }
}

/// The way to answer that has this number; one that none has is taken for that of an acknowledgement.
pub fn of_number(number: u32) -> Answering
    ensures { result ≡ answering_of_number number }
{
    match number {
        DUMP => Answering::Dump,
        REPLY => Answering::Reply,
        SILENCE => Answering::Silence,
        _ => Answering::Acknowledgement,
    }
}
