//! The numbers of generic netlink's families, as the controller's messages in an input say.

ghost use Rattle.std.specs.Prelude.{◌≡◌, ℕ, IsErr, IsOk, None, OnOk};
ghost use Rattle.std.specs.Option.{option_map};
ghost use Rattle.neli_show.specs.Learnt.{datagram_learnt, input_learnt, packet_learnt, word_family};
ghost use Rattle.neli_show.specs.Learnt.{word_learnt};
ghost use Rattle.neli_tables.specs.Families.{learnt, tables_in};

use crate::family::family_of;
use crate::part::packet_bytes;
use neli_inputs::{Input, Item};
use neli_lent::LentMessages;
use neli_tables::Tables;
use neli_tables_walk::{Head, learn_from};
use std::alloc::AllocError;

/// Learns the number of a family from a word, if that names one.
pub fn learn_word(tables: &mut Tables<'_>, word: Option<&str>) -> Result<(), AllocError>
    ensures tables { tables_in tables.new ≡ tables_in tables.old }
    ensures ok { OnOk result ((n : ℕ) → learnt tables.new n
        ≡ word_learnt (tables_in tables.old) n (learnt tables.old n)
        (option_map (λ w. w.now) word.entry)) }
    ensures other { word_family (option_map (λ w. w.now) word.entry) ≡ None → IsOk result }
{
    match word {
        Some(word) => match family_of(word) {
            Some((name, id)) => tables.learn(id, name.as_bytes()),
            None => Ok(()),
        },
        None => Ok(()),
    }
}

/// Learns the numbers of families from the messages of a datagram.
fn learn_datagram(tables: &mut Tables<'_>, protocol: u16, bytes: &[u8]) -> Result<(), AllocError>
    ensures tables { tables_in tables.new ≡ tables_in tables.old }
    ensures ok { OnOk result ((n : ℕ) → learnt tables.new n
        ≡ datagram_learnt protocol (tables_in tables.old) n (learnt tables.old n) bytes.now) }
{
    for message in LentMessages::<u16>::new(bytes) {
        if let Ok(message) = message {
            let head = Head {
                protocol,
                message_type: *message.nl_type(),
                flags: *message.nl_flags(),
            };
            learn_from(tables, head, message.nl_payload())?;
        }
    }
    Ok(())
}

/// Learns the numbers of families from a part of an input, if it is a datagram.
fn learn_part(
    tables: &mut Tables<'_>,
    protocol: u16,
    bytes: &[u8],
    part: &Item,
) -> Result<(), AllocError>
    ensures tables { tables_in tables.new ≡ tables_in tables.old }
    ensures ok { OnOk result ((n : ℕ) → learnt tables.new n
        ≡ packet_learnt protocol (tables_in tables.old) bytes.now n (learnt tables.old n)
        part.now.packet) }
    ensures other { IsErr part.now.packet → IsOk result }
{
    match part.packet {
        Ok(packet) => {
            let protocol = packet.family.unwrap_or(protocol);
            learn_datagram(tables, protocol, packet_bytes(bytes, &packet))
        }
        Err(_) => Ok(()),
    }
}

/// Learns the numbers of families from the datagrams of an input, in their order.
pub fn learn_input(tables: &mut Tables<'_>, protocol: u16, input: &Input) -> Result<(), AllocError>
    ensures tables { tables_in tables.new ≡ tables_in tables.old }
    ensures ok { OnOk result ((n : ℕ) → learnt tables.new n
        ≡ input_learnt protocol (tables_in tables.old) input.now.bytes.items n (learnt tables.old n)
        input.now.items.items) }
{
    for part in &input.items {
        learn_part(tables, protocol, &input.bytes, part)?;
    }
    Ok(())
}
