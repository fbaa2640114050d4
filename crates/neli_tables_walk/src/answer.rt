//! Answers, which all protocols have.

ghost use Rattle.std.specs.Prelude.{◌≡◌};
ghost use Rattle.neli_tables_walk.specs.Bodies.{answer_in, body_view, counts_in_bodies};
ghost use Rattle.neli_tables_walk.specs.Bodies.{is_answer};

use crate::located::{first_table, where_at};
use crate::{Body, Head};
use bitflags::Flags;
use neli_consts::{NlmF, Nlmsg};
use neli_tables::{Tables, Way};

/// Whether the messages of a protocol state their numbers in their bodies.
fn counts_in_bodies(tables: &Tables<'_>, protocol: u16) -> bool
    ensures { result ≡ counts_in_bodies tables.now protocol }
{
    match first_table(tables, protocol) {
        Some(table) => where_at(table).is_some(),
        None => false,
    }
}

/// Whether a message is an answer: an error or an acknowledgement (`NLMSG_ERROR`), or the end of a
/// dump (`NLMSG_DONE` with `NLM_F_MULTI`; `nfnetlink_log` ends its datagrams by one without it, and
/// without a code). A protocol whose messages state their numbers in their bodies, as the connector,
/// has none.
pub fn is_answer(tables: &Tables<'_>, head: Head) -> bool
    ensures { result ≡ is_answer tables.now head }
{
    let is_end = head.message_type == u16::from(Nlmsg::Done) && head.flags.contains(NlmF::MULTI);
    let is_one = head.message_type == u16::from(Nlmsg::Error) || is_end;
    is_one && !counts_in_bodies(tables, head.protocol)
}

/// The attributes of an answer, as a body of the first table that is of every protocol and has its message.
pub fn answer_of<'b, 'w, 't>(
    tables: &'w Tables<'t>,
    head: Head,
    attributes: &'b [u8],
) -> Body<'b, 'w, 't>
    ensures { body_view result ≡ answer_in tables.now head attributes.now }
{
    let place = tables.common_message(Way::Reply, None, head.message_type as u64);
    Body::placed(tables, place, attributes)
}
