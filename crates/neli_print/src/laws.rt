//! Laws over what is printed. The functions do nothing: their contracts are the laws.

ghost use Rattle.std.specs.Prelude.{ℕ, List, length};
ghost use Rattle.neli_lent.specs.Messages.{messages_in};
ghost use Rattle.neli_lent.specs.Walks.{items_of};
ghost use Rattle.neli_tables.specs.declared.tables.Tables.{Tables as TablesOf};
ghost use Rattle.neli_tables_walk.specs.Json.{AreSoManyLines, IsJson};
ghost use Rattle.neli_print.specs.declared.head.Header.{Header as HeaderOf};
ghost use Rattle.neli_print.specs.Messages.{datagram_json, message_json};

/// A message in JSON is one value (RFC 8259), whatever the tables and the bytes are.
pub fn message_is_one_value()
    ensures { (tables : TablesOf) (header : HeaderOf) (payload : List ℕ)
        → IsJson (message_json tables header payload) }
{}

/// A datagram in JSON is lines of one value each: one for each of its messages, and one for the
/// fault after them.
pub fn datagram_is_lines()
    ensures { (tables : TablesOf) (protocol : ℕ) (bytes : List ℕ)
        → AreSoManyLines (length (items_of (messages_in (λ n. n) bytes)))
        (datagram_json tables protocol bytes) }
{}
