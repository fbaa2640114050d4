//! Walks that store several messages or attributes in one call. They take no memory.

ghost use Rattle.std.specs.Prelude.{◌≡◌, ◌≢◌, ◌≤◌, ◌⊎◌, ◌<◌, ℕ, ℤ, List, drop, length, take};
ghost use Rattle.neli_c_parts.specs.Codes.{item};
ghost use Rattle.neli_c_parts.specs.Several.{AttributeStep, GivesEach, MessageStep, StepOf, attribute_code};
ghost use Rattle.neli_c_parts.specs.Several.{message_code};
ghost use Rattle.neli_c_parts.specs.Several.{several_code};
ghost use Rattle.neli_c_parts.specs.Walks.{GivesAttribute, GivesMessage, attribute_layout, bytes_left};
ghost use Rattle.neli_c_parts.specs.Walks.{message_layout};
ghost use Rattle.neli_c_parts.specs.Walks.{walk_code};

use crate::lent::{neli_c_next_attribute, neli_c_next_message};
use neli_c_parts::code::{ITEM, ROOM};
use neli_c_parts::message::{NeliAttribute, NeliMessage, NeliWalk};

/// The results of a walk, one after the other.
trait Walked: Sized {
    ghost use Rattle.neli_c_parts.specs.declared.message.NeliWalk.{NeliWalk};

    // The code of a single call at a walk over these bytes.
    ghost code_at: { List ℕ → NeliWalk → ℤ };

    // The result of a single call there, and the walk that it leaves.
    ghost Gives: { List ℕ → NeliWalk → NeliWalk → Self → Type 0 };

    /// The next one of a walk.
    fn next(bytes: &[u8], walk: &mut NeliWalk, place: &mut Self) -> i32
        ensures code { result ≡ code_at bytes.now walk.old }
        ensures given { result ≡ item → Gives bytes.now walk.old walk.new place.new }
        ensures unchanged { result ≢ item → (walk.new ≡ walk.old) × (place.new ≡ place.old) };
}

impl Walked for NeliMessage {
    ghost code_at = { message_code };

    ghost Gives = { GivesMessage };

    fn next(bytes: &[u8], walk: &mut NeliWalk, place: &mut NeliMessage) -> i32 {
        neli_c_next_message(bytes, walk, place)
    }
}

impl Walked for NeliAttribute {
    ghost code_at = { attribute_code };

    ghost Gives = { GivesAttribute };

    fn next(bytes: &[u8], walk: &mut NeliWalk, place: &mut NeliAttribute) -> i32 {
        neli_c_next_attribute(bytes, walk, place)
    }
}

/// Stores items until the room is full or a step has none: returns their number, and the code of that step, or `ITEM`.
fn fill<T: Walked>(bytes: &[u8], walk: &mut NeliWalk, items: &mut [T]) -> (usize, i32)
    ensures given { GivesEach (StepOf (T.code_at bytes.now) (T.Gives bytes.now)) walk.old walk.new
        (take result.0 items.new) }
    ensures rest { drop result.0 items.new ≡ drop result.0 items.old }
    ensures within { result.0 ≤ length items.old }
    ensures full { result.1 ≡ item → result.0 ≡ length items.old }
    ensures stopped { result.1 ≢ item → (result.0 < length items.old)
        × (result.1 ≡ T.code_at bytes.now walk.new) }
{
    let mut given = 0;
    while given < items.len() {
        let code = T::next(bytes, walk, &mut items[given]);
        if code != ITEM {
            return (given, code);
        }
        given += 1;
    }
    (given, ITEM)
}

/// Stores the next items of a walk, and in `count` their number.
fn several<T: Walked>(bytes: &[u8], walk: &mut NeliWalk, items: &mut [T], count: &mut usize) -> i32
    ensures code { result ≡ several_code (length items.old) (T.code_at bytes.now walk.old) }
    ensures items { result ≡ item
        → GivesEach (StepOf (T.code_at bytes.now) (T.Gives bytes.now)) walk.old walk.new
        (take count.new items.new) }
    ensures count { result ≡ item → (1 ≤ count.new) × (count.new ≤ length items.old) }
    ensures all { result ≡ item
        → (count.new ≡ length items.old) ⊎ (T.code_at bytes.now walk.new ≢ item) }
    ensures rest { drop count.new items.new ≡ drop count.new items.old }
    ensures unchanged { result ≢ item
        → (walk.new ≡ walk.old) × (items.new ≡ items.old) × (count.new ≡ 0) }
{
    let (given, code) = fill(bytes, walk, items);
    *count = given;
    if given > 0 {
        ITEM
    } else if items.is_empty() {
        ROOM
    } else {
        code
    }
}

/// Stores the next messages of a walk, as many as there is room for or as come before its end or a fault; the walk
/// moves past them, and `count` is their number.
///
/// Returns `ITEM` if a message is stored; `ROOM` if there is room for none; else the code of `neli_c_next_message`,
/// with `count` 0. Then the walk and `messages` are unchanged. The room after the stored ones is unchanged.
#[unsafe(no_mangle)]
pub extern "C" fn neli_c_next_messages(
    bytes: &[u8],
    walk: &mut NeliWalk,
    messages: &mut [NeliMessage],
    count: &mut usize,
) -> i32
    ensures code { result ≡ several_code (length messages.old)
        (walk_code message_layout (bytes_left bytes.now walk.old)) }
    ensures messages { result ≡ item
        → GivesEach (MessageStep bytes.now) walk.old walk.new (take count.new messages.new) }
    ensures count { result ≡ item → (1 ≤ count.new) × (count.new ≤ length messages.old) }
    // Fewer than there is room for are stored only if the next step has none.
    ensures all { result ≡ item → (count.new ≡ length messages.old)
        ⊎ (walk_code message_layout (bytes_left bytes.now walk.new) ≢ item) }
    ensures rest { drop count.new messages.new ≡ drop count.new messages.old }
    ensures unchanged { result ≢ item
        → (walk.new ≡ walk.old) × (messages.new ≡ messages.old) × (count.new ≡ 0) }
{
    several(bytes, walk, messages, count)
}

/// Stores the next attributes of a walk, as many as there is room for or as come before its end or a fault; the walk
/// moves past them, and `count` is their number.
///
/// Returns `ITEM` if an attribute is stored; `ROOM` if there is room for none; else the code of
/// `neli_c_next_attribute`, with `count` 0. Then the walk and `attributes` are unchanged. The room after the stored
/// ones is unchanged.
#[unsafe(no_mangle)]
pub extern "C" fn neli_c_next_attributes(
    bytes: &[u8],
    walk: &mut NeliWalk,
    attributes: &mut [NeliAttribute],
    count: &mut usize,
) -> i32
    ensures code { result ≡ several_code (length attributes.old)
        (walk_code attribute_layout (bytes_left bytes.now walk.old)) }
    ensures attributes { result ≡ item
        → GivesEach (AttributeStep bytes.now) walk.old walk.new (take count.new attributes.new) }
    ensures count { result ≡ item → (1 ≤ count.new) × (count.new ≤ length attributes.old) }
    // Fewer than there is room for are stored only if the next step has none.
    ensures all { result ≡ item → (count.new ≡ length attributes.old)
        ⊎ (walk_code attribute_layout (bytes_left bytes.now walk.new) ≢ item) }
    ensures rest { drop count.new attributes.new ≡ drop count.new attributes.old }
    ensures unchanged { result ≢ item
        → (walk.new ≡ walk.old) × (attributes.new ≡ attributes.old) × (count.new ≡ 0) }
{
    several(bytes, walk, attributes, count)
}
