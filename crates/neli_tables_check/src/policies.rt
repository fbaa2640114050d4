//! The policies of a family of generic netlink, as the running kernel states them, and requests against them.

ghost use Rattle.std.specs.Prelude.{◌≡◌, ◌≤◌, ◌-◌, ◌++◌, [], ◌∷◌, IfErr, IfOk, IfSome, IsNone, None, OnErr, OnOk, Some, drop, find, length, map};
ghost use Rattle.std.specs.Option.{option_copied, option_map};
ghost use Rattle.neli_tables_check.specs.Parsers.{nest_wrong};
ghost use Rattle.neli_tables_check.specs.Policies.{at, attributes_unmet, deeper_at, entry_judged, entry_unmet};
ghost use Rattle.neli_tables_check.specs.Policies.{inside, list_unmet, policy_of, reply_view, rest_unmet, row_judged};
ghost use Rattle.neli_tables_check.specs.Policies.{row_of, stated, stated_in, states, unless_unmet, unmet_view};
ghost use Rattle.neli_tables_check.specs.declared.policies.Ruled.TheVariants.{Attributes};

use crate::Wrong;
use crate::cut::{behind, entry_number, entry_size, payload_in};
use crate::refusal::offset_in;
use crate::row::{attribute_unmet, ruled_in};
use crate::values::nest_wrong;
use neli_consts::ATTRIBUTE_HEADER_SIZE;
use neli_tables_walk::{GENERIC_HEADER_SIZE, MAX_DEPTH, first_payload};
use std::alloc::{AllocError, Global};

/// What a reply to `CTRL_CMD_GETPOLICY` has (`linux/genetlink.h`): rows of policies, or policies of commands.
const POLICY: u16 = 8;

const OP_POLICY: u16 = 9;

/// The policies of a command's requests, and of those that begin a dump.
const DO: u16 = 1;

const DUMP: u16 = 2;

/// A reply: its attributes.
#[derive(Drop)]
pub struct Reply {
    pub attributes: Vec<u8>,
}

/// What stands in a list: attributes of a policy, or elements, each with such attributes.
#[derive(Clone, Copy)]
pub enum Ruled {
    Attributes(usize),
    Elements(usize),
}

/// The first attribute that a policy does not allow.
#[derive(Clone, Copy, Debug, PartialEq, Eq)]
pub struct Unmet {
    /// Where it begins, counted from the first of the attributes' bytes.
    pub offset: usize,
    /// What is wrong with it.
    pub wrong: Wrong,
}

/// The policies of a family of generic netlink, by the replies to `CTRL_CMD_GETPOLICY`.
#[derive(Drop)]
pub struct Policies {
    replies: Vec<Reply>,
}

/// The payload of the first attribute with this number in that of another.
fn inside(bytes: Option<&[u8]>, number: u16) -> Option<&[u8]>
    ensures { option_map (λ bytes. bytes.now) result
        ≡ inside number (option_map (λ bytes. bytes.now) bytes.entry) }
{
    first_payload(bytes?, number)
}

/// What a reply states under three numbers, from the outside in.
fn stated_in(reply: &Reply, which: u16, outer: u16, inner: u16) -> Option<&[u8]>
    ensures { option_map (λ bytes. bytes.now) result ≡ stated_in which outer inner reply.now }
{
    inside(
        inside(first_payload(&reply.attributes, which), outer),
        inner,
    )
}

fn states(reply: &Reply, which: u16, outer: u16, inner: u16) -> bool
    ensures { result ≡ states which outer inner reply.now }
{
    stated_in(reply, which, outer, inner).is_some()
}

/// The first reply that states something under these numbers.
fn first_stating(replies: &[Reply], which: u16, outer: u16, inner: u16) -> Option<&Reply>
    ensures { option_copied result ≡ find (states which outer inner) replies.now }
{
    replies
        .iter()
        .find(|reply| states(reply, which, outer, inner))
}

/// What the first reply states under these numbers that does.
fn stated(replies: &[Reply], which: u16, outer: u16, inner: u16) -> Option<&[u8]>
    ensures { option_map (λ bytes. bytes.now) result ≡ stated which outer inner replies.now }
{
    stated_in(
        first_stating(replies, which, outer, inner)?,
        which,
        outer,
        inner,
    )
}

/// What is wrong, at an offset.
fn unmet_at(offset: usize, wrong: Wrong) -> Option<Unmet>
    ensures { result ≡ at offset wrong }
{
    Some(Unmet { offset, wrong })
}

/// What bytes behind the entries of a list are that ends at this offset.
fn rest_unmet(ruled: Ruled, end: usize, bytes: &[u8]) -> Option<Unmet>
    ensures { result ≡ rest_unmet ruled end bytes.now }
{
    match ruled {
        Ruled::Attributes(_) if !bytes.is_empty() => {
            unmet_at(end.saturating_sub(bytes.len()), Wrong::Rest(bytes.len()))
        }
        _ => None,
    }
}

/// What an element of an array of nests is.
fn element_judged(policy: usize, payload: &[u8]) -> Result<Option<Ruled>, Wrong>
    ensures { result ≡ unless_unmet (nest_wrong 0 payload.now) (Some (Attributes policy)) }
{
    match nest_wrong(0, payload) {
        Some(wrong) => Err(wrong),
        None => Ok(Some(Ruled::Attributes(policy))),
    }
}

/// What an attribute with this row is.
fn row_judged(row: Option<&[u8]>, entry: &[u8]) -> Result<Option<Ruled>, Wrong>
    requires { 4 ≤ length entry.now }
    ensures { result ≡ row_judged (option_map (λ row. row.now) row.entry) entry.now }
{
    let Some(row) = row else {
        return Err(Wrong::Unknown);
    };
    match attribute_unmet(row, entry) {
        Some(wrong) => Err(wrong),
        None => Ok(ruled_in(row)),
    }
}

/// What an entry of a list is: refused, a list, or neither.
fn entry_judged(replies: &[Reply], ruled: Ruled, entry: &[u8]) -> Result<Option<Ruled>, Wrong>
    requires { 4 ≤ length entry.now }
    ensures { result ≡ entry_judged replies.now ruled entry.now }
{
    match ruled {
        Ruled::Attributes(policy) => row_judged(
            row_of(replies, policy, entry_number(entry)),
            entry,
        ),
        Ruled::Elements(policy) => element_judged(policy, payload_in(entry)),
    }
}

/// The row of an attribute in a policy.
fn row_of(replies: &[Reply], policy: usize, number: u16) -> Option<&[u8]>
    ensures { option_map (λ row. row.now) result ≡ row_of policy number replies.now }
{
    if 0xffff < policy {
        return None;
    }
    stated(replies, POLICY, (policy & 0xffff) as u16, number)
}

/// A list in another: what it has, at which offset its bytes end, and these.
#[derive(Clone, Copy)]
struct Inner<'b> {
    ruled: Ruled,
    end: usize,
    bytes: &'b [u8],
}

/// What the first entry of these bytes is, which has this size: refused, a list, or neither. So many lists may be open
/// beside theirs, which ends at this offset.
#[tactic(auto, using(crate::proofs::ByPolicy::deeper_is, crate::proofs::ByPolicy::no_deeper))]
fn judged<'b>(
    replies: &[Reply],
    depth: usize,
    ruled: Ruled,
    end: usize,
    size: usize,
    bytes: &'b [u8],
) -> Result<Option<Inner<'b>>, Unmet>
    requires least { 4 ≤ size }
    requires within { size ≤ length bytes.now }
    ensures wrong { IfErr result (λ unmet.
        entry_unmet (deeper_at replies.now depth) replies.now ruled end size bytes.now ≡ Some unmet) }
    ensures fine { IfOk result (λ inner. IsNone inner
        → entry_unmet (deeper_at replies.now depth) replies.now ruled end size bytes.now ≡ None) }
    ensures inner { IfOk result (λ inner. IfSome inner (λ it.
        entry_unmet (deeper_at replies.now depth) replies.now ruled end size bytes.now
        ≡ list_unmet replies.now (depth - 1) it.ruled it.end it.bytes.now)) }
    ensures deeper { IfOk result (λ inner. IfSome inner (λ it. 1 ≤ depth)) }
{
    let (entry, offset) = (&bytes[..size], end.saturating_sub(bytes.len()));
    match entry_judged(replies, ruled, entry) {
        Err(wrong) => Err(Unmet { offset, wrong }),
        Ok(None) => Ok(None),
        Ok(Some(inner)) => {
            if depth == 0 {
                let wrong = Wrong::Deep;
                return Err(Unmet { offset, wrong });
            }
            Ok(Some(Inner {
                ruled: inner,
                end: offset + size,
                bytes: payload_in(entry),
            }))
        }
    }
}

/// What a list and those in it do not meet, of which so many may be open beside it. Its bytes end at this offset.
#[tactic(auto, using(crate::proofs::ByPolicy::left_none, crate::proofs::ByPolicy::left_zero, crate::proofs::ByPolicy::left_some, crate::proofs::ByPolicy::left_next, crate::proofs::ByPolicy::list_left))]
fn list_unmet(
    replies: &[Reply],
    depth: usize,
    ruled: Ruled,
    end: usize,
    bytes: &[u8],
) -> Option<Unmet>
    ensures { result ≡ list_unmet replies.now depth ruled end bytes.now }
{
    let (mut left, mut rest) = (bytes.len(), bytes);
    while 0 < left {
        let Some(size) = entry_size(ATTRIBUTE_HEADER_SIZE, rest) else {
            return rest_unmet(ruled, end, rest);
        };
        match judged(replies, depth, ruled, end, size, rest) {
            Err(unmet) => return Some(unmet),
            Ok(None) => {}
            Ok(Some(it)) => match list_unmet(replies, depth - 1, it.ruled, it.end, it.bytes) {
                Some(unmet) => return Some(unmet),
                None => {}
            },
        }
        rest = behind(size, rest);
        left -= 1;
    }
    rest_unmet(ruled, end, rest)
}

impl Policies {
    /// No policies yet: each request is refused.
    pub fn new(alloc: Global) -> Policies
        ensures { result.replies.items ≡ [] }
    {
        Policies {
            replies: Vec::new(alloc),
        }
    }

    /// Takes in the payload of a reply to `CTRL_CMD_GETPOLICY`: the header of generic netlink, and attributes.
    ///
    /// Refused where memory runs out; then nothing is taken in.
    pub fn take_in(&mut self, alloc: Global, payload: &[u8]) -> Result<(), AllocError>
        ensures ok { OnOk result (map reply_view self.new.replies.items
            ≡ map reply_view self.old.replies.items ++ drop 4 payload.now ∷ []) }
        ensures unchanged { OnErr result (map reply_view self.new.replies.items
            ≡ map reply_view self.old.replies.items) }
    {
        let attributes = payload.get(GENERIC_HEADER_SIZE..).unwrap_or(&[]);
        let attributes = Vec::from_slice(alloc, attributes)?;
        self.replies.push(Reply { attributes })?;
        Ok(())
    }

    /// The number of the policy of a command's requests, or of those that begin a dump; `None` where the kernel has
    /// stated none, as of a command that it checks by none.
    pub fn policy_of(&self, command: u8, dumps: bool) -> Option<usize>
        ensures { result ≡ policy_of command dumps self.now.replies.items }
    {
        let which = if dumps { DUMP } else { DO };
        offset_in(stated(&self.replies, OP_POLICY, command as u16, which)?)
    }

    /// Checks attributes by a policy, as the kernel's strict parser does, nests and arrays of nests too. An attribute
    /// without a row is refused as unknown, also where the kernel states none, as of a number in network byte order. What
    /// the kernel checks by a function of its own passes.
    ///
    /// Refused with the first that the policy does not allow, and its offset.
    pub fn check(&self, policy: usize, attributes: &[u8]) -> Result<(), Unmet>
        ensures { unmet_view result ≡ attributes_unmet self.now.replies.items policy attributes.now }
    {
        match list_unmet(
            &self.replies,
            MAX_DEPTH - 1,
            Ruled::Attributes(policy),
            attributes.len(),
            attributes,
        ) {
            Some(unmet) => Err(unmet),
            None => Ok(()),
        }
    }
}
