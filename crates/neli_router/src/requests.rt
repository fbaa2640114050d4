//! Requests to the controller of generic netlink, which knows the number of each family.

ghost use Rattle.std.specs.Prelude.{false, ◌≡◌, ◌≤◌, Some, Ok, IfOk, IfErr, OnErr, is_some, length};
ghost use Rattle.neli_router.specs.Requests.{Asks, AsksNothing, FamilyTakesMemory, families_request, families_sent};
ghost use Rattle.neli_router.specs.Requests.{family_request, family_sent, getfamily, name_attribute, sent_to_controller};
ghost use Rattle.neli_router.specs.Same.{SameButRequest};
ghost use Rattle.neli_router.specs.Sends.{RefusesSend};
ghost use Rattle.neli_router.specs.Verdicts.{heard_of};

use crate::{Deliveries, NlRouter, NlRouterReceiverHandle};
use neli_attr::{AttrType, Buffer, BuildError, GenlBuffer, Nlattr, NlattrBuilder};
use neli_consts::{CtrlAttr, CtrlCmd, GenlId, NlmF};
use neli_genl::{Genlmsghdr, GenlmsghdrBuilder};
use neli_reader::{NlPayload, RouterError};
use neli_wire::implementing::length_refusal;
use neli_wire::{MsgError, NoMemory};
use std::alloc::Global;

/// The maximum length of a name in bytes: with a zero byte and the attribute's header they are 65535.
const MAX_NAME_LENGTH: usize = 65530;

/// The bodies of requests to the controller, and of its answers.
type Ctrl = Genlmsghdr<CtrlCmd, CtrlAttr>;

impl<D: Deliveries> NlRouter<D> {
    /// Returns a request to the controller of generic netlink for the family with this name, as bytes to send, and the
    /// handle for its answer: `Getfamily` of version 2 with the name, of type `GenlId::Ctrl` and with the flags REQUEST
    /// and ACK. `neli_resolvers` finds the family's number among the handle's items.
    ///
    /// Refused, in this order, as `SeqInUse` if the number belongs to a handle that is not closed; as `Msg` if the name
    /// has more than 65530 bytes, so that the attribute's length exceeds 16 bits; else only if memory runs out. A
    /// refusal leaves the router unchanged, and the number is not used up.
    pub fn request_genl_family(
        &mut self,
        alloc: Global,
        name: &str,
    ) -> Result<
        (
            Vec<u8>,
            NlRouterReceiverHandle<GenlId, Genlmsghdr<CtrlCmd, CtrlAttr>>,
        ),
        RouterError<GenlId, Genlmsghdr<CtrlCmd, CtrlAttr>>,
    >
        ensures same { SameButRequest D.port_of self.old self.new }
        ensures bytes { IfOk result (λ r. family_sent
            (D.port_of self.old.deliveries) self.old.next_seq
            (is_some (D.pending self.old.deliveries (Some self.old.next_seq))) name.now
            ≡ Ok r.0.items) }
        // The same bytes, as `send` states them for a body.
        ensures sent { IfOk result (λ r. sent_to_controller
            (D.port_of self.old.deliveries) self.old.next_seq
            (is_some (D.pending self.old.deliveries (Some self.old.next_seq)))
            NlmF.ACK (family_request name.now) ≡ Ok r.0.items) }
        ensures refused { IfErr result (RefusesSend (family_sent
            (D.port_of self.old.deliveries) self.old.next_seq
            (is_some (D.pending self.old.deliveries (Some self.old.next_seq))) name.now)
            (FamilyTakesMemory
            (is_some (D.pending self.old.deliveries (Some self.old.next_seq))) name.now)) }
        ensures asked { IfOk result (λ r. Asks NlmF.ACK r.1 self.old.next_seq self.new.next_seq
            (D.pending self.old.deliveries) (D.pending self.new.deliveries)
            (heard_of self.old.heard) (heard_of self.new.heard)) }
        ensures unchanged { OnErr result (AsksNothing self.old.next_seq self.new.next_seq
            (D.pending self.old.deliveries) (D.pending self.new.deliveries)
            (heard_of self.old.heard) (heard_of self.new.heard)) }
    {
        let number = self.next_seq;
        if self.deliveries.is_open(Some(number)) {
            return Err(RouterError::SeqInUse(number));
        }
        if MAX_NAME_LENGTH < name.len() {
            return Err(RouterError::Msg(MsgError::from_static(length_refusal())));
        }
        let body = family_request(alloc, name)?;
        self.send(alloc, GenlId::Ctrl, NlmF::ACK, NlPayload::Payload(body))
    }

    /// Returns a request to the controller of generic netlink for all families, as bytes to send, and the handle for
    /// its answer: `Getfamily` of version 2 without attributes, of type `GenlId::Ctrl` and with the flags REQUEST and
    /// DUMP.
    ///
    /// Refused as `SeqInUse` if the number belongs to a handle that is not closed; else only if memory runs out. A
    /// refusal leaves the router unchanged, and the number is not used up.
    pub fn request_families(
        &mut self,
        alloc: Global,
    ) -> Result<
        (
            Vec<u8>,
            NlRouterReceiverHandle<GenlId, Genlmsghdr<CtrlCmd, CtrlAttr>>,
        ),
        RouterError<GenlId, Genlmsghdr<CtrlCmd, CtrlAttr>>,
    >
        ensures same { SameButRequest D.port_of self.old self.new }
        ensures bytes { IfOk result (λ r. families_sent
            (D.port_of self.old.deliveries) self.old.next_seq
            (is_some (D.pending self.old.deliveries (Some self.old.next_seq))) ≡ Ok r.0.items) }
        // The same bytes, as `send` states them for a body.
        ensures sent { IfOk result (λ r. sent_to_controller
            (D.port_of self.old.deliveries) self.old.next_seq
            (is_some (D.pending self.old.deliveries (Some self.old.next_seq)))
            NlmF.DUMP families_request ≡ Ok r.0.items) }
        ensures refused { IfErr result (RefusesSend (families_sent
            (D.port_of self.old.deliveries) self.old.next_seq
            (is_some (D.pending self.old.deliveries (Some self.old.next_seq))))
            (is_some (D.pending self.old.deliveries (Some self.old.next_seq)) ≡ false)) }
        ensures asked { IfOk result (λ r. Asks NlmF.DUMP r.1 self.old.next_seq self.new.next_seq
            (D.pending self.old.deliveries) (D.pending self.new.deliveries)
            (heard_of self.old.heard) (heard_of self.new.heard)) }
        ensures unchanged { OnErr result (AsksNothing self.old.next_seq self.new.next_seq
            (D.pending self.old.deliveries) (D.pending self.new.deliveries)
            (heard_of self.old.heard) (heard_of self.new.heard)) }
    {
        let body = getfamily(alloc, GenlBuffer::new(alloc));
        self.send(alloc, GenlId::Ctrl, NlmF::DUMP, NlPayload::Payload(body))
    }
}

/// The body of the request for the family with this name.
///
/// Refused only if memory runs out.
fn family_request(alloc: Global, name: &str) -> Result<Ctrl, NoMemory>
    requires { length name.now ≤ 65530 }
    ensures { IfOk result (λ body. body ≡ family_request name.now) }
{
    let mut attrs = GenlBuffer::new(alloc);
    attrs.push(name_attribute(alloc, name)?)?;
    Ok(getfamily(alloc, attrs))
}

/// The attribute that names a family.
///
/// Refused only if memory runs out.
fn name_attribute(alloc: Global, name: &str) -> Result<Nlattr<CtrlAttr, Buffer>, NoMemory>
    requires { length name.now ≤ 65530 }
    ensures { IfOk result (λ attr. attr ≡ name_attribute name.now) }
{
    let built = NlattrBuilder::default()
        .nla_type(AttrType::from(u16::from(CtrlAttr::FamilyName)))
        .nla_payload(name)
        .build(alloc);
    match built {
        Ok(attr) => Ok(attr),
        Err(BuildError::Memory) => Err(NoMemory),
        Err(_) => unreachable!(),
    }
}

/// The command `Getfamily` of version 2 with these attributes. It takes no memory.
fn getfamily(alloc: Global, attrs: GenlBuffer<CtrlAttr, Buffer>) -> Ctrl
    ensures { result ≡ getfamily attrs }
{
    let built = GenlmsghdrBuilder::default()
        .cmd(CtrlCmd::Getfamily)
        .version(2)
        .attrs(attrs)
        .build(alloc);
    match built {
        Ok(body) => body,
        Err(_) => unreachable!(),
    }
}
