//! The items of a handle.

ghost use Rattle.std.specs.Prelude.{◌≡◌, ◌≢◌, Err, IfErr, IfOk, IsSome, None, OnErr, OnOk, Some, is_some};
ghost use Rattle.std.specs.Result.{result_ok};
ghost use Rattle.neli_wire.specs.declared.errors.DeError.TheVariants.{Memory as no_memory};
ghost use Rattle.neli_resolvers.specs.Items.{IsCopyOfError, first_error};

use neli_consts::{CtrlAttr, CtrlCmd, GenlId};
use neli_genl::Genlmsghdr;
use neli_reader::{Nlmsghdr, RouterError};
use neli_wire::{DeError, NoMemory};
use std::alloc::Global;

/// A message of the controller.
pub(crate) type CtrlMessage = Nlmsghdr<GenlId, Genlmsghdr<CtrlCmd, CtrlAttr>>;

/// The error in place of a message of the controller.
pub type CtrlError = RouterError<GenlId, Genlmsghdr<CtrlCmd, CtrlAttr>>;

/// An item of a handle of the controller's messages.
pub type CtrlItem = Result<Nlmsghdr<GenlId, Genlmsghdr<CtrlCmd, CtrlAttr>>, CtrlError>;

/// The first error among items that have one.
fn first_error(items: Vec<CtrlItem>) -> CtrlError
    requires { IsSome (first_error items.items) }
    ensures { first_error items.items ≡ Some result }
{
    for item in items {
        if let Err(error) = item {
            return error;
        }
    }
    unreachable!()
}

/// Whether an item is an error.
fn has_error(items: &[CtrlItem]) -> bool
    ensures { result ≡ is_some (first_error items.now) }
{
    for item in items {
        if item.is_err() {
            return true;
        }
    }
    false
}

/// Returns the items if all of them are messages, or else the first error. It takes no memory.
pub(crate) fn without_errors(items: Vec<CtrlItem>) -> Result<Vec<CtrlItem>, CtrlError>
    ensures value { IfOk result (λ kept. kept.items ≡ items.items) }
    ensures whole { OnOk result (first_error items.items ≡ None) }
    ensures refused { IfErr result (λ e. first_error items.items ≡ Some e) }
{
    if has_error(&items) {
        Err(first_error(items))
    } else {
        Ok(items)
    }
}

/// Refused with a copy of the first error among the items, or if copying it runs out of memory.
pub(crate) fn refuse_errors(items: &[CtrlItem]) -> Result<(), CtrlError>
    ensures whole { OnOk result (first_error items.now ≡ None) }
    ensures refused { IfErr result (IsCopyOfError items.now) }
{
    for item in items {
        if let Err(error) = item {
            return Err(error.try_clone()?);
        }
    }
    Ok(())
}

/// The value, or `None` if it cannot be read. Running out of memory stays a refusal.
pub(crate) fn readable<V: Drop>(outcome: Result<V, DeError>) -> Result<Option<V>, NoMemory>
    ensures value { IfOk result (λ v. v ≡ result_ok outcome) }
    ensures enough { OnOk result (outcome ≢ Err no_memory) }
    ensures memory { OnErr result (outcome ≡ Err no_memory) }
{
    match outcome {
        Ok(value) => Ok(Some(value)),
        Err(DeError::Memory) => Err(NoMemory),
        Err(_) => Ok(None),
    }
}
