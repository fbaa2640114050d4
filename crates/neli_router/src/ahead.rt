//! The items that wait for a handle, lent one after the other; the router stays as it is.

ghost use Rattle.std.specs.Prelude.{◌≡◌};
ghost use Rattle.neli_log.specs.Log.{pending_of};
ghost use Rattle.neli_router.specs.Ahead.{LendsNext, after_next, coming_for};

use crate::lending::{LentError, LentReply, item_of, state_after, step_past};
use crate::{HandleState, NlRouter, NlRouterReceiverHandle};
use neli_log::{Ahead, Log};
use std::marker::Model;

/// A handle's items, lent one after the other.
///
/// Contracts see it as those that it has not lent yet, and what follows them.
#[derive(Drop)]
pub struct ItemsAhead<'r> {
    /// What waits for the handle, if it is open.
    waiting: Option<Ahead<'r>>,
    /// The handle as it is once those that were lent are passed.
    state: HandleState,
}

impl<'r> Model for ItemsAhead<'r> {
    ghost use Rattle.neli_router.specs.Ahead.{Coming, coming_for};

    ghost Value = { Coming };

    ghost view = { λ a. coming_for a.state a.waiting };
}

impl<'r> ItemsAhead<'r> {
    /// The same items a second time.
    pub fn ahead(&self) -> Self
        ensures { result ≡ self.now }
    {
        ItemsAhead {
            waiting: match &self.waiting {
                Some(waiting) => Some(waiting.ahead()),
                None => None,
            },
            state: self.state,
        }
    }

    /// Lends the next item, and goes on to the one after it; or the end, or that it waits. It takes no memory and
    /// copies nothing.
    ///
    /// It is the item that [`lend_next`](NlRouter::lend_next) lends once those before it are
    /// [passed](NlRouter::pass). A handle that is not open gives `ClosedChannel`.
    pub fn lend_next(&mut self) -> LentReply<'r>
        ensures lends { LendsNext self.old result }
        ensures rest { self.new ≡ after_next self.old }
    {
        let state = self.state;
        if state.ended {
            return LentReply::End;
        }
        let Some(waiting) = &mut self.waiting else {
            return LentReply::Item(Err(LentError::ClosedChannel));
        };
        let Some(delivery) = waiting.lend_next() else {
            return LentReply::Waits;
        };
        self.state = state_after(state, step_past(state, delivery));
        LentReply::Item(item_of(state, delivery))
    }
}

impl NlRouter<Log> {
    /// Returns the handle's items, which are lent one after the other until the next call that changes the router; they
    /// stay the next ones until [`pass`](NlRouter::pass). It takes no memory.
    ///
    /// ```
    /// let mut items = router.lend_items(&handle);
    /// while let LentReply::Item(Ok(message)) = items.lend_next() {
    ///     lengths.push(message.nl_payload().len())?;
    /// }
    /// ```
    pub fn lend_items<RT, RP>(&self, handle: &NlRouterReceiverHandle<RT, RP>) -> ItemsAhead<'_>
        ensures coming { result
            ≡ coming_for handle.now (pending_of self.now.deliveries handle.now.number) }
    {
        let state = handle.state();
        ItemsAhead {
            waiting: self.deliveries.ahead(state.number),
            state,
        }
    }
}
