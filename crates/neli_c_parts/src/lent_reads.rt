//! Lent reads of a session, and the steps past what was lent. They take no memory.

ghost use Rattle.std.specs.Prelude.{◌≡◌, ℕ, IfSome, IsTrue, List, None, slice_set};
ghost use Rattle.neli_router.specs.declared.handle.HandleState.{HandleState};
ghost use Rattle.neli_c_parts.specs.Ahead.{LendsFirst, LendsItems, PassesTimes, StoresAhead, messages_at};
ghost use Rattle.neli_c_parts.specs.Codes.{no_handle, ok};
ghost use Rattle.neli_c_parts.specs.Lending.{LendsHandle, PassesHandle};
ghost use Rattle.neli_c_parts.specs.Listens.{MissesSame};
ghost use Rattle.neli_c_parts.specs.Sessions.{HasFree};
ghost use Rattle.neli_c_parts.specs.Slots.{handle_at};
ghost use Rattle.neli_c_parts.specs.declared.session.Slot.TheVariants as slot;

use crate::ahead::{fill, is_rest};
use crate::code::{HANDLE, ITEM, OK, ROOM};
use crate::lending::{NeliLent, give};
use crate::session::{Handle, Session, Slot, handle_of, take};

impl Session {
    /// Lends the next item of a handle, which stays the next one.
    pub fn lend<'r>(&'r self, k: usize, lent: &mut NeliLent<'r>) -> i32
        ensures none { handle_at k self.now.handles.items ≡ None
            → (result ≡ no_handle) × (lent.new ≡ lent.old) }
        ensures some { IfSome (handle_at k self.now.handles.items)
            (λ h. LendsHandle result h self.now lent.old lent.new) }
    {
        let Some(reader) = handle_of(&self.handles, k) else {
            return HANDLE;
        };
        give(self.router.lend_next(reader), lent)
    }

    /// Lends the messages that come next for a handle, as many as there is room for: returns their number.
    fn lend_ahead<'r>(&'r self, k: usize, items: &mut [NeliLent<'r>]) -> usize
        ensures { StoresAhead result (messages_at k self.now) items.old items.new }
    {
        match handle_of(&self.handles, k) {
            Some(reader) => fill(&mut self.router.lend_items(reader), items),
            None => 0,
        }
    }

    /// Lends the next item of a handle into the first place.
    fn lend_first<'r>(&'r self, k: usize, items: &mut [NeliLent<'r>]) -> i32
        ensures { LendsFirst result k self.now items.old items.new }
    {
        if items.is_empty() {
            return ROOM;
        }
        self.lend(k, &mut items[0])
    }

    /// Lends the next items of a handle, which stay the next ones.
    pub fn lend_items<'r>(&'r self, k: usize, items: &mut [NeliLent<'r>], count: &mut usize) -> i32
        ensures { LendsItems result k self.now items.old items.new count.new }
    {
        *count = self.lend_ahead(k, items);
        if *count > 0 {
            ITEM
        } else {
            self.lend_first(k, items)
        }
    }

    /// Goes on to a handle's next item.
    pub fn pass(&mut self, k: usize) -> i32
        ensures none { handle_at k self.old.handles.items ≡ None
            → (result ≡ no_handle) × (self.new ≡ self.old) }
        ensures some { IfSome (handle_at k self.old.handles.items) (λ h. (after : HandleState)
            × (result ≡ ok)
            × (self.new.handles.items ≡ slice_set self.old.handles.items k (slot.Open after))
            × (self.new.freed ≡ self.old.freed)
            × ((ks : List ℕ) → HasFree self.old ks → HasFree self.new ks)
            × (self.new.held ≡ self.old.held)
            × PassesHandle h after self.old self.new) }
        ensures missed { MissesSame self.old self.new }
    {
        let Some(mut passed) = take(&mut self.handles, k, 0) else {
            return HANDLE;
        };
        self.go_past(&mut passed);
        self.handles[k] = Slot::Open(passed);
        OK
    }

    /// Goes on past so many items of a handle.
    pub fn pass_items(&mut self, k: usize, count: usize) -> i32
        ensures none { handle_at k self.old.handles.items ≡ None
            → (result ≡ no_handle) × (self.new ≡ self.old) }
        ensures some { IfSome (handle_at k self.old.handles.items) (λ h. (after : HandleState)
            × (result ≡ ok)
            × (self.new.handles.items ≡ slice_set self.old.handles.items k (slot.Open after))
            × (self.new.freed ≡ self.old.freed)
            × ((ks : List ℕ) → HasFree self.old ks → HasFree self.new ks)
            × (self.new.held ≡ self.old.held)
            × PassesTimes count h after self.old self.new) }
        ensures missed { MissesSame self.old self.new }
    {
        let Some(mut reader) = take(&mut self.handles, k, 0) else {
            return HANDLE;
        };
        self.go_past_items(&mut reader, count);
        self.handles[k] = Slot::Open(reader);
        OK
    }

    /// Goes on past so many items of this handle, which has left its place, or past all that wait.
    fn go_past_items(&mut self, handle: &mut Handle, count: usize)
        ensures passes { PassesTimes count handle.old handle.new self.old self.new }
        ensures handles { self.new.handles ≡ self.old.handles }
        ensures freed { self.new.freed ≡ self.old.freed }
        ensures held { self.new.held ≡ self.old.held }
        ensures missed { MissesSame self.old self.new }
    {
        for done in 0..count {
            if self.is_past(handle) {
                return;
            }
            self.go_past(handle);
        }
    }

    /// Whether nothing comes next for this handle, so that a step past it changes nothing.
    fn is_past(&self, handle: &Handle) -> bool
        ensures { IsTrue result → PassesHandle handle.now handle.now self.now self.now }
    {
        is_rest(&self.router.lend_next(handle))
    }

    /// Goes on to the next item of this handle, which has left its place.
    fn go_past(&mut self, handle: &mut Handle)
        ensures passes { PassesHandle handle.old handle.new self.old self.new }
        ensures handles { self.new.handles ≡ self.old.handles }
        ensures freed { self.new.freed ≡ self.old.freed }
        ensures held { self.new.held ≡ self.old.held }
        ensures missed { MissesSame self.old self.new }
    {
        self.router.pass(handle);
    }
}
