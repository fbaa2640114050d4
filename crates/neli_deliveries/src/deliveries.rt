//! What a store of deliveries must keep.

ghost use Rattle.std.specs.Prelude.{true, ◌≡◌, ℕ, List, [], ◌∷◌, Option, None, Some, IsOk, IfOk, OnOk, OnErr, is_some};
ghost use Rattle.std.specs.Prelude.{option_map};
ghost use Rattle.neli_reader.specs.Cuts.{cut_of};
ghost use Rattle.neli_reader.specs.Agreement.{untyped_layout};
ghost use Rattle.neli_deliveries.specs.Lists.{ListsGain, Opens, SameLists, SameListsBut};
ghost use Rattle.neli_deliveries.specs.declared.delivery.Delivery.{Delivery as Waiting};
ghost use Rattle.neli_deliveries.specs.Deliveries.{fault_share, head_of, heading_of, is_would_block, datagram_share};
ghost use Rattle.neli_deliveries.specs.Readings.{FirstTakesMemory, IsFirst};

use crate::Heading;
use neli_consts::NlType;
use neli_reader::{Nlmsghdr, RouterError, SocketError};
use neli_util::Groups;
use neli_wire::{FromBytesWithInput, NoMemory, Size};
use std::alloc::Global;

/// A list of deliveries for each open sequence number, and one for multicast until that is closed.
///
/// Contracts see a store as its port and, for each number and for multicast (`None`), the list of its waiting
/// deliveries, or that it is not open. How it stores them is its own matter.
pub trait Deliveries: Sized + Drop {
    /// The port of the router: a message that arrived for no group and has another port is a stray.
    ghost port_of: { Self → ℕ };

    /// The deliveries that wait for a number, or for multicast; `None` if it is not open.
    ghost pending: { Self → Option ℕ → Option (List Waiting) };

    /// A store with no open number and an empty list for multicast. It takes no memory.
    fn new(alloc: Global, port: u32) -> Self
        ensures port { port_of result ≡ port }
        ensures multicast { pending result None ≡ Some [] }
        ensures numbers { (q : ℕ) → pending result (Some q) ≡ None };

    /// The port of the router.
    fn port(&self) -> u32
        ensures { result ≡ port_of self.now };

    /// Whether there is a list for this number, or for multicast.
    fn is_open(&self, whose: Option<u32>) -> bool
        ensures { result ≡ is_some (pending self.now whose) };

    /// Opens an empty list for a number that is not open.
    ///
    /// Refused only if memory runs out; then all lists are as they were.
    fn open(&mut self, number: u32) -> Result<(), NoMemory>
        requires { pending self.old (Some number) ≡ None }
        ensures port { port_of self.new ≡ port_of self.old }
        ensures opened { OnOk result (Opens number (pending self.old) (pending self.new)) }
        ensures unchanged { OnErr result (SameLists (pending self.old) (pending self.new)) };

    /// Removes a list with its deliveries. It takes no memory.
    fn close(&mut self, whose: Option<u32>)
        ensures port { port_of self.new ≡ port_of self.old }
        ensures closed { pending self.new whose ≡ None }
        ensures others { SameListsBut whose (pending self.old) (pending self.new) };

    /// Delivers the messages and the fault of a datagram that arrived for these groups.
    ///
    /// Refused only if memory runs out; then all lists are as they were. An empty datagram is never refused.
    fn datagram(&mut self, bytes: &[u8], groups: &Groups) -> Result<(), NoMemory>
        ensures port { port_of self.new ≡ port_of self.old }
        ensures ok { OnOk result (ListsGain (λ w. datagram_share (port_of self.old)
            (λ q. is_some (pending self.old (Some q))) w
            (cut_of untyped_layout bytes.now) groups.now)
            (pending self.old) (pending self.new)) }
        ensures unchanged { OnErr result (SameLists (pending self.old) (pending self.new)) }
        ensures empty { bytes.now ≡ [] → IsOk result };

    /// Delivers a fault of the link to each open number, unless the fault is that the link would block.
    ///
    /// Refused only if memory runs out; then all lists are as they were. A link that would block, and any fault while
    /// no number is open, is never refused.
    fn fault(&mut self, error: SocketError) -> Result<(), NoMemory>
        ensures port { port_of self.new ≡ port_of self.old }
        ensures ok { OnOk result (ListsGain (λ w. fault_share w error)
            (pending self.old) (pending self.new)) }
        ensures unchanged { OnErr result (SameLists (pending self.old) (pending self.new)) }
        ensures would_block { is_would_block error ≡ true → IsOk result }
        ensures unawaited { ((q : ℕ) → pending self.old (Some q) ≡ None) → IsOk result };

    /// The first delivery that waits, read as the caller's types: a message, or why there is none; or that nothing
    /// waits.
    ///
    /// Refused only if memory runs out, and never where nothing waits; for a message of another type than 2 and 3 only
    /// if reading its body takes memory, so a refused body is never reported as out of memory.
    fn first<T: NlType, P: FromBytesWithInput + Size>(
        &self,
        alloc: Global,
        whose: Option<u32>,
    ) -> Result<Option<Result<Nlmsghdr<T, P>, RouterError<T, P>>>, NoMemory>
        ensures first { IfOk result
            (IsFirst T.wire_value P.view P.wire_length P.read (head_of (pending self.now whose))) }
        ensures nothing { head_of (pending self.now whose) ≡ None → IsOk result }
        ensures memory { OnErr result
            (FirstTakesMemory P.takes_memory (head_of (pending self.now whose))) };

    /// The first delivery that waits, by its message's header; or that nothing waits. It takes no memory.
    fn first_heading(&self, whose: Option<u32>) -> Option<Heading>
        ensures { result ≡ option_map heading_of (head_of (pending self.now whose)) };

    /// Removes the first delivery that waits. It takes no memory.
    fn drop_first(&mut self, whose: Option<u32>)
        requires { (d : Waiting) × (ds : List Waiting) × (pending self.old whose ≡ Some (d ∷ ds)) }
        ensures port { port_of self.new ≡ port_of self.old }
        ensures taken { (d : Waiting) (ds : List Waiting) → pending self.old whose ≡ Some (d ∷ ds)
            → pending self.new whose ≡ Some ds }
        ensures others { SameListsBut whose (pending self.old) (pending self.new) };

    /// Removes all deliveries of a list, which stays open if it is. It takes no memory.
    fn clear(&mut self, whose: Option<u32>)
        ensures port { port_of self.new ≡ port_of self.old }
        ensures cleared { pending self.new whose
            ≡ option_map (λ _. []) (pending self.old whose) }
        ensures others { SameListsBut whose (pending self.old) (pending self.new) };
}
