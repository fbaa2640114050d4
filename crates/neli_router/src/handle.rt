//! The handle that reads the answers to a request.

ghost use Rattle.std.specs.Prelude.{◌≡◌};

use std::marker::{Model, PhantomData};

/// The state of a handle, whatever its types are.
#[derive(Clone, Copy, Debug, PartialEq, Eq)]
pub struct HandleState {
    /// The sequence number of the request; none for multicast.
    pub number: Option<u32>,
    /// An acknowledgement was requested: the request had the flag ACK, and not those of a dump.
    pub needs_ack: bool,
    /// A whole reply was returned, or the last message of one: after it the rule expects only an
    /// acknowledgement.
    pub single_given: bool,
    /// The last item was returned: a read returns the end.
    pub ended: bool,
}

/// A handle: it gets the replies to a request, or, for multicast, the messages that arrive for
/// groups.
///
/// `T` and `P` are the types that its messages are read as by default. A handle is known by its
/// sequence number, so it belongs to the router that made it.
#[derive(Drop)]
pub struct NlRouterReceiverHandle<T, P> {
    state: HandleState,
    of: PhantomData<(T, P)>,
}

impl<T, P> Model for NlRouterReceiverHandle<T, P> {
    ghost use Rattle.neli_router.specs.declared.handle.HandleState.{HandleState};

    ghost Value = { HandleState };

    ghost view = { λ h. h.state };
}

impl<T, P> NlRouterReceiverHandle<T, P> {
    pub(crate) fn new(state: HandleState) -> Self
        ensures { result ≡ state }
    {
        NlRouterReceiverHandle {
            state,
            of: PhantomData,
        }
    }

    /// Its number, and how far its answers have come.
    pub fn state(&self) -> HandleState
        ensures { result ≡ self.now }
    {
        self.state
    }

    pub(crate) fn set_state(&mut self, state: HandleState)
        ensures { self.new ≡ state }
    {
        self.state = state;
    }

    /// The same handle, for messages of other types.
    pub fn retyped<T2, P2>(self) -> NlRouterReceiverHandle<T2, P2>
        ensures { result ≡ self }
    {
        NlRouterReceiverHandle::new(self.state)
    }
}
