//! A request that is to be sent.

use neli_router::NlRouterReceiverHandle;

/// A request: what the link has to send, and how its answer is read.
#[derive(Drop)]
pub struct Request<T, P> {
    /// The bytes to send, one message.
    pub bytes: Vec<u8>,
    /// The handle for the answer, which reads messages as the request's own types;
    /// [`retyped`](NlRouterReceiverHandle::retyped) gives one for others.
    pub handle: NlRouterReceiverHandle<T, P>,
}
