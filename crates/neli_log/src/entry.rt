//! Entries and their routes.

/// The receivers of an entry, decided on arrival.
#[derive(Clone, Copy, Debug, PartialEq, Eq)]
pub enum Route {
    /// To multicast.
    Multicast,
    /// To one number.
    Number(u32),
    /// To each open number.
    Numbers,
}

/// An item, and its receivers.
#[derive(Drop)]
pub struct Entry<T> {
    /// The item.
    pub item: T,
    /// The receivers.
    pub route: Route,
}
