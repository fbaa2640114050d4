//! Equality of constants: two are equal exactly where they are the same variant or the same bits.

pub use neli_consts::laws as messages;
pub use neli_consts_attrs::laws as route_attributes;
pub use neli_consts_flags::laws as routing_flags;
pub use neli_consts_linux::laws as linux;
pub use neli_consts_routing::laws as routing;
pub use neli_consts_system::laws as systems;
