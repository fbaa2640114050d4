//! Bodies of generic netlink and of the connector.
//!
//! - [`Genlmsghdr`]: a command of a family of generic netlink, which may have a header of its own, and attributes.
//!   [`NoUserHeader`]: the header of a family that has none.
//! - [`CnMsg`]: a message of the connector, with a payload of any type.
//! - [`ProcEventHeader`], [`ProcEvent`]: the connector's reports of processes.
//!
//! ```text
//!  0    1    2         4           4 + h              n
//!  +----+----+---------+- - - - - -+---- - - - - - - -+
//!  | cmd| ver| reserved| header    | attributes       |   Genlmsghdr
//!  +----+----+---------+- - - - - -+---- - - - - - - -+
//!  0         4         8         12        16   18   20           n
//!  +---------+---------+---------+---------+----+----+---- - - - -+
//!  | idx     | val     | seq     | ack     | len|flag| payload    |   CnMsg
//!  +---------+---------+---------+---------+----+----+---- - - - -+
//! ```
//!
//! A read takes the number of the body's bytes: `InvalidInput` of it if a part of fixed size is cut short, then the
//! refusal of what follows. `specs/` has a page for each, with its fields by their places.
#![tactic(auto)]

mod cn_msg;
mod event_reading;
mod genlmsghdr;
pub mod laws;
mod no_user_header;
mod proc_event;
mod proc_event_header;

pub use cn_msg::{CnMsg, CnMsgBuilder, CnMsgBuilderError};
pub use genlmsghdr::{Genlmsghdr, GenlmsghdrBuilder, GenlmsghdrBuilderError};
pub use no_user_header::NoUserHeader;
pub use proc_event::ProcEvent;
pub use proc_event_header::ProcEventHeader;
