//! The connector.

pub use neli_consts_system::{CnMsgIdx, CnMsgVal, ProcCnMcastOp, ProcEventType};
