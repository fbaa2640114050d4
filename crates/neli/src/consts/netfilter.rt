//! Netfilter's logging.

pub use neli_consts::{LogCfgCmd, LogCfgCmdWrapper};
pub use neli_consts_system::{LogCmd, LogCopyMode, NetfilterMsg, NfLogAttr, NfLogCfg};
