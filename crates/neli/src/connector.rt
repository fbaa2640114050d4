//! Messages of the connector, and their process events.

pub use neli_genl::{CnMsg, CnMsgBuilder, CnMsgBuilderError, ProcEvent, ProcEventHeader};
pub use neli_texts::{ExitStatus, laws as laws_of_texts};

/// Laws: written values are read back, values are their fields, and `==` is equality.
pub mod laws {
    pub use neli_genl::laws::{
        cn_msg_is_its_fields, cn_msg_is_read_back, equality, proc_event_is_its_fields,
        proc_event_is_read_back,
    };
}
