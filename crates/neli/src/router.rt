//! Delivers each reply to its handle.

/// The router, its stores of deliveries, whole runs of it, and the resolvers of generic netlink's names.
pub mod synchronous {
    pub use neli_log::{LentDelivery, Log};
    pub use neli_queues::Queues;
    pub use neli_resolvers::{
        CtrlError, CtrlItem, find_genl_family, find_genl_family_and_group, find_nl_mcast_group,
        lookup_id, resolve_genl_family, resolve_nl_mcast_group,
    };
    pub use neli_router::{ItemsAhead, LentError, LentReply, laws as laws_of_handles};
    pub use neli_runs::{
        Answering, Command, Deliveries, Delivery, GivenUp, HandleState, Heading, Heard, Loss,
        Missed, NlRouter, NlRouterReceiverHandle, Notice, OpenRun, Outcome, Reply, Verdict,
        filtered_of, is_dump, laws, run, verdict_of,
    };
}
