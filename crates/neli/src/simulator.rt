//! A kernel to test against: its answers to a request, as bytes.

pub use neli_answers::Answering;
pub use neli_kernel::{Dump, ExtAck, Request, notification, read_ext_ack};

/// Laws: an answer's bytes on the link, the handle that a router delivers it to, and the reply to each read of that
/// handle.
pub mod laws {
    pub use neli_kernel::laws::{
        acknowledgement_is_delivered, answers_are_one_frame, attributes_are_read_back,
        control_messages_are_replies, datagrams_keep_the_limit, dump_is_delivered,
        dump_is_read_as_its_messages, dump_keeps_its_marks, error_is_delivered,
        finished_dump_is_delivered, message_is_one_frame, notification_is_delivered,
        reply_is_delivered,
    };
    pub use neli_kernel_laws::{
        acknowledged_request_is_answered, answers_are_complete, answers_are_given_in_turn,
        datagrams_bring_their_own, dump_request_is_answered, marks_are_given,
        messages_after_an_answer_are_not_given, notifications_are_heard,
        refused_request_is_answered, replied_request_is_answered, request_is_answered,
        requests_are_answered_in_turn, unacknowledged_reply_is_an_error,
    };
}
