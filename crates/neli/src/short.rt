//! Short calls: what a program writes most often, each over the calls that it stands for.

pub use neli_short::{
    AttrError, ExtAck, ExtAckBuilder, LentLookup, Lookup, Made, Put, ReadBody, laws,
};
pub use neli_short_router::{Client, Dump, Next, Request, laws as laws_of_reads};
