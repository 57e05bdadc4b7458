//! Queues of keys: those of all keys in hashed buckets, and what stands in the lock of one bucket of
//! a lot.
#![tactic(auto)]

mod buckets;
mod everybody;
mod formula;
mod kind;
mod links;
mod marks;
mod pairs;
mod records;
mod section_queues;
mod stands;
mod wants;

pub use buckets::BucketQueues;
pub use formula::{bits_for, bucket_among};
pub use section_queues::SectionQueues;
pub use stands::Stands;
