//! The lot that threads run on: tickets and tokens, word steps, sections over the queues, and
//! sleep.
#![tactic(auto)]

pub mod counts;
pub mod directing;
pub mod enter;
pub mod expected;
pub mod lot;
pub mod pauses;
pub mod places;
pub mod same;
pub mod sections;
pub mod sleep;
pub mod step_counts;
pub mod team;
pub mod tellings;
pub mod tokens;
pub mod waiters;
pub mod wakes;
pub mod words;

pub use core_base::{Fault, Key, Keys, Note, Op, Requeue, Waiter, Want};
pub use core_clocks::{Clock, SystemClock, TickClock, to_deadline};
pub use core_director::{CallName, Deed, Director, Sort};
pub use core_names::{CountShare, Name};
pub use core_parts::Permit;
pub use core_words::{Held, OpenHeld, Owner, Right, Word, WordKind};
pub use directing::TurnClock;
pub use lot::ParkingLot;
pub use places::QueuePlace;
pub use sections::{Section, WrongToken};
pub use sleep::Slept;
pub use step_counts::StepCount;
pub use team::DEFAULT_WORDS;
pub use tellings::{Telling, Tellings};
pub use tokens::{Did, SectionRecord, Ticket, Token};
pub use wakes::WakeNote;
