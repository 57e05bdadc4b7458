//! The parts on which every lock stands: faults, the operations of a word, the keys of its queues, and
//! the queues.
#![tactic(auto)]

pub mod faults;
pub mod keys;
pub mod laws;
pub mod list;
pub mod lock_picker;
pub mod notes;
pub mod ops;
pub mod picks;
pub mod queues;
pub mod requeues;
pub mod wants;

pub use faults::Fault;
pub use keys::{Key, Keys, Line, main_key, second_key};
pub use list::ListQueues;
pub use lock_picker::LockPicker;
pub use notes::Note;
pub use ops::Op;
pub use picks::{Pick, Picker};
pub use queues::Queues;
pub use requeues::Requeue;
pub use wants::{Waiter, Want};
