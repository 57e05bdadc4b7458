//! A slow checker of worlds: it compares what a world shows before and after a step with the abstract
//! locks, and knows no transition and no place of a call.
//!
//! `check_state` looks at one moment, `check_step` at two neighbours, and a `Watch` at what calls
//! answer. Each names the first violation that it finds.
#![tactic(auto)]

pub mod answers;
pub mod picks;
pub mod queues;
pub mod rights;
pub mod seen;
pub mod states;
pub mod steps;
pub mod violations;
pub mod watch;

pub use seen::{Right, Rights, Seen, SeenLock, SeenOwner, SeenThread, SeenWaiter, Standing};
pub use states::check_state;
pub use steps::check_step;
pub use violations::Violation;
pub use watch::Watch;
