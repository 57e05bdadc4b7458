//! What a search of a program tells: each turn of what it found, and after nothing was found how far looks
//! for loops went, and which lines no schedule reaches.
#![tactic(auto)]

pub mod loops;
pub mod remarks;
pub mod story;
pub mod telling;

pub use loops::{
    Ended, Look, Stepwise, by_single_steps, finding_of_loop, look_for_loops, write_looks,
};
pub use remarks::{Coverage, Kept, Remarks};
pub use story::write_story;
pub use telling::{Telling, TurnTold, write_turns};
