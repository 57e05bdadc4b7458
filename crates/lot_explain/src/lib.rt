//! A replay in words: what each line has changed, and why a line is malformed or not possible now.
#![tactic(auto)]

pub mod before;
pub mod explanation;
pub mod failure;
pub mod forms;
pub mod lines;
pub mod misplaced;
pub mod notes;
pub mod obstacles;
pub mod remarks;
pub mod shown;

pub use explanation::{Explanation, explain};
pub use failure::Failure;
pub use forms::{FormCause, FormFlaw, form_flaw};
pub use misplaced::{StageCause, stage_cause};
pub use obstacles::{DrainObstacle, Obstacle, drain_obstacle, obstacle_of};
pub use shown::{lock_lines, write_changes};
