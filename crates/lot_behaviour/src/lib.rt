//! A user's own program, as a trait, and a search of all its schedules.
#![tactic(auto)]

pub mod behaviour;
pub mod explorer;
pub mod locals;
pub mod runs;
pub mod scenes;

pub use behaviour::{Act, Behaviour, is_fit};
pub use explorer::{BehaviourExplorer, explore_behaviour};
pub use locals::Local;
pub use runs::{Trace, follow_behaviour};
pub use scenes::Scene;
