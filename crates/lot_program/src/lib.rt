//! Programs of lock calls, and where each move of a thread leads.
#![tactic(auto)]

pub mod grains;
pub mod program;
pub mod scenes;
pub mod states;
pub mod tables;
pub mod turns;

pub use grains::Grain;
pub use program::{
    Comparison, Condition, Deadlines, Instruction, Program, Property, Station, Test, Told, Value,
};
pub use scenes::Scene;
pub use states::{Fault, Local};
pub use tables::Tables;
