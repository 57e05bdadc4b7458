//! The data of pictures: a column for each line of a schedule that takes steps, or for each turn of a
//! program, with what threads are to locks after it, what it did, and what it did to other threads.
#![tactic(auto)]

pub mod cells;
pub mod dues;
pub mod effects;
pub mod labels;
pub mod lanes;
pub mod lines;
pub mod record;
pub mod rows;
pub mod turns;

pub use cells::{Cell, Deed, cell_of};
pub use dues::{Due, due_of};
pub use effects::{Effect, effect_between};
pub use labels::ThreadLabel;
pub use lanes::Lane;
pub use lines::Failure;
pub use record::{Column, ColumnKind, Event, MOST_COLUMNS, Recording, Span, record_schedule};
pub use rows::{LockRow, VariableRow};
pub use turns::{Program, TurnColumn, TurnRecorder, VariableName};
