//! Pictures of schedules as SVG: a row for each thread, a column for each line that takes steps.
#![tactic(auto)]

mod arrows;
mod legend;
mod looks;
mod panels;
pub mod picture;
mod rows;
mod shapes;
mod style;
pub mod texts;

pub use picture::{Drawing, draw};
pub use texts::put_text;
