//! Pictures before they are written: what is said of each column and lock, and where things are.
#![tactic(auto)]

pub mod headings;
pub mod layout;
pub mod lengths;
pub mod rows;
pub mod sheet;
pub mod titles;
pub mod words;

pub use headings::heading_of;
pub use lengths::{Length, Unit};
pub use sheet::Sheet;
pub use titles::{title_of, unit_word};
