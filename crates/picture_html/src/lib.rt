//! A picture as a page of its own, to be stepped through: one text of HTML, with nothing from
//! elsewhere.
#![tactic(auto)]

pub mod page;
mod phrases;
mod script;
mod steps;

pub use page::draw_page;
