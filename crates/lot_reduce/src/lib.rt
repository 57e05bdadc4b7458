//! A program that goes wrong, without the lines that its finding doesn't need.
#![tactic(auto)]

mod draft;
mod lines;
mod manner;
pub mod reducing;
mod smaller;

pub use reducing::{Reduced, Search, reduce};
