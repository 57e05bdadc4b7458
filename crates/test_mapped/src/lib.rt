//! Projections of a slot and of an entry, and trials of mapped guards and of what locks show.
#![tactic(auto)]

pub mod entries;
pub mod slots;

pub use entries::Entry;
pub use slots::Slot;

#[cfg(test)]
mod tests;
