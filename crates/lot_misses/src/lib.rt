//! No missed exchange is ever needed: threads that exchange a word right after they have looked at it come
//! wherever threads come at all, and are told what those are told.
#![tactic(auto)]

pub mod laws;
