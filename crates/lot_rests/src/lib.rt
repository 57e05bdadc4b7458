//! A world comes to rest: threads that begin nothing new take so many turns at most, in whatever
//! order, and then nobody is awake in a call.
#![tactic(auto)]

pub mod laws;
