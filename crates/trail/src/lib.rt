//! The trail: delivered frames end to end in lent bytes, written one on another and walked back from the end.
#![tactic(auto)]

mod cursor;
mod sound;
pub mod walk;
pub mod write;
