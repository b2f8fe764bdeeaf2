//! Frames: the bytes of a message. Any run of bytes is checked as a frame; user and extra frames are written.
#![tactic(auto)]

pub mod check;
pub mod entries;
pub mod header;
pub mod write;
