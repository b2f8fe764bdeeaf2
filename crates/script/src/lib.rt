//! What the program `vectors` works on: the commands of its script, and its state of records, queues, a log and the frame at hand.
#![tactic(auto)]

pub mod command;
pub mod frames;
pub mod printed;
pub mod state;
