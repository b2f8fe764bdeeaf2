//! The protocol on messages: send, trim, offer and deliver, a list of steps of n nodes, and the theorem of demand 3 about every such list.
//! There is no code here: definitions are in specs/, proofs in proofs/.
#![tactic(auto)]
