//! Demand 3 for a host, on images, answers and frame bytes: one theorem about every list of exported calls.
//! There is no code here: the statement is in specs/, proofs are in proofs/.
#![tactic(auto)]
