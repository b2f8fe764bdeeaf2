//! Demand 3 on records, hold-back queues and frame bytes: one theorem about every list of calls.
//! There is no code here: the statement is in specs/, proofs are in proofs/.
#![tactic(auto)]
