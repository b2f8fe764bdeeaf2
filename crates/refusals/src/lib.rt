//! Demand 1 as one theorem, and document 01's ◆ examples as one table. There is no code here: the statements are in specs/, proofs are in proofs/.
#![tactic(auto)]
