//! What a call hands back, the next call takes, and how much of the frame output a call can fill: two theorems about the calls.
//! There is no code here: the statements are in specs/, proofs are in proofs/.
#![tactic(auto)]
