//! A call's checks as a list, and the first of them that is met. There is no code here: definitions are in specs/, laws in proofs/.
#![tactic(auto)]
