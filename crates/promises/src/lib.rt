// The promises: document 01's demands, each a theorem in proofs/.
#![tactic(auto)]

// How many demands there are.
pub const DEMANDS: usize = 3;
