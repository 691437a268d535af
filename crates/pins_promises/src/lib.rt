#![tactic(auto)]

// No code: what holds of the pins over lists of samples is stated in specs/ and proved in proofs/.
