#![tactic(auto)]

// The three demands, side by side. The statements stand in specs/, the proofs in proofs/.
