#![tactic(auto)]

// Demand 3: what loops of gets show. Definitions stand in specs/, the proof in proofs/.
