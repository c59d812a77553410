#![tactic(auto)]

// The calls over the forest, in document 000's terms, are the calls over the cells, and tables stay good: the statements stand in specs/, the
// proofs in proofs/.
