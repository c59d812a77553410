#![tactic(auto)]

// A table's bytes, its cells and its forest determine each other: the statement stands in specs/, its proof in proofs/.
