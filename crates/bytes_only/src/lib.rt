#![tactic(auto)]

// A catalogue without a packed value answers as it did before there were any: the statement stands in specs/, its proof in proofs/.
