#![tactic(auto)]

// The laws of the reader and the writer of DBD statements: they stand in specs/, their proofs in proofs/.
