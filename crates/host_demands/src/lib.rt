// Demand 3, and what follows for customers, through the thin entry and through the functions that hosts call: statements in specs/, proofs in proofs/. No code.
#![tactic(auto)]
