// The three demands, said of every step that keeps the record's contract `Stepped`: statements in specs/, proofs in proofs/. No code.
#![tactic(auto)]
