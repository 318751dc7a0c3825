// Programs over rows, and lists of calls in any merge: definitions in specs/, laws in proofs/. No code, and nothing of the kernel.
#![tactic(auto)]
