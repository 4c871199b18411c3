// Fields of a file, written one after the other: definitions in specs/, laws in proofs/; no code stands here.
#![tactic(auto)]
