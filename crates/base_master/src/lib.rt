// A master at its places in the file, and the parts of its repacked file: definitions in specs/, laws in proofs/; no code stands here.
#![tactic(auto)]
