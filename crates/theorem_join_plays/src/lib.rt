// How a player of a joined file plays: each vsync that any calls complete is the first's or the second's. Theorems in proofs/; no code
// stands here.
#![tactic(auto)]
