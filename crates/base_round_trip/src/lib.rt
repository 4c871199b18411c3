// What `written` writes, `read` reads; and an accepted file is the written form of its stream, with its parts where its header says. Laws in
// proofs/, for code and for theorems; no code stands here.
#![tactic(auto)]
