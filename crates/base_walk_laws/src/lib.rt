// What the walks by hand share: the parts of a body, the types of a lent run, and a slice that is lent again. No code stands here.
#![tactic(auto)]
