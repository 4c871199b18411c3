// Laws of the index of an accepted file: where its frames stand, and how the code passes over them. No code stands here.
#![tactic(auto)]
