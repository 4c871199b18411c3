// Laws of the vsync call that the player and the theorems about it share: what a call takes from a file, and its plan. No code stands here.
#![tactic(auto)]
