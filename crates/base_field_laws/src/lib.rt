// Laws of fields that stand at a place of a file: what is read there, and what is written there. No code stands here.
#![tactic(auto)]
