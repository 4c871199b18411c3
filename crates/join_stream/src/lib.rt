// Two pieces as one (document 02, T-04): what joining two files of version 2 gives, as definitions over lists of numbers, and its laws: the
// joined file's parts and size, when it is refused, and how it plays. No code stands here.
#![tactic(auto)]
