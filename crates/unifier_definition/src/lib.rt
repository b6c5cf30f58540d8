// The definition of the unifier and its laws, without code.
#![tactic(auto)]
