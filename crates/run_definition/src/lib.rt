// The definition of the run and its laws, without code.
#![tactic(auto)]
