// The definition of the listing and its laws, without code.
#![tactic(auto)]
