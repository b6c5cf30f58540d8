// The unifier: `unify` and `bind_variable_to`, and equations with a Property on the right.
#![tactic(auto)]

pub mod access;
pub mod bind;
