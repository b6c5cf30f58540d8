// Types as nodes in the work words; `type_equals` and `try_union_types`.
// A node number is an index into the work words. Below lo it is the Var of the slot of that number, and the word there is the slot's
// binding: 0, or the number of a node and 1. From lo on a node is three words: kind, a, b.
#![tactic(auto)]

pub mod node;
pub mod state;
