#![tactic(auto)]
// The bytes of a table's signature: sorts with their sizes and names, functions with their values, actions with their names.
pub mod bytes; // bytes put one behind another
pub mod signature; // hex F2, "count and sizes of sorts .. count of functions .. count of actions"
