#![tactic(auto)]
// Questions 8 and 9, put to a resolved sheet that arrays hold.
pub mod arguments;
pub mod circles;
pub mod functions;
pub mod operators;
pub mod sorts;
pub mod terms;
