#![tactic(auto)]
// Demand 3 over the operations of the program, in specs/. There is no code here.
