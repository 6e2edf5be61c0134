#![tactic(auto)]
// Sheets for which the theorems of demand 3 are not empty, in specs/. There is no code here.
