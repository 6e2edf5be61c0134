#![tactic(auto)]
// Theorems about the stream and the file of a table, in specs/. There is no code here.
