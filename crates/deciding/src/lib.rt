#![tactic(auto)]
// Equality to n steps and runs, decided by tests that compute, in specs/. There is no code here.
