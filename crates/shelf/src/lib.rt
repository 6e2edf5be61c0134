#![tactic(auto)]
// The starred sheets of document 01, proved by computation, in specs/. There is no code here.
