#![tactic(auto)]
// The printed text of a table, piece by piece; no code.
