#![tactic(auto)]
// Laws of lists, of tests, of questions and of data that the crates above share, in specs/. There is no code here.
