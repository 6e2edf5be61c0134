#![tactic(auto)]
// That the parser of pcrl is the grammar of document 01, in specs/. There is no code here.
