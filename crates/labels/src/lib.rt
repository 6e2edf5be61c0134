#![tactic(auto)]
// The label of an action's byte and its values, in specs/. There is no code here.
