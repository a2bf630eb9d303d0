// The fit and its state prices over any tree: definitions and laws, no code.
#![tactic(auto)]
