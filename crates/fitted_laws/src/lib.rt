// The fit of a quoted curve on the rate tree, with what its entries answer and leave: definitions and laws, no code. The entries are in fitting.
#![tactic(auto)]
