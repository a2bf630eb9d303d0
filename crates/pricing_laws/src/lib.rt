// Prices on trees of any width and any transition: definitions and laws, no code.
#![tactic(auto)]
