// What a printed sheet promises, and why it holds: definitions and laws, no code.
#![tactic(auto)]
