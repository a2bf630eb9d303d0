// What the report of a book promises, and why it holds: definitions and laws, no code.
#![tactic(auto)]
