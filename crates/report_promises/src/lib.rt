// What reports of books promise, joined or not, and why it holds: definitions and laws, no code.
#![tactic(auto)]
