// No code: which records are written, what writing answers and leaves, and that reading and writing are inverse.
#![tactic(auto)]
