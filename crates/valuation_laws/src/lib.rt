// No code: what payoffs on a row are worth by its state prices, with the error bound, and the laws that hold of both.
#![tactic(auto)]
