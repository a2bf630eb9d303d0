// What is promised of prices on a rate tree and a spread tree together, and that it is kept: proofs alone.
#![tactic(auto)]
