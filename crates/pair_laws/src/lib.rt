// A rate tree and a spread tree together: definitions and laws alone.
#![tactic(auto)]
