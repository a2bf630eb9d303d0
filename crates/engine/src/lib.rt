// All that the engine promises, as one statement with its proof. No code.
#![tactic(auto)]
