// No code: what the entries of haircut bands promise, over the definitions that their contracts cite.
#![tactic(auto)]
