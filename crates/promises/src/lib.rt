// No code: what the entries promise together, over the definitions that their contracts cite.
#![tactic(auto)]
