// No code: what the entries of a shelf promise for every history of calls, over the definitions that their contracts cite.
#![tactic(auto)]
