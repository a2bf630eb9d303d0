// No code: what reading and writing a job promise together, over the definitions that their contracts cite.
#![tactic(auto)]
