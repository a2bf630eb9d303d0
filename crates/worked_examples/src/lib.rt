// The starred figures of document 01, figures of requests (i) and (ix) of document 02 worked out here, and the sheets that document 02 prints, each as one
// joint statement about definitions: no code.
#![tactic(auto)]
