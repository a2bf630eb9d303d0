// Definitions and laws of a job's sheet.
#![tactic(auto)]
