// Trees of any width and any transition: definitions and laws.
#![tactic(auto)]

// The whole of which probabilities are parts.
pub const PROBABILITY_TOTAL: u64 = 600_000_000;
