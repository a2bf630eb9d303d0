// A price, laid out for C, with the definitions and laws of what the pricing entries answer. No code: the entries are in pricing.
#![tactic(auto)]

use arithmetic::Answer;

// A price in billionths with its error bound; a refusal's number with zeros.
#[repr(C)]
#[derive(Clone, Copy)]
pub struct Price {
    pub number: u64,
    pub value: u64,
    pub bound: u64,
}

// A bond and an option on it.
#[repr(C)]
#[derive(Drop)]
pub struct BondAndOption {
    pub bond: Price,
    pub option: Price,
}

// The same without their error bounds.
#[derive(Drop)]
pub struct BondAndOptionValues {
    pub bond: Answer,
    pub option: Answer,
}

pub const MOST_STRIKES: usize = 16;

// Up to 16 answers in order, a number, a value and a bound for each, zeros after them; or the strip's own refusal with zeros.
#[repr(C)]
#[derive(Drop)]
pub struct Strip {
    pub number: u64,
    pub numbers: [u64; MOST_STRIKES],
    pub values: [u64; MOST_STRIKES],
    pub bounds: [u64; MOST_STRIKES],
}

// A tree whose error bound is known.
#[derive(Clone, Copy)]
pub struct BoundedTree {
    pub steps: usize,
    pub reversion: u64,
    pub bound: u64,
}
