// A job as a record, with the definitions and laws of its form, its grammar and its reading.
#![tactic(auto)]

// As many steps as one byte can say: the places that a record has for quotes and for flows.
pub const MOST_STEPS: usize = 255;

// As many dates as a job has room for: 4,700 bytes less the head's 20, a field's 3, and 5 of side and strike.
pub const MOST_DATES: usize = 4672;

// What the tag of a field may be: any kind of quote, or one tag alone.
#[derive(Clone, Copy)]
pub enum Tags {
    AnyKind,
    Only(u8),
}

// The option of a job as it was read: tag 8 or 10, or 0 and zeros where the job has none.
#[repr(C)]
#[derive(Clone, Copy)]
pub struct OptionRecord {
    pub tag: u64,
    // The kind of tag 8, the side of tag 10.
    pub kind: u64,
    // Of tag 8; 0 for tag 10.
    pub expiry: u64,
    pub strike: u64,
    // How many dates tag 10 lists; 0 for tag 8.
    pub count: usize,
    // The listed rows, zeros after them.
    pub dates: [u8; MOST_DATES],
}

// A job: its quotes and flows stand in the first `steps` places, zeros after them. A figure is the pattern of a float, NaN or not.
#[repr(C)]
#[derive(Clone, Copy)]
pub struct Job {
    pub frequency: u64,
    pub steps: usize,
    pub reversion: u64,
    pub volatility: u64,
    // 1 or 2, or 0 where the job has no version.
    pub version: u64,
    pub kinds: [u8; MOST_STEPS],
    pub figures: [u64; MOST_STEPS],
    pub flows: [u64; MOST_STEPS],
    pub option: OptionRecord,
}

// Number 0 with the job, or refusal 1 with zeros.
#[repr(C)]
#[derive(Drop)]
pub struct Reading {
    pub number: u64,
    pub job: Job,
}
