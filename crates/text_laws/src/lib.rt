// Definitions and laws of the lines of the sheet, and the answer to a text that is put into a lent buffer.
#![tactic(auto)]

// No line is longer.
pub const LONGEST_LINE: usize = 128;
