// Document 01, 'A sheet': the sizes of the header and of a pair, and where their fields stand in them, in bytes. A result is a record, which crate
// answer_record lays out.

// The header: the count of pairs, the offsets of the two blocks, the total length.
pub const HEADER_SIZE: usize = 16;

pub const COUNT_AT: usize = 0;

pub const PAIRS_AT: usize = 4;

pub const RESULTS_AT: usize = 8;

pub const TOTAL_AT: usize = 12;

pub const MOST_PAIRS: usize = 2_000;

// A pair is u, then y.
pub const PAIR_SIZE: usize = 8;

pub const Y_AT: usize = 4;
