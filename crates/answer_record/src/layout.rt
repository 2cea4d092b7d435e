// Document 01, 'A sheet': the size of a result and where its fields stand in it, in bytes.

// How many bytes a 32-bit number is.
pub const NUMBER_SIZE: usize = 4;

// A result: the pair's number, the method, two zeros, the index, p and P.
pub const RESULT_SIZE: usize = 16;

pub const METHOD_AT: usize = 1;

pub const INDEX_AT: usize = 4;

pub const LOWER_AT: usize = 8;

pub const UPPER_AT: usize = 12;
