// Document 01, 'A sheet': 32-bit numbers as bytes, least significant first, read and stored.
ghost use Rattle.std.specs.Prelude.{◌≡◌, ◌+◌, ◌≤◌, length};
ghost use Rattle.answer_record.specs.Bytes.{number_size, number_at, bytes_of, twos_complement, stored};

use crate::layout::NUMBER_SIZE;

// The 32-bit number at `at`. An inner function, for callers that know its four bytes to be there. It has bytes and an offset, and `store_number` too: C lends
// the sheet and the record, document 01 says at which byte of them a number begins, and it is read and stored there, without a copy of what is lent.
#[tactic(auto, using(crate::proofs::Numbers::joined_by_library), unfolding(crate::specs::Bytes::number_at))]
pub fn number_at(bytes: &[u8], at: usize) -> u32
    requires { at + number_size ≤ length bytes.now }
    ensures { result ≡ number_at bytes.now at }
{
    u32::from_le_bytes([bytes[at], bytes[at + 1], bytes[at + 2], bytes[at + 3]])
}

// A number with sign in two's complement.
pub fn twos_complement(x: i32) -> u32
    ensures { result ≡ twos_complement x }
{
    x.cast_unsigned()
}

// Stores x at `at`, least significant byte first.
#[tactic(auto, using(crate::proofs::Numbers::bytes_by_library, crate::proofs::Stores::copied), unfolding(crate::specs::Bytes::bytes_of))]
pub fn store_number(to: &mut [u8], at: usize, x: u32)
    requires { at + number_size ≤ length to.old }
    ensures { to.new ≡ stored to.old at (bytes_of x) }
{
    to[at..at + NUMBER_SIZE].copy_from_slice(&x.to_le_bytes());
}
