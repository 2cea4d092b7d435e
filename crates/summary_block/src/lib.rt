// A summary as nine numbers of 32 bits, so that a tray can keep it: the lowest index, the highest and the sum as two numbers each, the lower first, then the
// three counts. The summary of no answers is nine zeros, and nine numbers that count nothing are read as that, whatever else they say.
//
// `From` between a summary and its numbers would be no plainer: both types are of other crates, so that it would need a third around the numbers, which each
// call would put on and take off the numbers that a tray lends.
#![tactic(auto)]

ghost use Rattle.std.specs.Prelude.{◌≡◌, [], ◌∷◌};
ghost use Rattle.summary_block.specs.Block.{low_word, high_word, signed_of_words, numbers_of, block_of, summary_from};

use index_summary::Summary;

pub const BLOCK_LENGTH: usize = 9;

// How many numbers 32 bits hold.
const SPAN: u64 = 4_294_967_296;

// The lower 32 bits of a number with sign in two's complement, and its upper 32 bits.
#[tactic(auto, unfolding(crate::specs::Block::low_word, crate::specs::Block::high_word))]
fn words_of(x: i64) -> [u32; 2]
    ensures { result ≡ low_word x ∷ high_word x ∷ [] }
{
    let bits = x.cast_unsigned();
    [(bits % SPAN) as u32, (bits / SPAN) as u32]
}

// The number with sign that two such words stand for.
#[tactic(auto, unfolding(crate::specs::Block::signed_of_words))]
fn signed_of_words(low: u32, high: u32) -> i64
    ensures { result ≡ signed_of_words low high }
{
    (u64::from(low) + SPAN * u64::from(high)).cast_signed()
}

// The summary that nine numbers say.
#[tactic(auto, unfolding(crate::specs::Block::summary_from))]
pub fn read_block(block: &[u32; BLOCK_LENGTH]) -> Summary
    ensures { result ≡ summary_from block.now }
{
    let [
        lowest_low,
        lowest_high,
        highest_low,
        highest_high,
        sum_low,
        sum_high,
        a,
        settled,
        near,
    ] = *block;
    let fields = Summary {
        lowest: signed_of_words(lowest_low, lowest_high),
        highest: signed_of_words(highest_low, highest_high),
        sum: signed_of_words(sum_low, sum_high),
        a,
        settled,
        near,
    };
    if fields.is_of_none() {
        Summary::default()
    } else {
        fields
    }
}

// The nine numbers of a summary.
#[tactic(auto, unfolding(crate::specs::Block::numbers_of))]
fn numbers_of(t: Summary) -> [u32; BLOCK_LENGTH]
    ensures { result ≡ numbers_of t }
{
    let [lowest_low, lowest_high] = words_of(t.lowest);
    let [highest_low, highest_high] = words_of(t.highest);
    let [sum_low, sum_high] = words_of(t.sum);
    [
        lowest_low,
        lowest_high,
        highest_low,
        highest_high,
        sum_low,
        sum_high,
        t.a,
        t.settled,
        t.near,
    ]
}

// Stores the nine numbers that say a summary: zeros for a summary of none.
#[tactic(auto, unfolding(crate::specs::Block::block_of))]
pub fn store_block(block: &mut [u32; BLOCK_LENGTH], t: Summary)
    ensures { block.new ≡ block_of t }
{
    *block = if t.is_of_none() {
        [0; BLOCK_LENGTH]
    } else {
        numbers_of(t)
    };
}
