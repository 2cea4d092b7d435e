// The fields of a printed line: which bytes are a number, a viscosity, an index, a word? A number, a viscosity, an index and the line's end come in two forms. A
// function `push_..` puts it behind a text that the caller lends, where there is room: a line is put together so, each field where it is to stand, since texts
// that are copied one into the other took three times as long. Each is laid out in its caller (`inline`): called field by field they took a quarter longer. The other
// form answers a text of its own, which lies in the value itself: nothing is allocated, and the greatest width of the field is the text's capacity. `Display` and
// `write!` would be no plainer, since they answer a `fmt::Result`, of which no clause says that it is `Ok` where there is room.
#![tactic(auto)]

ghost use Rattle.std.specs.Prelude.{◌≡◌, ◌+◌, ◌≤◌, ◌++◌, length};
ghost use Rattle.text_fields.specs.declared.TheConstants.{VISCOSITY_WIDTH, INDEX_WIDTH};
ghost use Rattle.text_fields.specs.Fields.{line_end, digit, decimal, viscosity, signed_decimal, worded};

use arrayvec::ArrayString;

// The greatest widths, in bytes. A number of 32 bits has at most 10 digits; a viscosity has at most 7 before its point and 3 behind it
// (4294967.295); an index has a sign.
pub const NUMBER_WIDTH: usize = 10;

pub const VISCOSITY_WIDTH: usize = 11;

pub const INDEX_WIDTH: usize = 11;

pub const SPACE: &str = " ";

// The last decimal digit of n.
#[inline(always)]
fn push_digit<const N: usize>(text: &mut ArrayString<N>, n: u32)
    requires { length text.old.bytes + 1 ≤ N }
    ensures bytes { text.new.bytes ≡ text.old.bytes ++ digit n }
    ensures len { length text.new.bytes ≡ length text.old.bytes + 1 }
{
    text.push(char::from_digit(n % 10, 10).unwrap());
}

// The decimal digits of n.
#[tactic(auto, using(crate::proofs::Digits::as_printed))]
#[inline(always)]
pub fn push_decimal<const N: usize>(text: &mut ArrayString<N>, n: u32)
    requires { length text.old.bytes + length (decimal n) ≤ N }
    ensures bytes { text.new.bytes ≡ text.old.bytes ++ decimal n }
    ensures len { length text.new.bytes ≡ length text.old.bytes + length (decimal n) }
{
    text.push_str(itoa::Buffer::new().format(n));
}

// A viscosity of x thousandths, with three decimals: digit by digit, since itoa leaves out zeros at the front, and `{:03}` is one of `write!`.
#[tactic(auto, using(crate::proofs::Digits::digits_of_whole), unfolding(crate::specs::Fields::viscosity))]
#[inline(always)]
pub fn push_viscosity<const N: usize>(text: &mut ArrayString<N>, x: u32)
    requires { length text.old.bytes + VISCOSITY_WIDTH ≤ N }
    ensures bytes { text.new.bytes ≡ text.old.bytes ++ viscosity x }
    ensures within { length text.new.bytes ≤ length text.old.bytes + VISCOSITY_WIDTH }
{
    push_decimal(text, x / 1000);
    text.push_str(".");
    push_digit(text, x / 100);
    push_digit(text, x / 10);
    push_digit(text, x);
}

// An index, with a minus sign where it is below zero. As one function with `push_decimal` it would be no plainer: its clause would speak of what the library
// prints of any number, and each caller would have to cite that this is document 01's `decimal` or `signed_decimal`.
#[tactic(auto, using(crate::proofs::Digits::signed_as_printed))]
#[inline(always)]
pub fn push_signed_decimal<const N: usize>(text: &mut ArrayString<N>, index: i32)
    requires { length text.old.bytes + INDEX_WIDTH ≤ N }
    ensures bytes { text.new.bytes ≡ text.old.bytes ++ signed_decimal index }
    ensures within { length text.new.bytes ≤ length text.old.bytes + INDEX_WIDTH }
{
    text.push_str(itoa::Buffer::new().format(index));
}

// The line's end, byte 10.
#[inline(always)]
pub fn push_end<const N: usize>(text: &mut ArrayString<N>)
    requires { length text.old.bytes + 1 ≤ N }
    ensures { text.new.bytes ≡ text.old.bytes ++ line_end }
{
    text.push_str("\n");
}

// The decimal digits of n.
#[tactic(auto, using(crate::proofs::Digits::digits_of_32_bits))]
pub fn decimal(n: u32) -> ArrayString<NUMBER_WIDTH>
    ensures { result.bytes ≡ decimal n }
{
    let mut text = ArrayString::new();
    push_decimal(&mut text, n);
    text
}

// A viscosity of x thousandths.
pub fn viscosity(x: u32) -> ArrayString<VISCOSITY_WIDTH>
    ensures { result.bytes ≡ viscosity x }
{
    let mut text = ArrayString::new();
    push_viscosity(&mut text, x);
    text
}

// An index.
pub fn signed_decimal(index: i32) -> ArrayString<INDEX_WIDTH>
    ensures { result.bytes ≡ signed_decimal index }
{
    let mut text = ArrayString::new();
    push_signed_decimal(&mut text, index);
    text
}

// A word, a space and a number of any kind.
pub fn worded<const N: usize>(word: &str, number: &str) -> ArrayString<N>
    requires { length word.now + 1 + length number.now ≤ N }
    ensures { result.bytes ≡ worded word.now number.now }
{
    let mut text = ArrayString::new();
    text.push_str(word);
    text.push_str(SPACE);
    text.push_str(number);
    text
}

// A line's fields with the line's end.
pub fn ended<const N: usize>(mut line: ArrayString<N>) -> ArrayString<N>
    requires { length line.bytes + 1 ≤ N }
    ensures { result.bytes ≡ line.entry.bytes ++ line_end }
{
    push_end(&mut line);
    line
}
