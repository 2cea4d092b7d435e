// The span of the index as C has it: a number, and a lent row of two numbers with sign for the least and the greatest index. A crate of its own below the C calls
// and above the span, so that its must-fail edits prove neither the span nor the pair and the sheet again.
#![tactic(auto)]

ghost use Rattle.std.specs.Prelude.{◌≡◌};
ghost use Rattle.span_row.specs.SpanCall.{row_number, row_after, SpanCall};

// How many numbers a row has.
const ROW_SIZE: usize = 2;

// What is answered where the lent row is not just two numbers.
const NOT_A_ROW: u32 = 5;

// What is answered where no question refuses.
const ANSWERED: u32 = 0;

// Fills a row with the span of limits. A row that is not just two numbers is left as it is, and 5 is answered; a refusal leaves it as it is too. The limits are
// the plain numbers that C hands over, and the row is the memory that it lends.
#[tactic(auto, unfolding(crate::specs::SpanCall::row_number, crate::specs::SpanCall::row_after))]
pub fn fill_row(u1: u32, u2: u32, y1: u32, y2: u32, row: &mut [i32]) -> u32
    ensures number { result ≡ row_number row.old u1 u2 y1 y2 }
    ensures numbers { row.new ≡ row_after row.old u1 u2 y1 y2 }
    ensures right { SpanCall u1 u2 y1 y2 row.old result row.new }
{
    let Some(row) = row.as_mut_array::<ROW_SIZE>() else {
        return NOT_A_ROW;
    };
    match span::answer_span(u1, u2, y1, y2) {
        // C lends a row and reads a number: the refusal is answered by its number.
        Err(refusal) => u32::from(u8::from(refusal)),
        Ok(span) => {
            *row = [span.least, span.greatest];
            ANSWERED
        }
    }
}
