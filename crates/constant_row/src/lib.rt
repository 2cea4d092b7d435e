// The answer to the viscosity-gravity constant as C has it: a number, and a lent row of three numbers with sign for k and the numerators of the two
// fractions. A crate of its own below the C calls, so that its must-fail edits do not prove the pair and the sheet again.
#![tactic(auto)]

ghost use Rattle.std.specs.Prelude.{◌≡◌};
ghost use Rattle.constant_row.specs.ConstantCall.{row_number, row_after, ConstantCall};

use gravity_constant::Temperature;

// How many numbers a row has.
const ROW_SIZE: usize = 3;

// What is answered where the lent row is not just three numbers.
const NOT_A_ROW: u32 = 5;

// What is answered where no question refuses.
const ANSWERED: u32 = 0;

// Fills a row with the constant at a temperature. A row that is not just three numbers is left as it is, and 5 is answered; a refusal leaves it as it
// is too. v and d are the plain numbers that C hands over, and the row is the memory that it lends.
#[tactic(auto, unfolding(crate::specs::ConstantCall::row_number, crate::specs::ConstantCall::row_after))]
pub fn fill_row(t: Temperature, v: u32, d: u32, row: &mut [i32]) -> u32
    ensures number { result ≡ row_number row.old t v d }
    ensures numbers { row.new ≡ row_after row.old t v d }
    ensures right { ConstantCall t v d row.old result row.new }
{
    let Some(row) = row.as_mut_array::<ROW_SIZE>() else {
        return NOT_A_ROW;
    };
    match gravity_constant::answer_constant(t, v, d) {
        // C lends a row and reads a number: the refusal is answered by its number.
        Err(refusal) => u32::from(u8::from(refusal)),
        Ok(c) => {
            *row = [c.thousandths, c.lower, c.upper];
            ANSWERED
        }
    }
}
