// The row of Table 1 at or below a viscosity, and its spacing, by arithmetic on the viscosity alone (change request #103): nothing here is chosen by
// a branch, counted in a loop or looked up in an array. tests/row-source.sh searches this file for that, and tests/row-code.sh the machine code.
//
// The table has three ranges, whose rows are 100, 200 and 500 thousandths of a mm²/s apart. m is how many of them are not yet passed at y, y's own
// included: 3, 2 or 1. With each thousandth of a mm²/s y goes m² + 1 thousandths of the way from a row to the next: 10, 5 and 2. The rows of its range,
// prolonged to 5.0 mm²/s, have row 255 − 75·m there: 30, 105 and 180. So y stands (m² + 1)·(y − 5,000) + 255,000 − 75,000·m thousandths of the way past
// row 0. That is y + 250,000 − m·(75,000 + 5,000·m − m·y); written so no difference is below zero, and one division gives the row and the share.
ghost use Rattle.std.specs.Prelude.{◌≡◌, ◌<◌, ◌≤◌};
ghost use Rattle.reference.specs.Viscosity.{least100};
ghost use Rattle.reference.specs.Basis.{last_row};
ghost use Rattle.reference.specs.Rows.{row_found};

// Where a viscosity stands in Table 1: the row at or below it, counted from 0, and its share, which is how far it is on the way from that row to the
// next one, in thousandths of the way.
#[derive(Clone, Copy)]
pub struct Place {
    pub row: usize,
    pub share: u32,
}

// What is found of a viscosity: its place, and the spacing, which is the distance from that row to the next one, in thousandths of a mm²/s. Request #103
// asks for the spacing; L and H need the place alone.
#[derive(Clone, Copy)]
pub struct FoundRow {
    pub place: Place,
    pub spacing: u32,
}

// How many ranges there are, and where the second and the third begin.
const RANGES: u32 = 3;

const SECOND_FROM: u32 = 20_000;

const THIRD_FROM: u32 = 30_000;

// The least power of two above every viscosity of the table, and which power it is.
const STEP: u32 = 131_072;

const STEP_BITS: u32 = 17;

// Where the third range begins, and two steps.
const THIRD_AND_TWO_STEPS: i32 = (2 * STEP + THIRD_FROM) as i32;

// The spacing of the first range.
const LEAST_SPACING: u32 = 100;

// The way from a row to the next one, in the thousandths that a share is counted in.
const WHOLE_WAY: u32 = 1_000;

// The viscosity that the rows of every range are prolonged to; how far the places of two neighbouring ranges lie apart there, in thousandths of the
// way; and the part of a place that is the same for all ranges, beside y itself.
const PROLONGED_TO: u32 = 5_000;

const PLACES_APART: u32 = 75_000;

const PLACE_BASE: u32 = 250_000;

// In the functions below y is a plain number: a type for a viscosity of the table would be made for one call and read by a field at each use.

// 1 if y has reached the second range, else 0: with STEP − SECOND_FROM more y is a step or more from 20.0 on, and two nowhere in the table.
fn second_reached(y: u32) -> u32
    requires { y ≤ last_row }
    ensures { (y < 20000 → result ≡ 0) × (20000 ≤ y → result ≡ 1) }
{
    (y + (STEP - SECOND_FROM)) / STEP
}

// How many ranges are not passed, the second left out of the count: 3, and 2 from 30.0 on. y less 30.0 and two steps is below zero: −3 in whole steps,
// rounded down, and −2 from 30.0 on.
fn left_without_second(y: u32) -> u32
    requires { y ≤ last_row }
    ensures { (y < 30000 → result ≡ 3) × (30000 ≤ y → result ≡ 2) }
{
    let above = (y as i32) - THIRD_AND_TWO_STEPS;
    (0 - (above >> STEP_BITS)) as u32
}

// The row at or below y, and its spacing. `along` is how far y is past row 0, in thousandths of the way. The spacings are 1, 2 and 5 times that of the
// first range: one more than the squares of 0, 1 and 2, the ranges passed.
pub fn find_row(y: u32) -> FoundRow
    requires { (least100 ≤ y) × (y ≤ last_row) }
    ensures { result ≡ row_found y }
{
    let left = left_without_second(y) - second_reached(y);
    let short = PLACES_APART + left * PROLONGED_TO - left * y;
    let along = y + PLACE_BASE - left * short;
    let row = (along / WHOLE_WAY) as usize;
    let share = along % WHOLE_WAY;
    let passed = RANGES - left;
    let spacing = LEAST_SPACING * (passed * passed + 1);
    FoundRow {
        place: Place { row, share },
        spacing,
    }
}
