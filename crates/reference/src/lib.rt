// L and H, the kinematic viscosities at 40 °C of the two reference oils that have an oil's viscosity at 100 °C: Table 1 of
// ASTM D2270 with straight lines between its rows, and its two quadratics above 70 mm²/s. Nothing is rounded: viscosities are
// whole numbers of thousandths of a mm²/s, L and H whole numbers of 10^-10 mm²/s.
//
// One word for one thing: the reference oils are the two oils, and the basis is L and H.
#![tactic(auto)]

ghost use Rattle.std.specs.Prelude.{◌≡◌, ◌<◌, ◌≤◌, ◌+◌, ◌*◌, ◌-◌};
ghost use Rattle.reference.specs.Viscosity.{least100, greatest100, least40, greatest40, asked100, asked40, in_units};
ghost use Rattle.reference.specs.Table1.{table1};
ghost use Rattle.reference.specs.Basis.{row_count, entry, entries_of, last_row, whole_way, place_of, InTable, straight_line, column_of, at_place, by_quadratic, source_of, basis_value, basis_of, basis_answer_of};

pub use refusal::Refusal;
pub use row::Place;
use row::find_row;
use std::marker::Model;
use table1::TABLE1;

mod refusal;
mod row;
mod table1;

// ---- the two viscosities, and the questions about one of them
//
// Two types and not a generic one: Kv100 is asked two questions and Kv40 one, each with a refusal of its own, so that of a common type only the number
// would be left. Document 01 asks for
// a constructor: that is `new`, and a `TryFrom` beside it would say the same once more.

// A kinematic viscosity at 100 °C within its limits, in thousandths of a mm²/s.
#[derive(Clone, Copy, Debug, PartialEq, Eq)]
pub struct Kv100 {
    pub thousandths: u32,
}

impl Model for Kv100 {
    ghost use Rattle.std.specs.Prelude.{ℕ, ◌≤◌};
    ghost use Rattle.reference.specs.Viscosity.{least100, greatest100};

    ghost Value = { ℕ };

    ghost view = { λ y. y.thousandths };

    ghost invariant = { λ y. (least100 ≤ y.thousandths) × (y.thousandths ≤ greatest100) };

    ghost inverse = { λ n. record { thousandths = n } };
}

impl Kv100 {
    pub const LEAST: u32 = 2_000;

    pub const GREATEST: u32 = 500_000;

    // Questions 1 and 2.
    pub fn new(y: u32) -> Result<Self, Refusal>
        ensures value { result ≡ asked100 y }
        ensures least { Kv100.LEAST ≡ least100 }
        ensures greatest { Kv100.GREATEST ≡ greatest100 }
    {
        if y < Kv100::LEAST {
            return Err(Refusal::ThinAt100);
        }
        if Kv100::GREATEST < y {
            return Err(Refusal::ThickAt100);
        }
        Ok(Kv100 { thousandths: y })
    }
}

// A kinematic viscosity at 40 °C within its limits, in thousandths of a mm²/s.
#[derive(Clone, Copy, Debug, PartialEq, Eq)]
pub struct Kv40 {
    pub thousandths: u32,
}

impl Model for Kv40 {
    ghost use Rattle.std.specs.Prelude.{ℕ, ◌≤◌};
    ghost use Rattle.reference.specs.Viscosity.{greatest40};

    ghost Value = { ℕ };

    ghost view = { λ u. u.thousandths };

    ghost invariant = { λ u. u.thousandths ≤ greatest40 };

    ghost inverse = { λ n. record { thousandths = n } };
}

impl Kv40 {
    pub const LEAST: u32 = 0;

    pub const GREATEST: u32 = 1_000_000_000;

    // Question 3. No number is below the least.
    pub fn new(u: u32) -> Result<Self, Refusal>
        ensures value { result ≡ asked40 u }
        ensures least { Kv40.LEAST ≡ least40 }
        ensures greatest { Kv40.GREATEST ≡ greatest40 }
    {
        if Kv40::GREATEST < u {
            return Err(Refusal::ThickAt40);
        }
        Ok(Kv40 { thousandths: u })
    }
}

// How many units of 10^-10 mm²/s a thousandth and a millionth of a mm²/s have.
const UNITS_PER_THOUSANDTH: u64 = 10_000_000;

const UNITS_PER_MILLIONTH: u64 = 10_000;

// Thousandths of a mm²/s in units of 10^-10 mm²/s.
pub fn in_units(thousandths: u32) -> u64
    ensures { result ≡ in_units thousandths }
{
    u64::from(thousandths) * UNITS_PER_THOUSANDTH
}

// ---- how L and H at a viscosity are found

// Which of the two reference oils: the one whose viscosity at 40 °C is L, or the one whose is H.
#[derive(Clone, Copy, Debug, PartialEq, Eq)]
pub enum ReferenceOil {
    L,
    H,
}

// The viscosity of the table's last row. The quadratics begin above it, and do not meet the table there.
pub const LAST_ROW: u32 = 70_000;

// The place of y: the row that is found, and the share of the way. y is a plain number here as in row.rt, which says why.
fn locate(y: u32) -> Place
    requires { (least100 ≤ y) × (y ≤ last_row) }
    ensures { result ≡ place_of y }
{
    find_row(y).place
}

// Where L and H at y are found: at a place of Table 1, or, above its last row, at none: there the quadratics give them. An inner function. y is a plain number: a
// `Kv100` is at most 500,000, which nothing here asks.
pub fn source_of(y: u32) -> Option<Place>
    requires { least100 ≤ y }
    ensures { result ≡ source_of y }
{
    if y <= LAST_ROW { Some(locate(y)) } else { None }
}

// ---- the value at a place of Table 1

// A row of the table is two entries, L and then H.
const ROW_COUNT: usize = 311;

const ROW_SIZE: usize = 2;

// How many entries the table has.
pub const ROWS_TABLE_SIZE: usize = ROW_SIZE * ROW_COUNT;

// The straight line from a up to b, both in thousandths, at a share of the way: in units.
#[tactic(auto, using(crate::proofs::StraightLines::straight_line_rises))]
fn straight_line(a: u32, b: u32, share: u32) -> u64
    requires { (a ≤ b) × (share ≤ whole_way) }
    ensures { result ≡ straight_line a b share }
{
    let rise = b - a;
    in_units(a) + u64::from(rise) * (u64::from(share) * UNITS_PER_MILLIONTH)
}

// A reference oil's entry of a row. The source's table is that of specs/.
#[tactic(auto, unfolding(crate::specs::Basis::entry, crate::specs::Table1::table1))]
fn entry(oil: ReferenceOil, row: usize) -> u32
    requires { row < row_count }
    ensures table { entries_of TABLE1 ≡ table1 }
    ensures value { result ≡ entry (column_of oil) row }
{
    let (l, h) = TABLE1[row];
    match oil {
        ReferenceOil::L => l,
        ReferenceOil::H => h,
    }
}

// Table 1 as a list of its entries. The source has it by rows, so that this is a copy.
#[tactic(auto, using(crate::proofs::Entries::next_row, crate::proofs::Entries::all_rows))]
pub fn rows_table() -> [u32; ROWS_TABLE_SIZE]
    ensures { result ≡ table1 }
{
    let mut entries = [0; ROWS_TABLE_SIZE];
    for row in 0..ROW_COUNT {
        entries[ROW_SIZE * row] = entry(ReferenceOil::L, row);
        entries[ROW_SIZE * row + 1] = entry(ReferenceOil::H, row);
    }
    entries
}

// L or H at a place of the table.
#[tactic(auto, using(crate::proofs::Rise::entries_rise), unfolding(crate::specs::Basis::at_place))]
fn at_place(oil: ReferenceOil, p: Place) -> u64
    requires { InTable p }
    ensures { result ≡ at_place (entry (column_of oil)) p }
{
    let a = entry(oil, p.row);
    if p.share == 0 {
        return in_units(a);
    }
    straight_line(a, entry(oil, p.row + 1), p.share)
}

// ---- the value by the quadratics

// a·y² + b·y − c. The bounds of a and b are above those of both formulas, so that all fits 64 bits.
fn quadratic(a: u64, b: u64, c: u64, y: Kv100) -> u64
    requires { (a < 10000) × (b < 150000000) × (c ≤ a * (y * y) + b * y) }
    ensures { result ≡ a * (y * y) + b * y - c }
{
    let x = u64::from(y.thousandths);
    a * (x * x) + b * x - c
}

// L or H at a y above the table: formula 1 or formula 2.
fn by_quadratic(oil: ReferenceOil, y: Kv100) -> u64
    requires { last_row < y }
    ensures { result ≡ by_quadratic oil y }
{
    match oil {
        ReferenceOil::L => quadratic(8_353, 146_700_000, 2_160_000_000_000, y),
        ReferenceOil::H => quadratic(1_684, 118_500_000, 970_000_000_000, y),
    }
}

// ---- L and H

// A viscosity at 100 °C and where its L and H are found, which is looked for once for both.
#[derive(Clone, Copy)]
pub struct Located {
    y: Kv100,
    source: Option<Place>,
}

impl Model for Located {
    ghost use Rattle.std.specs.Prelude.{ℕ, ◌≡◌};
    ghost use Rattle.std.proofs.Common.{sym, ap};
    ghost use Rattle.reference.specs.Basis.{source_of};

    ghost Value = { ℕ };

    ghost view = { λ a. a.y };

    ghost invariant = { λ a. a.source ≡ source_of a.y };

    ghost inverse = { λ y. record { y = y; source = source_of y } };

    ghost inverse_ok = { λ a h. ap (λ s. record { y = a.y; source = s }) (sym h) };
}

impl Located {
    pub fn new(y: Kv100) -> Self
        ensures { result ≡ y }
    {
        Located {
            y,
            source: source_of(y.thousandths),
        }
    }

    // L or H.
    #[tactic(auto, using(crate::proofs::Sources::value_at_place, crate::proofs::Sources::value_above))]
    pub fn value(self, oil: ReferenceOil) -> u64
        ensures { result ≡ basis_value oil self }
    {
        match self.source {
            Some(place) => at_place(oil, place),
            None => by_quadratic(oil, self.y),
        }
    }
}

// L and H in units of 10^-10 mm²/s.
#[derive(Clone, Copy, Debug, PartialEq, Eq)]
pub struct Basis {
    pub l: u64,
    pub h: u64,
}

// L and H at y.
pub fn basis_of(y: Kv100) -> Basis
    ensures { result ≡ basis_of y }
{
    let located = Located::new(y);
    Basis {
        l: located.value(ReferenceOil::L),
        h: located.value(ReferenceOil::H),
    }
}

// The request for L and H alone: any y, of which questions 1 and 2 are asked.
pub fn answer_basis(y: u32) -> Result<Basis, Refusal>
    ensures { result ≡ basis_answer_of y }
{
    Ok(basis_of(Kv100::new(y)?))
}
