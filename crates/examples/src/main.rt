// All pairs and sheets of document 01's 'Pairs and sheets to try', with exactly a half as change request #106 has it, constants of change request #101 on both
// sides of each limit and at values worked by hand, writings of #108, spans of #107, and a tray of change requests #102, #104 and #105 from empty to full, through
// the public operations: each line names an example and what the document says of it, and ends in "ok" where the operation answers just that, in "WRONG" where it
// does not.
#![tactic(auto)]

mod spans;
mod trays;
mod writings;

ghost use Rattle.std.specs.Prelude.{◌<◌};
ghost use Rattle.sheet.specs.Sheet.{header_size};

use gravity_constant::{Temperature, answer_constant};
use index::{Index, Mark, answer_pair};
use reference::answer_basis;
use sheet::layout::{HEADER_SIZE, PAIRS_AT, RESULTS_AT};
use std::io;

pub fn told(rt: &impl Print, example: &str, good: bool) -> io::Result<()> {
    let found = if good { "ok" } else { "WRONG" };
    println!(rt; "{example}: {found}")
}

// An answer whose refusal is the number that the documents give it.
pub fn numbered<T, E>(answer: Result<T, E>) -> Result<T, u8>
where
    u8: From<E>,
{
    answer.map_err(u8::from)
}

// L or H, in units of 10^-10 mm²/s; None where y is refused. One function with the field for a parameter would be no plainer: it would be a closure at each call.
fn l_of(y: u32) -> Option<u64> {
    answer_basis(y).ok().map(|basis| basis.l)
}

fn h_of(y: u32) -> Option<u64> {
    answer_basis(y).ok().map(|basis| basis.h)
}

// Is it an answer by B with that index and that mark?
pub fn by_b<E: Drop>(answer: Result<Index, E>, index: u32, mark: Mark) -> bool {
    match answer {
        Ok(Index::B(b)) => b.index == index && b.mark == mark,
        _ => false,
    }
}

// Is the constant answered, with that k in thousandths?
fn constant_is(t: Temperature, viscosity: u32, density: u32, k: i32) -> bool {
    answer_constant(t, viscosity, density).is_ok_and(|found| found.thousandths == k)
}

// Is the constant refused by that number?
fn constant_refused(t: Temperature, viscosity: u32, density: u32, number: u8) -> bool {
    numbered(answer_constant(t, viscosity, density)) == Err(number)
}

// A sheet that is a header and nothing else: n 0, offsets 16 and 16, total 16.
pub fn header_alone() -> [u8; HEADER_SIZE] {
    [0, 0, 0, 0, 16, 0, 0, 0, 16, 0, 0, 0, 16, 0, 0, 0]
}

// Is a header alone, with the byte `x` at `at`, answered by that count of pairs or refused by that number, and kept?
fn sheet_answers(at: usize, x: u8, expected: Result<u32, u8>) -> bool
    requires { at < header_size }
{
    let mut handed = header_alone();
    handed[at] = x;
    let mut worked = handed;
    numbered(sheet::work_sheet(&mut worked)) == expected && handed == worked
}

fn l_and_h(rt: &impl Print) -> io::Result<()> {
    told(
        rt,
        "y 8860: L 119.94",
        l_of(8_860) == Some(1_199_400_000_000),
    )?;
    told(rt, "y 8860: H 69.48", h_of(8_860) == Some(694_800_000_000))?;
    told(rt, "y 5050: H 28.975", h_of(5_050) == Some(289_750_000_000))?;
    told(
        rt,
        "y 70000: L 4905",
        l_of(70_000) == Some(49_050_000_000_000),
    )?;
    told(
        rt,
        "y 70000: H 1556",
        h_of(70_000) == Some(15_560_000_000_000),
    )?;
    told(
        rt,
        "y 70001: L 49040016128353 units",
        l_of(70_001) == Some(49_040_016_128_353),
    )?;
    told(
        rt,
        "y 70001: L below the row at 70",
        l_of(70_001) < l_of(70_000),
    )?;
    Ok(())
}

fn answered_pairs(rt: &impl Print) -> io::Result<()> {
    told(
        rt,
        "(73300, 8860): A 92",
        answer_pair(73_300, 8_860) == Ok(Index::A(92)),
    )?;
    told(
        rt,
        "(53470, 7080): A 87",
        answer_pair(53_470, 7_080) == Ok(Index::A(87)),
    )?;
    told(
        rt,
        "(53470, 7800): B 111",
        by_b(answer_pair(53_470, 7_800), 111, Mark::Settled),
    )?;
    told(
        rt,
        "(28490, 5000): A 100",
        answer_pair(28_490, 5_000) == Ok(Index::A(100)),
    )?;
    told(
        rt,
        "(28489, 5000): B 100",
        by_b(answer_pair(28_489, 5_000), 100, Mark::Settled),
    )?;
    told(
        rt,
        "(1000000000, 2000): A -62499500",
        answer_pair(1_000_000_000, 2_000) == Ok(Index::A(-62_499_500)),
    )?;
    told(
        rt,
        "(6188000, 100000): A 50",
        answer_pair(6_188_000, 100_000) == Ok(Index::A(50)),
    )?;
    Ok(())
}

// By A with an exact index of 0.5, 1.5, -1.5 and -2.5: exactly a half goes to the even number, on both sides of zero.
fn exact_halves(rt: &impl Print) -> io::Result<()> {
    told(
        rt,
        "(7986, 2000), exactly 0.5: A 0",
        answer_pair(7_986, 2_000) == Ok(Index::A(0)),
    )?;
    told(
        rt,
        "(7970, 2000), exactly 1.5: A 2",
        answer_pair(7_970, 2_000) == Ok(Index::A(2)),
    )?;
    told(
        rt,
        "(8018, 2000), exactly -1.5: A -2",
        answer_pair(8_018, 2_000) == Ok(Index::A(-2)),
    )?;
    told(
        rt,
        "(8034, 2000), exactly -2.5: A -2",
        answer_pair(8_034, 2_000) == Ok(Index::A(-2)),
    )?;
    Ok(())
}

fn refused_pairs(rt: &impl Print) -> io::Result<()> {
    told(
        rt,
        "L and H at y 1999: refused 1",
        numbered(answer_basis(1_999)) == Err(1),
    )?;
    told(
        rt,
        "(20000, 1999): refused 1",
        numbered(answer_pair(20_000, 1_999)) == Err(1),
    )?;
    told(
        rt,
        "L and H at y 500001: refused 2",
        numbered(answer_basis(500_001)) == Err(2),
    )?;
    told(
        rt,
        "(600000, 500001): refused 2",
        numbered(answer_pair(600_000, 500_001)) == Err(2),
    )?;
    told(
        rt,
        "(1000000001, 2000): refused 3",
        numbered(answer_pair(1_000_000_001, 2_000)) == Err(3),
    )?;
    told(
        rt,
        "(2000, 2000): refused 4",
        numbered(answer_pair(2_000, 2_000)) == Err(4),
    )?;
    Ok(())
}

fn sheets(rt: &impl Print) -> io::Result<()> {
    told(
        rt,
        "16 bytes, n 0, offsets 16 and 16, total 16: accepted, unchanged",
        sheet_answers(PAIRS_AT, 16, Ok(0)),
    )?;
    told(
        rt,
        "pair offset 17 there: refused 14",
        sheet_answers(PAIRS_AT, 17, Err(14)),
    )?;
    told(
        rt,
        "only the result offset 17: refused 15",
        sheet_answers(RESULTS_AT, 17, Err(15)),
    )?;
    Ok(())
}

fn constants_at_40(rt: &impl Print) -> io::Result<()> {
    told(
        rt,
        "constant at 40, viscosity 9500, density 8700: 840",
        constant_is(Temperature::At40, 9_500, 8_700, 840),
    )?;
    told(
        rt,
        "constant at 40, viscosity 46000, density 8750: 815",
        constant_is(Temperature::At40, 46_000, 8_750, 815),
    )?;
    told(
        rt,
        "constant at 40, viscosity 6500, density 8600: 844",
        constant_is(Temperature::At40, 6_500, 8_600, 844),
    )?;
    told(
        rt,
        "constant at 40, viscosity 1000000000, density 5000: -905",
        constant_is(Temperature::At40, 1_000_000_000, 5_000, -905),
    )?;
    told(
        rt,
        "constant at 40, viscosity 5501, density 15000: 1405",
        constant_is(Temperature::At40, 5_501, 15_000, 1_405),
    )?;
    told(
        rt,
        "constant at 40, viscosity 1000000000, density 15000: 2592",
        constant_is(Temperature::At40, 1_000_000_000, 15_000, 2_592),
    )?;
    Ok(())
}

fn constants_at_100(rt: &impl Print) -> io::Result<()> {
    told(
        rt,
        "constant at 100, viscosity 2500, density 8700: 835",
        constant_is(Temperature::At100, 2_500, 8_700, 835),
    )?;
    told(
        rt,
        "constant at 100, viscosity 1800, density 9000: 880",
        constant_is(Temperature::At100, 1_800, 9_000, 880),
    )?;
    told(
        rt,
        "constant at 100, viscosity 801, density 5000: 645",
        constant_is(Temperature::At100, 801, 5_000, 645),
    )?;
    told(
        rt,
        "constant at 100, viscosity 500000, density 15000: 1650",
        constant_is(Temperature::At100, 500_000, 15_000, 1_650),
    )?;
    Ok(())
}

fn refused_constants(rt: &impl Print) -> io::Result<()> {
    told(
        rt,
        "constant at 40, viscosity 5500, density 8700: refused 21",
        constant_refused(Temperature::At40, 5_500, 8_700, 21),
    )?;
    told(
        rt,
        "constant at 40, viscosity 1000000001, density 8700: refused 21",
        constant_refused(Temperature::At40, 1_000_000_001, 8_700, 21),
    )?;
    told(
        rt,
        "constant at 100, viscosity 800, density 8700: refused 21",
        constant_refused(Temperature::At100, 800, 8_700, 21),
    )?;
    told(
        rt,
        "constant at 100, viscosity 500001, density 8700: refused 21",
        constant_refused(Temperature::At100, 500_001, 8_700, 21),
    )?;
    told(
        rt,
        "constant at 40, viscosity 9500, density 4999: refused 22",
        constant_refused(Temperature::At40, 9_500, 4_999, 22),
    )?;
    told(
        rt,
        "constant at 40, viscosity 9500, density 15001: refused 22",
        constant_refused(Temperature::At40, 9_500, 15_001, 22),
    )?;
    told(
        rt,
        "constant at 40, viscosity 5500, density 4999: refused 21",
        constant_refused(Temperature::At40, 5_500, 4_999, 21),
    )?;
    Ok(())
}

fn main(rt: HostRuntime) -> io::Result<()> {
    l_and_h(&rt)?;
    answered_pairs(&rt)?;
    exact_halves(&rt)?;
    refused_pairs(&rt)?;
    sheets(&rt)?;
    constants_at_40(&rt)?;
    constants_at_100(&rt)?;
    refused_constants(&rt)?;
    writings::writings(&rt)?;
    spans::spans(&rt)?;
    trays::trays(&rt)
}
