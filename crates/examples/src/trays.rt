// Change requests #102, #104 and #105 from an empty tray on: what fills it, what refuses, what it says of itself, numbers of 32 bits, and the summary that it
// keeps.
use crate::{by_b, numbered, told};
use index::{Index, Mark};
use std::io;
use summary_tray::TRAY_SIZE;

// Is a sample of that pair taken out?
fn taken(tray: &mut [u32; TRAY_SIZE], number: u32, u: u32, y: u32) -> bool {
    summary_tray::take(tray, number).is_ok_and(|sample| sample.u == u && sample.y == y)
}

// Does the tray hold indices from that to that, of that sum?
fn holds(tray: &[u32; TRAY_SIZE], lowest: i64, highest: i64, sum: i64) -> bool {
    matches!(summary_tray::summary(tray), Ok(Some(t)) if t.lowest == lowest && t.highest == highest && t.sum == sum)
}

// Does it count that many by A, by B settled and by B near?
fn counts(tray: &[u32; TRAY_SIZE], a: u32, settled: u32, near: u32) -> bool {
    matches!(summary_tray::summary(tray), Ok(Some(t)) if t.a == a && t.settled == settled && t.near == near)
}

// Is oil (1000000000, 2000) taken in under each number from 0 to 63?
fn filled(tray: &mut [u32; TRAY_SIZE]) -> bool {
    (0..64).all(|number| summary_tray::put(tray, number, 1_000_000_000, 2_000).is_ok())
}

fn three_samples(rt: &impl Print, tray: &mut [u32; TRAY_SIZE]) -> io::Result<()> {
    told(
        rt,
        "a tray of zeros: empty",
        summary_tray::summary(tray) == Ok(None),
    )?;
    told(
        rt,
        "put 12 (73300, 8860): A 92",
        summary_tray::put(tray, 12, 73_300, 8_860) == Ok(Index::A(92)),
    )?;
    told(
        rt,
        "put 7 (22830, 5050): B 156",
        by_b(
            summary_tray::put(tray, 7, 22_830, 5_050),
            156,
            Mark::Settled,
        ),
    )?;
    told(
        rt,
        "put 200 (144936, 16776): B 125",
        by_b(
            summary_tray::put(tray, 200, 144_936, 16_776),
            125,
            Mark::Near,
        ),
    )?;
    told(
        rt,
        "the tray: from 92 to 156, sum 373",
        holds(tray, 92, 156, 373),
    )?;
    told(
        rt,
        "the tray: A 1, B settled 1, B near 1",
        counts(tray, 1, 1, 1),
    )?;
    told(
        rt,
        "put 12 (53470, 7080): refused 31",
        numbered(summary_tray::put(tray, 12, 53_470, 7_080)) == Err(31),
    )?;
    told(
        rt,
        "put 12 (20000, 1999): refused 1",
        numbered(summary_tray::put(tray, 12, 20_000, 1_999)) == Err(1),
    )?;
    told(rt, "take 7: (22830, 5050)", taken(tray, 7, 22_830, 5_050))?;
    told(
        rt,
        "take 7: refused 33",
        numbered(summary_tray::take(tray, 7)) == Err(33),
    )?;
    told(
        rt,
        "the tray: from 92 to 125, sum 217",
        holds(tray, 92, 125, 217),
    )?;
    told(rt, "take 12: (73300, 8860)", taken(tray, 12, 73_300, 8_860))?;
    told(
        rt,
        "take 200: (144936, 16776)",
        taken(tray, 200, 144_936, 16_776),
    )?;
    told(
        rt,
        "the tray: empty",
        summary_tray::summary(tray) == Ok(None),
    )?;
    Ok(())
}

fn full_tray(rt: &impl Print, tray: &mut [u32; TRAY_SIZE]) -> io::Result<()> {
    told(
        rt,
        "64 put in: A 64, B settled 0, B near 0",
        filled(tray) && counts(tray, 64, 0, 0),
    )?;
    told(
        rt,
        "64 of -62499500: sum -3999968000",
        holds(tray, -62_499_500, -62_499_500, -3_999_968_000),
    )?;
    told(
        rt,
        "put 64 (73300, 8860): refused 32",
        numbered(summary_tray::put(tray, 64, 73_300, 8_860)) == Err(32),
    )?;
    told(
        rt,
        "put 63 (73300, 8860): refused 31",
        numbered(summary_tray::put(tray, 63, 73_300, 8_860)) == Err(31),
    )?;
    told(
        rt,
        "put 64 (2000, 2000): refused 4",
        numbered(summary_tray::put(tray, 64, 2_000, 2_000)) == Err(4),
    )?;
    told(
        rt,
        "take 63: (1000000000, 2000)",
        taken(tray, 63, 1_000_000_000, 2_000),
    )?;
    told(
        rt,
        "put 64 (73300, 8860): A 92",
        summary_tray::put(tray, 64, 73_300, 8_860) == Ok(Index::A(92)),
    )?;
    told(
        rt,
        "the tray: from -62499500 to 92, sum -3937468408",
        holds(tray, -62_499_500, 92, -3_937_468_408),
    )?;
    Ok(())
}

// Change request #104: numbers that differ in their upper bytes only, the least and the greatest.
fn wide_numbers(rt: &impl Print, tray: &mut [u32; TRAY_SIZE]) -> io::Result<()> {
    told(
        rt,
        "put 1 (73300, 8860): A 92",
        summary_tray::put(tray, 1, 73_300, 8_860) == Ok(Index::A(92)),
    )?;
    told(
        rt,
        "put 257 (22830, 5050): B 156",
        by_b(
            summary_tray::put(tray, 257, 22_830, 5_050),
            156,
            Mark::Settled,
        ),
    )?;
    told(
        rt,
        "put 65537 (53470, 7080): A 87",
        summary_tray::put(tray, 65_537, 53_470, 7_080) == Ok(Index::A(87)),
    )?;
    told(
        rt,
        "put 16777217 (28490, 5000): A 100",
        summary_tray::put(tray, 16_777_217, 28_490, 5_000) == Ok(Index::A(100)),
    )?;
    told(
        rt,
        "put 0 (53470, 7800): B 111",
        by_b(
            summary_tray::put(tray, 0, 53_470, 7_800),
            111,
            Mark::Settled,
        ),
    )?;
    told(
        rt,
        "put 4294967295 (144936, 16776): B 125",
        by_b(
            summary_tray::put(tray, 4_294_967_295, 144_936, 16_776),
            125,
            Mark::Near,
        ),
    )?;
    told(
        rt,
        "put 4294967295 (73300, 8860): refused 31",
        numbered(summary_tray::put(tray, 4_294_967_295, 73_300, 8_860)) == Err(31),
    )?;
    told(
        rt,
        "the tray: from 87 to 156, sum 671",
        holds(tray, 87, 156, 671),
    )?;
    Ok(())
}

fn wide_numbers_taken(rt: &impl Print, tray: &mut [u32; TRAY_SIZE]) -> io::Result<()> {
    told(
        rt,
        "take 255: refused 33",
        numbered(summary_tray::take(tray, 255)) == Err(33),
    )?;
    told(
        rt,
        "take 65537: (53470, 7080)",
        taken(tray, 65_537, 53_470, 7_080),
    )?;
    told(
        rt,
        "take 257: (22830, 5050)",
        taken(tray, 257, 22_830, 5_050),
    )?;
    told(rt, "take 1: (73300, 8860)", taken(tray, 1, 73_300, 8_860))?;
    told(
        rt,
        "take 16777217: (28490, 5000)",
        taken(tray, 16_777_217, 28_490, 5_000),
    )?;
    told(
        rt,
        "take 4294967295: (144936, 16776)",
        taken(tray, 4_294_967_295, 144_936, 16_776),
    )?;
    told(
        rt,
        "take 4294967295: refused 33",
        numbered(summary_tray::take(tray, 4_294_967_295)) == Err(33),
    )?;
    told(rt, "take 0: (53470, 7800)", taken(tray, 0, 53_470, 7_800))?;
    told(
        rt,
        "the tray: empty",
        summary_tray::summary(tray) == Ok(None),
    )?;
    Ok(())
}

// Change request #105: "also when the lowest leaves while another sample has the same index", and the highest likewise. Oil (73300, 8860) has 92 and oil
// (22830, 5050) has 156, each under two numbers, and oil (28490, 5000) has 100.
fn equal_indices(rt: &impl Print, tray: &mut [u32; TRAY_SIZE]) -> io::Result<()> {
    told(
        rt,
        "put 1 (73300, 8860): A 92",
        summary_tray::put(tray, 1, 73_300, 8_860) == Ok(Index::A(92)),
    )?;
    told(
        rt,
        "put 2 (73300, 8860): A 92",
        summary_tray::put(tray, 2, 73_300, 8_860) == Ok(Index::A(92)),
    )?;
    told(
        rt,
        "put 3 (28490, 5000): A 100",
        summary_tray::put(tray, 3, 28_490, 5_000) == Ok(Index::A(100)),
    )?;
    told(
        rt,
        "put 4 (22830, 5050): B 156",
        by_b(
            summary_tray::put(tray, 4, 22_830, 5_050),
            156,
            Mark::Settled,
        ),
    )?;
    told(
        rt,
        "put 5 (22830, 5050): B 156",
        by_b(
            summary_tray::put(tray, 5, 22_830, 5_050),
            156,
            Mark::Settled,
        ),
    )?;
    told(
        rt,
        "the tray: from 92 to 156, sum 596",
        holds(tray, 92, 156, 596),
    )?;
    Ok(())
}

fn one_of_equals_taken(rt: &impl Print, tray: &mut [u32; TRAY_SIZE]) -> io::Result<()> {
    told(
        rt,
        "take 1, a lowest: (73300, 8860)",
        taken(tray, 1, 73_300, 8_860),
    )?;
    told(
        rt,
        "the tray, 92 left: from 92 to 156, sum 504",
        holds(tray, 92, 156, 504),
    )?;
    told(
        rt,
        "take 4, a highest: (22830, 5050)",
        taken(tray, 4, 22_830, 5_050),
    )?;
    told(
        rt,
        "the tray, 156 left: from 92 to 156, sum 348",
        holds(tray, 92, 156, 348),
    )?;
    told(
        rt,
        "put 2 (53470, 7080): refused 31",
        numbered(summary_tray::put(tray, 2, 53_470, 7_080)) == Err(31),
    )?;
    told(
        rt,
        "the tray: from 92 to 156, sum 348",
        holds(tray, 92, 156, 348),
    )?;
    told(
        rt,
        "the tray: A 2, B settled 1, B near 0",
        counts(tray, 2, 1, 0),
    )?;
    Ok(())
}

// The lowest leaves with no other, and comes in again; then all leave, one between the lowest and the highest first.
fn last_lowest_taken(rt: &impl Print, tray: &mut [u32; TRAY_SIZE]) -> io::Result<()> {
    told(
        rt,
        "take 2, the lowest: (73300, 8860)",
        taken(tray, 2, 73_300, 8_860),
    )?;
    told(
        rt,
        "the tray: from 100 to 156, sum 256",
        holds(tray, 100, 156, 256),
    )?;
    told(
        rt,
        "put 2 (73300, 8860) again: A 92",
        summary_tray::put(tray, 2, 73_300, 8_860) == Ok(Index::A(92)),
    )?;
    told(
        rt,
        "the tray: from 92 to 156, sum 348",
        holds(tray, 92, 156, 348),
    )?;
    told(
        rt,
        "take 3, between: (28490, 5000)",
        taken(tray, 3, 28_490, 5_000),
    )?;
    told(
        rt,
        "the tray: from 92 to 156, sum 248",
        holds(tray, 92, 156, 248),
    )?;
    told(
        rt,
        "take 5, the highest: (22830, 5050)",
        taken(tray, 5, 22_830, 5_050),
    )?;
    told(
        rt,
        "the tray: from 92 to 92, sum 92",
        holds(tray, 92, 92, 92),
    )?;
    told(
        rt,
        "take 2, the last: (73300, 8860)",
        taken(tray, 2, 73_300, 8_860),
    )?;
    told(
        rt,
        "the tray: empty",
        summary_tray::summary(tray) == Ok(None),
    )?;
    Ok(())
}

pub fn trays(rt: &impl Print) -> io::Result<()> {
    let mut tray: [u32; TRAY_SIZE] = [0; TRAY_SIZE];
    three_samples(rt, &mut tray)?;
    wide_numbers(rt, &mut tray)?;
    wide_numbers_taken(rt, &mut tray)?;
    equal_indices(rt, &mut tray)?;
    one_of_equals_taken(rt, &mut tray)?;
    last_lowest_taken(rt, &mut tray)?;
    full_tray(rt, &mut tray)
}
