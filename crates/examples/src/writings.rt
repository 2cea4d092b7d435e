// Writings of change request #108: the empty list, the three pairs of document 01's 'The printing program', which are worked and read back, and rows and buffers on
// both sides of what each question asks.
use crate::{header_alone, numbered, told};
use sheet::layout::{HEADER_SIZE, PAIR_SIZE};
use sheet_writer::write_sheet;
use std::io;

// What a buffer holds before it is written: old bytes.
const OLD: u8 = 170;

const THREE_PAIRS: [u32; 6] = [73_300, 8_860, 22_830, 5_050, 20_000, 1_999];

// The header of their sheet, and the pairs.
const THREE_WRITTEN: [u8; HEADER_SIZE + 3 * PAIR_SIZE] = [
    3, 0, 0, 0, 16, 0, 0, 0, 40, 0, 0, 0, 88, 0, 0, 0, 84, 30, 1, 0, 156, 34, 0, 0, 46, 89, 0, 0,
    186, 19, 0, 0, 32, 78, 0, 0, 207, 7, 0, 0,
];

// Is the empty list written as a header alone, which is accepted and stays as it is?
fn empty_is_written() -> bool {
    let mut buffer = [OLD; HEADER_SIZE];
    let written = write_sheet(&[], &mut buffer).is_ok();
    let mut worked = buffer;
    written
        && buffer == header_alone()
        && sheet::work_sheet(&mut worked) == Ok(0)
        && worked == buffer
}

// Are the three pairs written, with zeros behind them, and do they stand there when the sheet is worked?
fn three_are_written() -> bool {
    let mut buffer = [OLD; 88];
    let written = write_sheet(&THREE_PAIRS, &mut buffer).is_ok();
    let zeros = buffer.last_chunk() == Some(&[0; 48]);
    let before = buffer.first_chunk() == Some(&THREE_WRITTEN);
    let worked = sheet::work_sheet(&mut buffer) == Ok(3);
    written && zeros && before && worked && buffer.first_chunk() == Some(&THREE_WRITTEN)
}

// Is a writing into a buffer of old bytes refused by that number, and the buffer left as it was?
fn refused(row: &[u32], buffer: &mut [u8], number: u8) -> bool {
    numbered(write_sheet(row, buffer)) == Err(number) && buffer.iter().all(|byte| *byte == OLD)
}

fn written(rt: &impl Print) -> io::Result<()> {
    told(
        rt,
        "written, no pairs: a header alone, accepted and unchanged",
        empty_is_written(),
    )?;
    told(
        rt,
        "written, three pairs: 88 bytes, worked, and read back",
        three_are_written(),
    )?;
    told(
        rt,
        "written, 2000 pairs",
        write_sheet(&[0; 4_000], &mut [OLD; 48_016]).is_ok(),
    )?;
    Ok(())
}

fn refused_writings(rt: &impl Print) -> io::Result<()> {
    told(
        rt,
        "writing, one number: refused 51",
        refused(&[73_300], &mut [OLD; 16], 51),
    )?;
    told(
        rt,
        "writing, 2001 pairs: refused 52",
        refused(&[0; 4_002], &mut [OLD; 48_040], 52),
    )?;
    told(
        rt,
        "writing, 4003 numbers: refused 51",
        refused(&[0; 4_003], &mut [OLD; 48_040], 51),
    )?;
    told(
        rt,
        "writing, three pairs into 87 bytes: refused 53",
        refused(&THREE_PAIRS, &mut [OLD; 87], 53),
    )?;
    told(
        rt,
        "writing, three pairs into 89 bytes: refused 53",
        refused(&THREE_PAIRS, &mut [OLD; 89], 53),
    )?;
    Ok(())
}

pub fn writings(rt: &impl Print) -> io::Result<()> {
    written(rt)?;
    refused_writings(rt)
}
