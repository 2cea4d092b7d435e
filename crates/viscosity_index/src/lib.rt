// What C calls: the pair and the sheet operation on numbers and bytes, the viscosity-gravity constant and the span of the index on numbers, and the tray on
// lent memories. The header is include/viscosity_index.h. C reads what is answered: a refusal is its number here. And C hands over plain numbers and lent
// memories, each by itself.
#![tactic(auto)]

ghost use Rattle.std.specs.Prelude.{◌≡◌, length};
ghost use Rattle.gravity_constant.specs.declared.questions.Temperature.TheVariants.{At40, At100};
ghost use Rattle.constant_row.specs.ConstantCall.{row_number, row_after, ConstantCall};
ghost use Rattle.span_row.specs.SpanCall as span;
ghost use Rattle.span_row.specs.SpanCall.{SpanCall};
ghost use Rattle.sheet.specs.Sheet.{sheet_refusal, sheet_after, sheet_number_of};
ghost use Rattle.sheet.specs.Demand3.{Demand3};
ghost use Rattle.sheet_writer.specs.Questions.{writing_refusal};
ghost use Rattle.sheet_writer.specs.Writing.{buffer_after};
ghost use Rattle.sheet_writer.specs.RightWriting.{RightWriting};
ghost use Rattle.tray_calls.specs.TrayCalls.{put_number, tray_put, record_put, take_number, tray_taken, pair_taken, record_taken, summary_number, summary_after};
ghost use Rattle.viscosity_index.specs.PairCall.{pair_number, record_after, PairCall};

use answer_record::layout::RESULT_SIZE;
use gravity_constant::Temperature;
use index::answer::number_of;

// What the pair call answers where the lent record is not 16 bytes.
const NOT_A_RECORD: u32 = 5;

// What the sheet call answers where no question refuses.
const ACCEPTED: u32 = 0;

// What the writing call answers where none does.
const WRITTEN: u32 = 0;

// The answer to a pair, as one record. A record that is not 16 bytes is left as it is, and 5 is answered.
#[unsafe(no_mangle)]
pub extern "C" fn vi_pair(u: u32, y: u32, record: &mut [u8]) -> u32
    ensures number { result ≡ pair_number «record».old u y }
    ensures bytes { «record».new ≡ record_after «record».old u y }
    ensures right { PairCall u y «record».old result «record».new }
{
    if record.len() != RESULT_SIZE {
        return NOT_A_RECORD;
    }
    let answer = index::answer_pair(u, y);
    answer_record::write_result(record, 0, answer);
    u32::from(number_of(answer))
}

// Works a sheet. The count of its pairs stands in its header, so the number is all that is answered.
#[unsafe(no_mangle)]
#[tactic(auto, using(crate::proofs::Calls::sheet_number))]
pub extern "C" fn vi_sheet(sheet: &mut [u8]) -> u32
    ensures number { result ≡ sheet_refusal sheet.old }
    ensures bytes { sheet.new ≡ sheet_after sheet.old }
    ensures demand3 { Demand3 sheet.old sheet.new }
{
    match sheet::work_sheet(sheet) {
        Err(refusal) => u32::from(u8::from(refusal)),
        Ok(_) => ACCEPTED,
    }
}

// Writes the sheet of a row of numbers, u then y of each pair, into a buffer that is just as long. A refused writing leaves the buffer as it is.
#[unsafe(no_mangle)]
#[tactic(auto, using(crate::proofs::Calls::number_of_writing, crate::proofs::Calls::right_writing))]
pub extern "C" fn vi_write_sheet(row: &[u32], buffer: &mut [u8]) -> u32
    ensures number { result ≡ writing_refusal row.now (length buffer.old) }
    ensures bytes { buffer.new ≡ buffer_after row.now buffer.old }
    ensures right { RightWriting row.now buffer.old buffer.new result }
{
    match sheet_writer::write_sheet(row, buffer) {
        Err(refusal) => u32::from(u8::from(refusal)),
        Ok(()) => WRITTEN,
    }
}

// The viscosity-gravity constant from the viscosity at 40 °C, as a row of three numbers. A row of another length is left as it is, and 5 is answered; a
// refusal leaves it as it is too.
#[unsafe(no_mangle)]
pub extern "C" fn vi_constant_40(viscosity: u32, density: u32, row: &mut [i32]) -> u32
    ensures number { result ≡ row_number row.old At40 viscosity density }
    ensures numbers { row.new ≡ row_after row.old At40 viscosity density }
    ensures right { ConstantCall At40 viscosity density row.old result row.new }
{
    constant_row::fill_row(Temperature::At40, viscosity, density, row)
}

// The same from the viscosity at 100 °C: C calls each by its name.
#[unsafe(no_mangle)]
pub extern "C" fn vi_constant_100(viscosity: u32, density: u32, row: &mut [i32]) -> u32
    ensures number { result ≡ row_number row.old At100 viscosity density }
    ensures numbers { row.new ≡ row_after row.old At100 viscosity density }
    ensures right { ConstantCall At100 viscosity density row.old result row.new }
{
    constant_row::fill_row(Temperature::At100, viscosity, density, row)
}

// The span of the index where both viscosities are known within limits, as a row of two numbers. A row of another length is left as it is, and 5 is answered; a
// refusal leaves it as it is too.
#[unsafe(no_mangle)]
pub extern "C" fn vi_span(u1: u32, u2: u32, y1: u32, y2: u32, row: &mut [i32]) -> u32
    ensures number { result ≡ span.row_number row.old u1 u2 y1 y2 }
    ensures numbers { row.new ≡ span.row_after row.old u1 u2 y1 y2 }
    ensures right { SpanCall u1 u2 y1 y2 row.old result row.new }
{
    span_row::fill_row(u1, u2, y1, y2, row)
}

// Puts a sample into a lent tray: the pair's answer as one record. A refused call leaves the tray and the record as they are.
#[unsafe(no_mangle)]
#[tactic(auto, unfolding(crate::specs::PairCall::record_after))]
pub extern "C" fn vi_tray_put(
    tray: &mut [u32],
    number: u32,
    u: u32,
    y: u32,
    record: &mut [u8],
) -> u32
    ensures number { result ≡ put_number tray.old «record».old number u y }
    ensures numbers { tray.new ≡ tray_put tray.old «record».old number u y }
    ensures bytes { «record».new ≡ record_put tray.old «record».old number u y }
{
    let mut filled: [u8; RESULT_SIZE] = [0; RESULT_SIZE];
    vi_pair(u, y, &mut filled);
    tray_calls::put_answered(tray, number, u, y, &filled, record)
}

// Takes a sample out of a lent tray: its pair, and its answer as one record. A refused call leaves all three as they are.
#[unsafe(no_mangle)]
pub extern "C" fn vi_tray_take(
    tray: &mut [u32],
    number: u32,
    pair: &mut [u32],
    record: &mut [u8],
) -> u32
    ensures number { result ≡ take_number tray.old pair.old «record».old number }
    ensures numbers { tray.new ≡ tray_taken tray.old pair.old «record».old number }
    ensures pair { pair.new ≡ pair_taken tray.old pair.old «record».old number }
    ensures bytes { «record».new ≡ record_taken tray.old pair.old «record».old number }
{
    tray_calls::take_sample(tray, number, pair, record)
}

// The summary that a lent tray keeps, as a row of seven numbers: all zeros where none is counted. Where the tray or the row has not its size, 5 is answered
// and the row is left as it is.
#[unsafe(no_mangle)]
pub extern "C" fn vi_tray_summary(tray: &[u32], row: &mut [i64]) -> u32
    ensures number { result ≡ summary_number tray.now row.old }
    ensures numbers { row.new ≡ summary_after tray.now row.old }
{
    tray_calls::fill_summary(tray, row)
}
