// The answer to a pair of kinematic viscosities: questions 1 to 4, procedure A at or above H, procedure B below it. A module for each: `questions`,
// `procedure_a`, `procedure_b`; `pair` puts them together, and `answer` says what an answer is. The functions that hand out the four tables of the
// crates below are handed on for whoever wants to read a table; no function here calls them.
#![tactic(auto)]

pub mod answer;
mod pair;
pub mod procedure_a;
pub mod procedure_b;
mod questions;

pub use answer::{Answer, Index};
pub use logarithm::{LOG_TABLE_SIZE, first_table, second_table};
pub use pair::answer_pair;
pub use reference::{ROWS_TABLE_SIZE, Refusal, rows_table};
pub use shown_index::{ByB, Mark, THRESHOLDS_TABLE_SIZE, thresholds_table};
