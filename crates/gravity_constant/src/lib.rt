// The viscosity-gravity constant of an oil (formulas 1 and 2 of source document 001), from its density at 15 °C and its kinematic viscosity at
// 40 °C or at 100 °C. A module for each step: `questions` asks 21 and 22; `fractions` encloses the logarithm; `formula` has the formulas, and k at
// a fraction; `answer` puts them together, after question 23.
//
// All is calculated on whole numbers from 0 up, on 64 bits. The logarithm runs from −3 to 6, so n = f + 3·Q stands in the place of the numerator f; the
// constant runs from −905 to 2592 thousandths, so it is counted from −1000. The signs come at the end.
#![tactic(auto)]

mod answer;
mod formula;
mod fractions;
mod questions;

pub use answer::{Constant, answer_constant};
pub use logarithm::{LOG_TABLE_SIZE, first_table, second_table};
pub use questions::{Density, Refusal, Temperature, Viscosity};
