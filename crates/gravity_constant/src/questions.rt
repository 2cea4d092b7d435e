// Questions 21 and 22.
ghost use Rattle.std.specs.Prelude.{◌≡◌};
ghost use Rattle.gravity_constant.specs.Questions.{number_of_refusal, least_viscosity, greatest_viscosity, least_density, greatest_density, asked_viscosity, asked_density, asked_of};
ghost use Rattle.gravity_constant.specs.declared.questions.Temperature.TheVariants.{At40, At100};

use std::marker::Model;

// Why an oil is refused, by the number of the question that is answered no.
#[derive(Clone, Copy, Debug, PartialEq, Eq)]
pub enum Refusal {
    // "21 viscosity outside its temperature's range"
    ViscosityOutside = 21,

    // "22 density outside"
    DensityOutside = 22,

    // "23 the divisor not above zero at one of the fractions"
    DivisorNotAboveZero = 23,
}

impl From<Refusal> for u8 {
    ghost from_gives = { λ refusal number. number ≡ number_of_refusal refusal };

    fn from(refusal: Refusal) -> u8 {
        refusal as u8
    }
}

// The temperature at which the viscosity was measured.
#[derive(Clone, Copy, Debug, PartialEq, Eq)]
pub enum Temperature {
    At40,
    At100,
}

// A kinematic viscosity within the range of its temperature, in thousandths of a mm²/s.
#[derive(Clone, Copy, Debug, PartialEq, Eq)]
pub struct Viscosity {
    pub temperature: Temperature,
    pub thousandths: u32,
}

impl Model for Viscosity {
    ghost use Rattle.std.specs.Prelude.{◌≤◌};
    ghost use Rattle.gravity_constant.specs.Viscosity.{KinematicViscosity};

    ghost Value = { KinematicViscosity };

    ghost use Rattle.gravity_constant.specs.Questions.{least_viscosity, greatest_viscosity};

    ghost view = { λ v. record { temperature = v.temperature; thousandths = v.thousandths } };

    ghost invariant = { λ v. (least_viscosity v.temperature ≤ v.thousandths) × (v.thousandths ≤ greatest_viscosity v.temperature) };

    ghost inverse = { λ v. record { temperature = v.temperature; thousandths = v.thousandths } };
}

impl Viscosity {
    pub const LEAST_AT_40: u32 = 5_501;

    pub const GREATEST_AT_40: u32 = 1_000_000_000;

    pub const LEAST_AT_100: u32 = 801;

    pub const GREATEST_AT_100: u32 = 500_000;

    // Question 21.
    pub fn new(temperature: Temperature, v: u32) -> Result<Self, Refusal>
        ensures value { result ≡ asked_viscosity temperature v }
        ensures least40 { Viscosity.LEAST_AT_40 ≡ least_viscosity At40 }
        ensures greatest40 { Viscosity.GREATEST_AT_40 ≡ greatest_viscosity At40 }
        ensures least100 { Viscosity.LEAST_AT_100 ≡ least_viscosity At100 }
        ensures greatest100 { Viscosity.GREATEST_AT_100 ≡ greatest_viscosity At100 }
    {
        let limits = temperature.limits();
        if v < limits.least || limits.greatest < v {
            return Err(Refusal::ViscosityOutside);
        }
        Ok(Viscosity {
            temperature,
            thousandths: v,
        })
    }
}

// Between which numbers the viscosity at a temperature lies.
#[derive(Clone, Copy)]
struct Limits {
    least: u32,
    greatest: u32,
}

impl Temperature {
    fn limits(self) -> Limits
        ensures { (result.least ≡ least_viscosity self) × (result.greatest ≡ greatest_viscosity self) }
    {
        let (least, greatest) = match self {
            Temperature::At40 => (Viscosity::LEAST_AT_40, Viscosity::GREATEST_AT_40),
            Temperature::At100 => (Viscosity::LEAST_AT_100, Viscosity::GREATEST_AT_100),
        };
        Limits { least, greatest }
    }
}

// A density at 15 °C, in 0.0001 g/ml.
#[derive(Clone, Copy, Debug, PartialEq, Eq)]
pub struct Density {
    pub tenthousandths: u32,
}

impl Model for Density {
    ghost use Rattle.std.specs.Prelude.{ℕ, ◌≤◌};

    ghost Value = { ℕ };

    ghost use Rattle.gravity_constant.specs.Questions.{least_density, greatest_density};

    ghost view = { λ d. d.tenthousandths };

    ghost invariant = { λ d. (least_density ≤ d.tenthousandths) × (d.tenthousandths ≤ greatest_density) };

    ghost inverse = { λ n. record { tenthousandths = n } };
}

impl Density {
    pub const LEAST: u32 = 5_000;

    pub const GREATEST: u32 = 15_000;

    // Question 22.
    pub fn new(d: u32) -> Result<Self, Refusal>
        ensures value { result ≡ asked_density d }
        ensures least { Density.LEAST ≡ least_density }
        ensures greatest { Density.GREATEST ≡ greatest_density }
    {
        if d < Density::LEAST || Density::GREATEST < d {
            return Err(Refusal::DensityOutside);
        }
        Ok(Density { tenthousandths: d })
    }
}

// An oil whose viscosity and density are within their limits.
#[derive(Clone, Copy, Debug, PartialEq, Eq)]
pub struct Oil {
    pub viscosity: Viscosity,
    pub density: Density,
}

// Questions 21 and 22: the constructors ask them.
#[tactic(auto, unfolding(crate::specs::Questions::asked_of))]
pub fn ask(t: Temperature, v: u32, d: u32) -> Result<Oil, Refusal>
    ensures { result ≡ asked_of t v d }
{
    let viscosity = Viscosity::new(t, v)?;
    let density = Density::new(d)?;
    Ok(Oil { viscosity, density })
}
