// A sample as the numbers of a place, and back: the answer by its method, with the index in two's complement.
ghost use Rattle.std.specs.Prelude.{◌≡◌};
ghost use Rattle.tray_places.specs.Samples.{mark_from, answer_from, sample_of, place_of};

use answer_record::Record;
use index::answer::{METHOD_A, METHOD_B_SETTLED};
use index::{Answer, Index, Refusal};
use shown_index::{ByB, Mark};

// A sample: its number, its pair and its answer, as a pair's own unless another type of refusals is named.
#[derive(Clone, Copy, Debug, PartialEq, Eq)]
pub struct Sample<R = Refusal> {
    pub number: u32,
    pub u: u32,
    pub y: u32,
    pub answer: Result<Index, R>,
}

// A sample as a place has it: the method, 0 where the place is free; the number; the pair; the index as 32 bits; p and P.
#[derive(Clone, Copy, Debug, PartialEq, Eq)]
pub struct Place {
    pub method: u32,
    pub number: u32,
    pub u: u32,
    pub y: u32,
    pub index: u32,
    pub lower: u32,
    pub upper: u32,
}

// The mark under a method of procedure B. The caller lends the memory, and any numbers are some tray: so every method has a reading, and none is refused.
fn mark_from(method: u32) -> Mark
    ensures { result ≡ mark_from method }
{
    if method == u32::from(METHOD_B_SETTLED) {
        return Mark::Settled;
    }
    Mark::Near
}

impl Place {
    // The answer that a place says.
    #[tactic(auto, using(crate::proofs::Signs::read_signed), unfolding(crate::specs::Samples::answer_from))]
    pub fn answer(self) -> Answer
        ensures { result ≡ answer_from self.method self.index self.lower self.upper }
    {
        if self.method == u32::from(METHOD_A) {
            return Ok(Index::A(self.index.cast_signed()));
        }
        Ok(Index::B(ByB {
            index: self.index,
            mark: mark_from(self.method),
            lower: self.lower,
            upper: self.upper,
        }))
    }
}

// The sample that a place says.
impl From<Place> for Sample {
    ghost from_gives = { λ place sample. sample ≡ sample_of place };

    fn from(place: Place) -> Sample {
        Sample {
            number: place.number,
            u: place.u,
            y: place.y,
            answer: place.answer(),
        }
    }
}

// The place that says a sample.
impl<R: Copy + Into<u8>> From<Sample<R>> for Place {
    ghost from_gives = { λ sample place. place ≡ place_of sample };

    #[tactic(auto, unfolding(crate::specs::Samples::place_of))]
    fn from(sample: Sample<R>) -> Place {
        let fields = Record::from(sample.answer);
        Place {
            method: u32::from(fields.method),
            number: sample.number,
            u: sample.u,
            y: sample.y,
            index: fields.index,
            lower: fields.lower,
            upper: fields.upper,
        }
    }
}
