// Where are the samples of a tray? The tray is memory that the caller lends: 64 places of eight 32-bit numbers, behind which a tray of C has nine more that keep its
// summary (crate summary_tray). A place whose first number is 0 is free, whatever else it holds, so that memory of zeros is the empty tray and any numbers are some
// tray. Module `samples` says what the numbers of a place mean.
#![tactic(auto)]

mod samples;

ghost use Rattle.std.specs.Prelude.{◌≡◌, ◌+◌, ◌*◌, ◌≤◌, length};
ghost use Rattle.answer_record.specs.Bytes.{stored};
ghost use Rattle.tray_places.specs.Places.{place_size, numbers_of, freed, places_in, place_at, is_free, is_held_as, found, place_of_number, free_place};

pub use samples::{Place, Sample};

// How many places a tray has, how many numbers a place, and how many numbers the places.
pub const PLACES: usize = 64;

pub const PLACE_SIZE: usize = 8;

pub const TRAY_SIZE: usize = PLACES * PLACE_SIZE;

// Where the method and the number of a place stand in it.
const METHOD_AT: usize = 0;

const NUMBER_AT: usize = 1;

// The method of a free place, and the number that no field has taken yet. They are plain numbers, no cases of an enum: C lends the memory, memory of zeros is the
// empty tray, and any numbers in it are some tray.
const FREE: u32 = 0;

const SPARE: u32 = 0;

// The places of a tray, each as its eight numbers.
#[tactic(auto, using(crate::proofs::Searches::all_pieces))]
pub fn places_in(tray: &[u32; TRAY_SIZE]) -> &[[u32; PLACE_SIZE]]
    ensures { result.now ≡ places_in tray.now }
{
    tray.as_chunks::<PLACE_SIZE>().0
}

// What eight numbers hold as a place.
impl From<&[u32; PLACE_SIZE]> for Place {
    ghost from_gives = { λ numbers place. place ≡ place_at numbers.now 0 };

    fn from(numbers: &[u32; PLACE_SIZE]) -> Place {
        let [method, number, u, y, index, lower, upper, _spare] = *numbers;
        Place {
            method,
            number,
            u,
            y,
            index,
            lower,
            upper,
        }
    }
}

// The numbers of a place.
impl From<Place> for [u32; PLACE_SIZE] {
    ghost from_gives = { λ place numbers. numbers ≡ numbers_of place };

    #[tactic(auto, unfolding(crate::specs::Places::numbers_of))]
    fn from(place: Place) -> [u32; PLACE_SIZE] {
        [
            place.method,
            place.number,
            place.u,
            place.y,
            place.index,
            place.lower,
            place.upper,
            SPARE,
        ]
    }
}

// Stores the numbers of a place in place i. An inner function, for callers that know the place to be there; so is the next. Both write into the tray
// itself and not into one of its places as an array: what the tray is then is promised, and of `as_chunks_mut` no clause says what the memory behind it becomes.
#[tactic(auto, using(crate::proofs::Kept::numbers_stored))]
pub fn store_place(tray: &mut [u32], i: usize, place: Place)
    requires { place_size * i + place_size ≤ length tray.old }
    ensures { tray.new ≡ stored tray.old (place_size * i) (numbers_of place) }
{
    let at = PLACE_SIZE * i;
    let numbers = <[u32; PLACE_SIZE]>::from(place);
    tray[at..at + PLACE_SIZE].copy_from_slice(&numbers);
}

// Frees place i.
#[tactic(auto, unfolding(answer_record::specs::Bytes::stored, crate::specs::Places::freed))]
pub fn free(tray: &mut [u32], i: usize)
    requires { place_size * i + place_size ≤ length tray.old }
    ensures { tray.new ≡ stored tray.old (place_size * i) freed }
{
    tray[PLACE_SIZE * i] = FREE;
}

// Is a place free?
pub fn is_free(place: &[u32; PLACE_SIZE]) -> bool
    ensures { result ≡ is_free place.now 0 }
{
    place[METHOD_AT] == FREE
}

// Is a sample of that number held in a place? All 32 bits are compared.
fn is_held_as(place: &[u32; PLACE_SIZE], number: u32) -> bool
    ensures { result ≡ is_held_as place.now number 0 }
{
    !is_free(place) && place[NUMBER_AT] == number
}

// The place of the sample of that number, the first if there are several.
pub fn place_of_number(tray: &[u32; TRAY_SIZE], number: u32) -> Option<usize>
    ensures { result ≡ found (place_of_number tray.now number) }
{
    places_in(tray)
        .iter()
        .position(|place| is_held_as(place, number))
}

// The first free place.
pub fn free_place(tray: &[u32; TRAY_SIZE]) -> Option<usize>
    ensures { result ≡ found (free_place tray.now) }
{
    places_in(tray).iter().position(|place| is_free(place))
}
