// Document 01 as definitions (specs/), its examples (proofs/), and the types that calls speak in.
#![tactic(auto)]

// The largest a.
pub const MOST_SEATS: usize = 2048;

// The paper's bucket.
#[derive(Clone, Copy, Debug, PartialEq, Eq)]
pub struct Seat(pub u32);

// A place in the working line. W and L are the only ways between the two.
#[derive(Clone, Copy, Debug, PartialEq, Eq)]
pub struct Position(pub u32);

// Why a call refuses; `number_of` gives each its number.
#[derive(Clone, Copy, Debug, PartialEq, Eq)]
pub enum Refusal {
    Size = 1,
    Count = 2,
    Id = 3,
    Twice = 4,
    Damaged = 5,
    Full = 6,
    Absent = 7,
    Last = 8,
    Room = 9,
    Form = 10,
    Packet = 12,
}

impl From<Refusal> for u32 {
    ghost use Rattle.std.specs.Prelude.{◌≡◌};
    ghost use Rattle.rules.specs.Answers.{number_of};

    ghost from_gives = { λ why n. n ≡ number_of why };

    fn from(why: Refusal) -> u32 {
        why as u32
    }
}
