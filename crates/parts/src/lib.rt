// The parts of a lent run: its shape, and reads in each part, with seats and positions kept apart.
#![tactic(auto)]

ghost use Rattle.std.specs.Prelude.{◌≡◌, refl, List, ℕ, ◌+◌, ◌<◌, ◌≤◌, ◌^◌, length};
ghost use Rattle.std.proofs.lemmas.Bool.{ltb-true};
ghost use Rattle.rules.specs.Table.{◌!◌, Table, base, part, part_count, table_for};
ghost use Rattle.rules.specs.Runs.{Shape};
ghost use Rattle.parts.specs.Shape.{size_of, Lends, Spelling, IsWord, number_word, seat_word, position_word};

use rules::{MOST_SEATS, Position, Seat};

// What a part is indexed by.
pub trait Index {
    ghost place: { Self → ℕ };

    fn place(self) -> usize
        ensures { result ≡ place self };
}

impl Index for usize {
    ghost place = { λ i. i };

    fn place(self) -> usize {
        self
    }
}

impl Index for Seat {
    ghost place = { λ b. b.0 };

    fn place(self) -> usize {
        self.0 as usize
    }
}

impl Index for Position {
    ghost place = { λ p. p.0 };

    fn place(self) -> usize {
        self.0 as usize
    }
}

// What a part holds.
pub trait Word {
    ghost spelling: { Spelling Self };

    fn of(word: u32) -> Self
        ensures { IsWord spelling word result };

    fn word(self) -> u32
        ensures { result ≡ spelling.word self };
}

impl Word for u32 {
    ghost spelling = { number_word };

    fn of(word: u32) -> u32 {
        word
    }

    fn word(self) -> u32 {
        self
    }
}

impl Word for Seat {
    ghost spelling = { seat_word };

    fn of(word: u32) -> Seat {
        Seat(word)
    }

    fn word(self) -> u32 {
        self.0
    }
}

impl Word for Position {
    ghost spelling = { position_word };

    fn of(word: u32) -> Position {
        Position(word)
    }

    fn word(self) -> u32 {
        self.0
    }
}

// A part: its number, which of a table's lists it is, what it is indexed by, and what it holds. From a seat to a position leads L alone, and back W alone.
pub trait Part {
    type Index: Index;

    type Item: Word;

    ghost NUMBER: { ℕ };

    ghost within: { NUMBER < part_count };

    ghost list: { Table → List ℕ };

    ghost is_part: { (a : ℕ) (w : List ℕ) → part a NUMBER w ≡ list (table_for a w) };

    const NUMBER: usize;
}

pub enum A {}

impl Part for A {
    type Index = Seat;

    type Item = u32;

    ghost NUMBER = { 0 };

    ghost within = { ltb-true 0 part_count refl };

    ghost list = { λ T. T.bare.A };

    ghost is_part = { λ a w. refl };

    const NUMBER: usize = 0;
}

pub enum K {}

impl Part for K {
    type Index = Seat;

    type Item = Seat;

    ghost NUMBER = { 1 };

    ghost within = { ltb-true 1 part_count refl };

    ghost list = { λ T. T.bare.K };

    ghost is_part = { λ a w. refl };

    const NUMBER: usize = 1;
}

pub enum W {}

impl Part for W {
    type Index = Position;

    type Item = Seat;

    ghost NUMBER = { 2 };

    ghost within = { ltb-true 2 part_count refl };

    ghost list = { λ T. T.bare.W };

    ghost is_part = { λ a w. refl };

    const NUMBER: usize = 2;
}

pub enum L {}

impl Part for L {
    type Index = Seat;

    type Item = Position;

    ghost NUMBER = { 3 };

    ghost within = { ltb-true 3 part_count refl };

    ghost list = { λ T. T.bare.L };

    ghost is_part = { λ a w. refl };

    const NUMBER: usize = 3;
}

pub enum R {}

impl Part for R {
    type Index = usize;

    type Item = Seat;

    ghost NUMBER = { 4 };

    ghost within = { ltb-true 4 part_count refl };

    ghost list = { λ T. T.bare.R };

    ghost is_part = { λ a w. refl };

    const NUMBER: usize = 4;
}

pub enum S {}

impl Part for S {
    type Index = Seat;

    type Item = u32;

    ghost NUMBER = { 5 };

    ghost within = { ltb-true 5 part_count refl };

    ghost list = { λ T. T.S };

    ghost is_part = { λ a w. refl };

    const NUMBER: usize = 5;
}

pub const PARTS: usize = 6;

// The words before the parts, a and N: where they stand, and how many they are.
pub const SEATS: usize = 0;

pub const USED: usize = 1;

const FRONT: usize = 2;

// The words of the longest run.
pub const MOST_WORDS: usize = FRONT + PARTS * MOST_SEATS;

// Where part k of a run for a seats begins. The run ends where one more part would.
pub fn start(a: usize, k: usize) -> usize
    requires { base a k < 2 ^ 64 }
    ensures { result ≡ base a k }
{
    FRONT + k * a
}

// The seats of a run, where its shape is legal.
#[tactic(auto, unfolding(crate::specs::Shape::size_of))]
pub fn size_of(t: &[u32]) -> Option<usize>
    ensures { result ≡ size_of t.now }
{
    let [a, _, ..] = t else {
        return None;
    };
    let a = *a as usize;
    if !(1..=MOST_SEATS).contains(&a) {
        return None;
    }
    (t.len() == start(a, PARTS)).then_some(a)
}

// Part k, lent.
pub fn lend(t: &[u32], a: usize, k: usize) -> &[u32]
    requires { base a k + a ≤ length t.now }
    ensures { Lends t.now a k result.now }
{
    let lo = start(a, k);
    &t[lo..lo + a]
}

// A lent run, and its seats.
#[derive(Clone, Copy)]
pub struct Run<'a> {
    pub words: &'a [u32],
    pub seats: usize,
    ghost shape: { Shape words.now seats },
}

impl<'a> Run<'a> {
    // A part, lent.
    pub fn part<P: Part>(&self) -> &'a [u32]
        ensures { Lends self.now.words.now self.now.seats P.NUMBER result.now }
    {
        lend(self.words, self.seats, P::NUMBER)
    }

    // A word of a part.
    pub fn get<P: Part>(&self, i: P::Index) -> P::Item
        requires { P.Index.place i < self.now.seats }
        ensures { IsWord P.Item.spelling (P.list (table_for self.now.seats self.now.words.now) ! P.Index.place i) result }
    {
        P::Item::of(self.part::<P>()[i.place()])
    }
}
