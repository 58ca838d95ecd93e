// The steps of a change: a store into each part, which is lent to the function that stores.
#![tactic(auto)]

ghost use Rattle.std.specs.Prelude.{◌≡◌, ◌+◌, ◌<◌, length, set};
ghost use Rattle.rules.specs.Table.{◌!◌, base, table_for};
ghost use Rattle.rules.specs.Runs.{Shape};
ghost use Rattle.parts.specs.Shape.{Lent, IsWord};

use parts::{Index, L, Part, Run, SEATS, USED, Word, start};
use rules::{Position, Seat};

// The one store: word i of what is lent becomes x.
fn store(lent: &mut [u32], i: usize, x: u32)
    requires { i < length lent.old }
    ensures { lent.new ≡ set lent.old i x }
{
    lent[i] = x;
}

// A step: the part is lent to the store. It takes what the part is indexed by, a seat, a position, or the number of an entry of R, and what the part holds.
pub fn put<P: Part>(t: &mut [u32], a: usize, i: P::Index, x: P::Item)
    requires { Lent t.old a P.NUMBER (P.Index.place i) }
    ensures { t.new ≡ set t.old (base a P.NUMBER + P.Index.place i) (P.Item.spelling.word x) }
{
    let lo = start(a, P::NUMBER);
    store(&mut t[lo..lo + a], i.place(), x.word());
}

// The seat that stands last has its position back: L[W[N]] becomes N.
pub fn give_back(t: &mut [u32], a: usize, last: Seat, n: u32)
    requires { Lent t.old a 3 last.0 }
    ensures { t.new ≡ set t.old (base a 3 + last.0) n }
{
    put::<L>(t, a, last, Position(n));
}

// A run that is lent for changes, and its seats.
#[derive(Drop)]
pub struct RunMut<'a> {
    pub words: &'a mut [u32],
    pub seats: usize,
    ghost shape: { Shape words.now seats },
}

impl RunMut<'_> {
    ghost use Rattle.steps.specs.Steps.{Keeps};

    // A word of a part, as of a run that is lent for reading.
    pub fn get<P: Part>(&self, i: P::Index) -> P::Item
        requires { P.Index.place i < self.now.seats }
        ensures { IsWord P.Item.spelling (P.list (table_for self.now.seats self.now.words.now) ! P.Index.place i) result }
    {
        let run = Run {
            words: self.words,
            seats: self.seats,
        };
        run.get::<P>(i)
    }

    // The words before the parts: word 0 becomes the run's seats, word 1 becomes n.
    pub fn set_seats(&mut self)
        ensures words { self.new.words.now ≡ set self.old.words.now 0 self.old.seats }
        ensures keeps { Keeps self.old self.new }
    {
        store(self.words, SEATS, self.seats as u32);
    }

    pub fn set_used(&mut self, n: u32)
        ensures words { self.new.words.now ≡ set self.old.words.now 1 n }
        ensures keeps { Keeps self.old self.new }
    {
        store(self.words, USED, n);
    }

    pub fn put<P: Part>(&mut self, i: P::Index, x: P::Item)
        requires { P.Index.place i < self.old.seats }
        ensures words { self.new.words.now ≡ set self.old.words.now (base self.old.seats P.NUMBER + P.Index.place i) (P.Item.spelling.word x) }
        ensures keeps { Keeps self.old self.new }
    {
        put::<P>(self.words, self.seats, i, x);
    }

    pub fn give_back(&mut self, last: Seat, n: u32)
        requires { last.0 < self.old.seats }
        ensures words { self.new.words.now ≡ set self.old.words.now (base self.old.seats 3 + last.0) n }
        ensures keeps { Keeps self.old self.new }
    {
        give_back(self.words, self.seats, last, n);
    }
}
