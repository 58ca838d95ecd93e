// The audit: whether a lent run is a sound table, told in one pass that reads and never writes.
#![tactic(auto)]

ghost use Rattle.std.specs.Prelude.{◌≡◌, ◌<◌};
ghost use Rattle.rules.specs.Answers.{Says};
ghost use Rattle.audit.specs.Pass.{Counted};
ghost use Rattle.audit.specs.Audit.{audited_answer, audit_call};

use ids::repeats_in;
use parts::{A, K, L, R, Run, S, USED, W, size_of};
use rules::{Position, Refusal, Seat};

// The one pass over a run, where N is from 1 to a. That a seat or a position lies in the run is a fact of the two, and each test asks for it.
#[derive(Clone, Copy)]
struct Pass<'a> {
    run: Run<'a>,
    used: usize,
    ghost counted: { Counted run.words.now run.seats used },
}

impl Pass<'_> {
    ghost use Rattle.rules.specs.Table.{◌!◌};
    ghost use Rattle.sound.specs.Test.{Owes, Removed, RemovalPasses};
    ghost use Rattle.promises.specs.Decides.{Decides};
    ghost use Rattle.audit.specs.Pass.{LineHas, ServedPasses, IndexPasses, AllPass};
    ghost use Rattle.audit.specs.Reading.{table_in};

    // Is x the seat that W has at q, and, where q is in the line, q the position that L has for x?
    fn stands(&self, x: Seat, q: Position) -> bool
        requires { (x.0 < self.now.run.seats) × (q.0 < self.now.run.seats) }
        ensures { Decides result (LineHas (table_in self.now).bare x.0 q.0) }
    {
        self.run.get::<W>(q) == x && (self.used <= q.0 as usize || self.run.get::<L>(x) == q)
    }

    // Do the words say that seat x stood at position q?
    fn owes(&self, x: Seat, q: Position) -> bool
        requires { (x.0 < self.now.run.seats) × (q.0 < self.now.run.seats) }
        ensures { Decides result (Owes (table_in self.now).bare x.0 q.0) }
    {
        let left = self.run.get::<A>(x);
        if left == 0 || left < q.0 {
            return self.stands(x, q);
        }
        self.run.get::<L>(x) == q
    }

    // Are the words of seat x right? Its history begins where the line of all a seats has it.
    fn seat_passes(&self, x: Seat, first: Position) -> bool
        requires { (x.0 < self.now.run.seats) × (first.0 ≡ x.0) }
        ensures { Decides result (ServedPasses (table_in self.now) x.0) }
    {
        let id = self.run.get::<S>(x);
        let left = self.run.get::<A>(x) as usize;
        if left == 0 {
            return id != 0 && self.run.get::<K>(x) == x && self.owes(x, first);
        }
        id == 0
            && (self.used..self.run.seats).contains(&left)
            && self.run.get::<R>(self.run.seats - 1 - left) == x
            && self.owes(x, first)
    }

    // Are the words right that the taking out of b, entry i of R, left?
    fn removed(&self, i: usize, b: Seat) -> bool
        requires { i < self.now.run.seats }
        ensures { Decides result (Removed (table_in self.now).bare i b.0) }
    {
        let a = self.run.seats;
        if a <= b.0 as usize {
            return false;
        }
        let p = a - 1 - i;
        if self.run.get::<A>(b) as usize != p {
            return false;
        }
        let last = self.run.get::<W>(Position(p as u32));
        if self.run.get::<K>(b) != last {
            return false;
        }
        if last == b {
            return true;
        }
        if a <= last.0 as usize {
            return false;
        }
        let q = self.run.get::<L>(b);
        if p <= q.0 as usize {
            return false;
        }
        self.owes(last, q)
    }

    // Is entry i of R right?
    fn removal_passes(&self, i: usize) -> bool
        requires { i < self.now.run.seats }
        ensures { Decides result (RemovalPasses (table_in self.now).bare i) }
    {
        let b = self.run.get::<R>(i);
        if i < self.run.seats - self.used {
            return self.removed(i, b);
        }
        b == Seat(0)
    }

    // Is i right, as a seat and as an entry of R? The line of all a seats has b at b, so i counts its seats and its positions.
    fn index_passes(&self, i: u32) -> bool
        requires { i < self.now.run.seats }
        ensures { Decides result (IndexPasses (table_in self.now) i) }
    {
        self.seat_passes(Seat(i), Position(i)) & self.removal_passes(i as usize)
    }

    // A, K, W, L and R, each index, with no way out of the loop. The index is as wide as a seat: by a wider one the compiler carries both.
    fn all_pass(&self) -> bool
        ensures { Decides result (AllPass (table_in self.now) self.now.run.seats) }
    {
        let mut ok = true;
        for i in 0..self.run.seats as u32 {
            ok &= self.index_passes(i);
        }
        ok
    }
}

pub fn audit_table(t: &[u32]) -> Result<(), Refusal>
    ensures { Says audited_answer (audit_call t.now) result }
{
    let seats = size_of(t).ok_or(Refusal::Size)?;
    let used = t[USED] as usize;
    if !(1..=seats).contains(&used) {
        return Err(Refusal::Damaged);
    }
    let run = Run { words: t, seats };
    if !(Pass { run, used }).all_pass() {
        return Err(Refusal::Damaged);
    }
    // the one search among pairs
    if repeats_in(run.part::<S>()) {
        return Err(Refusal::Damaged);
    }
    Ok(())
}
