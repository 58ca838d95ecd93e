// Taking out a seat and seating the last one out, in a run that allows it.
#![tactic(auto)]

ghost use Rattle.std.specs.Prelude.{◌≡◌, ◌+◌, ◌-◌, ◌<◌, set};
ghost use Rattle.rules.specs.Table.{base, words, table_for};
ghost use Rattle.rules.specs.Runs.{Legal};
ghost use Rattle.steps.specs.Steps.{Keeps};
ghost use Rattle.rules.specs.Changes.{take_out, Leaves};
ghost use Rattle.sound.specs.Test.{Test};
ghost use Rattle.moves.specs.Moves.{LastSeated};

use parts::{A, K, L, R, S, USED, W};
use rules::{Position, Seat};
use steps::RunMut;

// The seat b is out of use: R, N and A say so.
fn retire(run: &mut RunMut<'_>, b: Seat, n: u32)
    requires { (b.0 < run.old.seats) × (n < run.old.seats) }
    ensures words { run.new.words.now ≡ set (set (set run.old.words.now (base run.old.seats 4 + (run.old.seats - (n + 1))) b.0) 1 n) (base run.old.seats 0 + b.0) n }
    ensures keeps { Keeps run.old run.new }
{
    let a = run.seats;
    run.put::<R>(a - (n as usize + 1), b);
    run.set_used(n);
    run.put::<A>(b, n);
}

// The seat that stood last takes the place of b.
fn close_up(run: &mut RunMut<'_>, b: Seat, last: Seat, position: Position)
    requires { (b.0 < run.old.seats) × (last.0 < run.old.seats) × (position.0 < run.old.seats) }
    ensures words { run.new.words.now ≡ set (set (set run.old.words.now (base run.old.seats 1 + b.0) last.0) (base run.old.seats 2 + position.0) last.0) (base run.old.seats 3 + last.0) position.0 }
    ensures keeps { Keeps run.old run.new }
{
    run.put::<K>(b, last);
    run.put::<W>(position, last);
    run.put::<L>(last, position);
}

// Taking out the seat b.
pub fn take_out_seat(run: &mut RunMut<'_>, b: Seat)
    requires { (Legal run.old.words.now run.old.seats) × (Test (table_for run.old.seats run.old.words.now).bare) × (Leaves (table_for run.old.seats run.old.words.now).bare b.0) }
    ensures words { run.new.words.now ≡ words (take_out (table_for run.old.seats run.old.words.now) b.0) }
    ensures keeps { Keeps run.old run.new }
{
    let n = run.words[USED] - 1;
    let last = run.get::<W>(Position(n));
    let position = run.get::<L>(b);
    retire(run, b, n);
    close_up(run, b, last, position);
    run.put::<S>(b, 0);
}

// The seat b, out of use since the line had n seats, is in use again: R, A and L say so.
fn restore(run: &mut RunMut<'_>, b: Seat, last: Seat, n: u32)
    requires { (b.0 < run.old.seats) × (last.0 < run.old.seats) × (n < run.old.seats) }
    ensures words { run.new.words.now ≡ set (set (set run.old.words.now (base run.old.seats 4 + (run.old.seats - n - 1)) 0) (base run.old.seats 0 + b.0) 0) (base run.old.seats 3 + last.0) n }
    ensures keeps { Keeps run.old run.new }
{
    let a = run.seats;
    run.put::<R>(a - n as usize - 1, Seat(0));
    run.put::<A>(b, 0);
    run.give_back(last, n);
}

// The seat b takes its place again.
fn open_up(run: &mut RunMut<'_>, b: Seat, position: Position, n: u32)
    requires { (b.0 < run.old.seats) × (position.0 < run.old.seats) × (n < run.old.seats) }
    ensures words { run.new.words.now ≡ set (set (set run.old.words.now (base run.old.seats 2 + position.0) b.0) (base run.old.seats 1 + b.0) b.0) 1 (n + 1) }
    ensures keeps { Keeps run.old run.new }
{
    run.put::<W>(position, b);
    run.put::<K>(b, b);
    run.set_used(n + 1);
}

// Seating an id in the last seat out. Answers the seat.
pub fn seat_last(run: &mut RunMut<'_>, id: u32) -> Seat
    requires { (Legal run.old.words.now run.old.seats) × (Test (table_for run.old.seats run.old.words.now).bare) × ((table_for run.old.seats run.old.words.now).bare.used < run.old.seats) }
    ensures seated { LastSeated (table_for run.old.seats run.old.words.now) id (result, run.new.words.now) }
    ensures keeps { Keeps run.old run.new }
{
    let n = run.words[USED];
    let a = run.seats;
    let b = run.get::<R>(a - n as usize - 1);
    let last = run.get::<W>(Position(n));
    restore(run, b, last, n);
    let position = run.get::<L>(b);
    open_up(run, b, position, n);
    run.put::<S>(b, id);
    b
}
