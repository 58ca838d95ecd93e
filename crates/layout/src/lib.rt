// Lays out the words of an opening in a lent run, part by part.
#![tactic(auto)]

ghost use Rattle.std.specs.Prelude.{◌≡◌, ℕ, ◌<◌, ◌≤◌, length};
ghost use Rattle.rules.specs.Table.{table, words, table_for};
ghost use Rattle.rules.specs.Changes.{opened, open_bare};
ghost use Rattle.steps.specs.Steps.{Keeps};
ghost use Rattle.layout.specs.Layout.{Filled, Lays};

use parts::{A, K, L, Part, R, S, W, start};
use steps::RunMut;

// Each word of a part, from its index, and by it: no contract says what an adapter of `iter_mut` leaves.
fn fill<F: Fn(usize) -> u32>(part: &mut [u32], word: F)
    requires { (i : ℕ) → i < length part.old → F.pre word i }
    ensures { Filled (F.post word) (length part.old) part.new }
{
    for i in 0..part.len() {
        part[i] = word(i);
    }
}

// A part is lent to its filling.
fn lay<P: Part, F: Fn(usize) -> u32>(run: &mut RunMut<'_>, word: F)
    requires { (i : ℕ) → i < run.old.seats → F.pre word i }
    ensures laid { Lays (F.post word) run.old.seats P.NUMBER run.old.words.now run.new.words.now }
    ensures keeps { Keeps run.old run.new }
{
    let lo = start(run.seats, P::NUMBER);
    fill(&mut run.words[lo..lo + run.seats], word);
}

// All but the ids.
pub fn lay_bare(run: &mut RunMut<'_>, w: usize)
    requires { w ≤ run.old.seats }
    ensures words { run.new.words.now ≡ words (table (open_bare run.old.seats w) (table_for run.old.seats run.old.words.now).S) }
    ensures keeps { Keeps run.old run.new }
{
    let a = run.seats;
    run.set_seats();
    run.set_used(w as u32);
    lay::<A, _>(run, |b| if b < w { 0 } else { b as u32 });
    lay::<K, _>(run, |b| b as u32);
    lay::<W, _>(run, |p| p as u32);
    lay::<L, _>(run, |b| b as u32);
    lay::<R, _>(run, |i| if i < a - w { (a - 1 - i) as u32 } else { 0 });
}

// The whole opening.
pub fn lay_out(run: &mut RunMut<'_>, ids: &[u32])
    requires { length ids.now ≤ run.old.seats }
    ensures words { run.new.words.now ≡ words (opened run.old.seats ids.now) }
    ensures keeps { Keeps run.old run.new }
{
    lay_bare(run, ids.len());
    lay::<S, _>(run, |b| if b < ids.len() { ids[b] } else { 0 });
}
