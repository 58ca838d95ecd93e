// Saving a table as a record of bytes, and loading it.
#![tactic(auto)]

ghost use Rattle.std.specs.Prelude.{◌≡◌, ◌+◌, ◌-◌, ◌<◌, ◌≤◌, length, set};
ghost use Rattle.std.proofs.lemmas.List.Edits.{sets};
ghost use Rattle.rules.specs.Table.{◌!◌, words, table_for, base};
ghost use Rattle.rules.specs.History.{Sound};
ghost use Rattle.rules.specs.Runs.{Shape};
ghost use Rattle.rules.specs.Answers.{Results};
ghost use Rattle.fields.specs.Form.{form_for, out_length, in_length, out_at};
ghost use Rattle.saved.specs.Reader.{rank, server_of};
ghost use Rattle.saved.specs.Record.{head_record, out_record, in_record, each, seat_record, removal_record};
ghost use Rattle.saved.specs.Fits.{Good};
ghost use Rattle.record.specs.Calls.{saved_answer, save_call, loaded_answer, load_call};

use audit::audit_table;
use fields::{Form, IN_MARK, OUT_MARK, SERVER, put_mark, put_number};
use form::{Recorded, form_of};
use layout::lay_bare;
use moves::take_out_seat;
use parts::{A, PARTS, R, Run, S, SEATS, USED, start};
use rules::{Refusal, Seat};
use steps::RunMut;

// The output and the place in it are passed on, and no struct has them: a record's places are `out_at` and `in_at` of specs/, of which each writer is given its own.
fn put_head(out: &mut [u8], f: Form, a: u32, n: u32)
    requires { out_at f 0 ≤ length out.old }
    ensures { out.new ≡ sets out.old 0 (head_record f a n) }
{
    put_mark(out, 0, &f.head_mark());
    f.put_first(out, 0, a);
    put_number(out, f.second(), f.width(), n);
}

fn put_out(out: &mut [u8], f: Form, at: usize, b: Seat)
    requires { at + out_length f ≤ length out.old }
    ensures { out.new ≡ sets out.old at (out_record f b.0) }
{
    put_mark(out, at, &OUT_MARK);
    f.put_first(out, at, b.0);
}

fn put_in(out: &mut [u8], f: Form, at: usize, b: Seat, id: u32)
    requires { at + in_length f ≤ length out.old }
    ensures { out.new ≡ sets out.old at (in_record f b.0 id) }
{
    put_mark(out, at, &IN_MARK);
    f.put_first(out, at, b.0);
    f.put_id(out, at, id);
}

// The first m entries of R, oldest first.
fn put_outs(out: &mut [u8], f: Form, run: &Run<'_>, m: usize)
    requires { (m ≤ run.now.seats) × (out_at f m ≤ length out.old) }
    ensures { out.new ≡ sets out.old (out_at f 0) (each (removal_record f (table_for run.now.seats run.now.words.now)) m) }
{
    for i in 0..m {
        put_out(out, f, f.out_at(i), run.get::<R>(i));
    }
}

// Seat b, if it is in use. Answers where the next record goes.
fn put_seat(out: &mut [u8], f: Form, at: usize, run: &Run<'_>, b: Seat) -> usize
    requires { (b.0 < run.now.seats) × (at + length (seat_record f (table_for run.now.seats run.now.words.now) b.0) ≤ length out.old) }
    ensures next { result ≡ at + length (seat_record f (table_for run.now.seats run.now.words.now) b.0) }
    ensures bytes { out.new ≡ sets out.old at (seat_record f (table_for run.now.seats run.now.words.now) b.0) }
{
    if run.get::<A>(b) != 0 {
        return at;
    }
    put_in(out, f, at, b, run.get::<S>(b));
    at + f.second() + SERVER
}

// The seats in use, ascending.
fn put_ins(out: &mut [u8], f: Form, at: usize, run: &Run<'_>)
    requires { at + length (each (seat_record f (table_for run.now.seats run.now.words.now)) run.now.seats) ≤ length out.old }
    ensures { out.new ≡ sets out.old at (each (seat_record f (table_for run.now.seats run.now.words.now)) run.now.seats) }
{
    let mut next = at;
    for b in 0..run.seats {
        next = put_seat(out, f, next, run, Seat(b as u32));
    }
}

// Saving a sound table, in its form.
fn save_sound(t: &[u32], f: Form, out: &mut [u8]) -> Result<usize, Refusal>
    requires { (Sound t.now) × (form_for (t.now ! 0) ≡ f) }
    ensures { Results saved_answer (save_call t.now out.old) (result, out.new) }
{
    let a = t[SEATS];
    let n = t[USED];
    let run = Run {
        words: t,
        seats: a as usize,
    };
    let m = (a - n) as usize;
    let len = f.in_at(m, n as usize);
    if out.len() < len {
        return Err(Refusal::Room);
    }
    put_head(out, f, a, n);
    put_outs(out, f, &run, m);
    put_ins(out, f, f.out_at(m), &run);
    Ok(len)
}

// Saving a table as a record, in the first bytes of the output.
pub fn save(t: &[u32], out: &mut [u8]) -> Result<usize, Refusal>
    ensures { Results saved_answer (save_call t.now out.old) (result, out.new) }
{
    audit_table(t)?;
    save_sound(t, Form::Short, out)
}

// The bytes of a record, with the form that it is in, and a and N.
#[derive(Clone, Copy)]
struct Record<'a> {
    form: Form,
    bytes: &'a [u8],
    seats: usize,
    used: usize,
    ghost good: { Good form bytes.now seats used },
}

impl Record<'_> {
    ghost use Rattle.steps.specs.Steps.{Keeps};
    ghost use Rattle.record.specs.Loading.{removals, HoldsAfter, Next, last_bare, table_in};

    fn removals(&self) -> usize
        ensures { result ≡ removals self.now }
    {
        self.seats - self.used
    }

    // Takes the seats of the removals out, in order.
    fn take_all(&self, run: &mut RunMut<'_>)
        requires { HoldsAfter self.now run.old 0 }
        ensures removed { HoldsAfter self.now run.new (removals self.now) }
        ensures keeps { Keeps run.old run.new }
    {
        for i in 0..self.removals() {
            let b = Seat(self.form.first_at(self.bytes, self.form.out_at(i)));
            take_out_seat(run, b);
        }
    }

    // The server of seat b, the j-th in use, or none. Answers the seats in use up to b.
    fn put_server(&self, run: &mut RunMut<'_>, b: Seat, j: usize) -> usize
        requires { Next self.now run.old b.0 j }
        ensures next { result ≡ rank (last_bare self.now).A (b.0 + 1) }
        ensures words { run.new.words.now ≡ set run.old.words.now (base self.now.seats 5 + b.0) (server_of self.now.form self.now.bytes.now (removals self.now) (last_bare self.now).A b.0) }
        ensures keeps { Keeps run.old run.new }
    {
        if run.get::<A>(b) != 0 {
            run.put::<S>(b, 0);
            return j;
        }
        let at = self.form.in_at(self.removals(), j);
        run.put::<S>(b, self.form.server_at(self.bytes, at));
        j + 1
    }

    // The part S.
    fn put_servers(&self, run: &mut RunMut<'_>)
        requires { HoldsAfter self.now run.old (removals self.now) }
        ensures words { run.new.words.now ≡ words (table_in self.now) }
        ensures keeps { Keeps run.old run.new }
    {
        let mut j = 0;
        for b in 0..self.seats {
            j = self.put_server(run, Seat(b as u32), j);
        }
    }

    // The run becomes its table.
    fn build(&self, run: &mut RunMut<'_>)
        requires { run.old.seats ≡ self.now.seats }
        ensures words { run.new.words.now ≡ words (table_in self.now) }
        ensures keeps { Keeps run.old run.new }
    {
        lay_bare(run, self.seats);
        self.take_all(run);
        self.put_servers(run);
    }
}

// Loading a record. Nothing is written before the whole record and the run's length are known to be good.
pub fn load(t: &mut [u32], s: &[u8]) -> Result<u32, Refusal>
    ensures { Results loaded_answer (load_call t.old s.now) (result, t.new) }
{
    let Recorded { seats, used } = form_of(s).ok_or(Refusal::Form)?;
    if t.len() != start(seats, PARTS) {
        return Err(Refusal::Size);
    }
    let record = Record {
        form: Form::Short,
        bytes: s,
        seats,
        used,
    };
    let mut run = RunMut { words: t, seats };
    record.build(&mut run);
    Ok(used as u32)
}
