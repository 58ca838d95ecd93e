// Whether bytes are a record, told by a read that never writes.
#![tactic(auto)]

ghost use Rattle.std.specs.Prelude.{◌≡◌, ◌≢◌, ◌+◌, ◌<◌, ◌≤◌, length, replicate};
ghost use Rattle.rules.specs.Table.{most_seats};
ghost use Rattle.promises.specs.Decides.{Decides};
ghost use Rattle.fields.specs.Numbers.{number_at};
ghost use Rattle.fields.specs.Form.{server_length, out_length, in_length, in_at};
ghost use Rattle.saved.specs.Reader.{rank};
ghost use Rattle.saved.specs.Fits.{HeadFits, InFits, AllIn, New, AllNew, BodyFits};
ghost use Rattle.form.specs.Form.{form_of};
ghost use Rattle.form.specs.Tests.{FormTold, backward_at};

use fields::{Form, IN_MARK, OUT_MARK, SERVER, has_mark, number_at};
use rules::{MOST_SEATS, Seat};

// a and N of a record's table.
#[derive(Clone, Copy, Debug, PartialEq, Eq)]
pub struct Recorded {
    pub seats: usize,
    pub used: usize,
}

// The bytes of a server from the last to the first, which x86-64 has by one load: enough to tell servers apart.
fn backward_at(s: &[u8], at: usize) -> u32
    requires { at + server_length ≤ length s.now }
    ensures { result ≡ backward_at s.now at }
{
    u32::from_le_bytes(s[at..at + SERVER].try_into().unwrap())
}

// Are the servers at two places different?
fn differ(s: &[u8], p: usize, q: usize) -> bool
    requires { (p + server_length ≤ length s.now) × (q + server_length ≤ length s.now) }
    ensures { Decides result (number_at s.now p server_length ≢ number_at s.now q server_length) }
{
    backward_at(s, p) != backward_at(s, q)
}

// The bytes of a record whose head is good, and as many as it says: its form, and a and N.
#[derive(Clone, Copy)]
struct Head<'a> {
    form: Form,
    bytes: &'a [u8],
    seats: usize,
    used: usize,
    ghost fits: { HeadFits form bytes.now seats used },
}

impl<'a> Head<'a> {
    ghost use Rattle.form.specs.Heads.{removals, HeadTold, Noting, OutTold, OutsTold};

    // The head, or none: it is no record's, or the bytes are not as many as it says.
    fn read(form: Form, bytes: &'a [u8]) -> Option<Head<'a>>
        ensures { HeadTold form bytes.now result }
    {
        if bytes.len() < form.out_at(0) || !has_mark(bytes, 0, &form.head_mark()) {
            return None;
        }
        let seats = form.first_at(bytes, 0) as usize;
        let used = number_at(bytes, form.second(), form.width()) as usize;
        if MOST_SEATS < seats || used < 1 || seats < used {
            return None;
        }
        if bytes.len() != form.in_at(seats - used, used) {
            return None;
        }
        Some(Head {
            form,
            bytes,
            seats,
            used,
        })
    }

    fn removals(&self) -> usize
        ensures { result ≡ removals self.now }
    {
        self.seats - self.used
    }

    // Removal i: its mark, and a seat that was not named before. The seat is noted.
    fn note_out(&self, i: usize, gone: &mut [u8]) -> bool
        requires { (i < removals self.now) × Noting self.now i gone.old }
        ensures { OutTold self.now i result gone.new }
    {
        let at = self.form.out_at(i);
        if !has_mark(self.bytes, at, &OUT_MARK) {
            return false;
        }
        let b = Seat(self.form.first_at(self.bytes, at));
        let seat = b.0 as usize;
        if self.seats <= seat || gone[seat] != 0 {
            return false;
        }
        gone[seat] = 1;
        true
    }

    // The removals.
    fn note_outs(&self, gone: &mut [u8]) -> bool
        requires { gone.old ≡ replicate most_seats 0 }
        ensures { OutsTold self.now result gone.new }
    {
        for i in 0..self.removals() {
            if !self.note_out(i, gone) {
                return false;
            }
        }
        true
    }

    // A record of seat b, with a server.
    fn in_fits(&self, at: usize, b: Seat) -> bool
        requires { at + in_length self.now.form ≤ length self.now.bytes.now }
        ensures { Decides result (InFits self.now.form self.now.bytes.now at b.0) }
    {
        has_mark(self.bytes, at, &IN_MARK)
            && self.form.first_at(self.bytes, at) == b.0
            && self.form.server_at(self.bytes, at) != 0
    }

    // The records of the seats that were not noted, ascending.
    fn ins_fit(&self, gone: &[u8]) -> bool
        requires { (self.now.seats ≤ length gone.now) × (rank gone.now self.now.seats ≡ self.now.used) }
        ensures { Decides result (AllIn self.now.form self.now.bytes.now (removals self.now) gone.now self.now.seats) }
    {
        let mut j = 0;
        for (b, flag) in gone[..self.seats].iter().enumerate() {
            if *flag == 0 {
                if !self.in_fits(self.form.in_at(self.removals(), j), Seat(b as u32)) {
                    return false;
                }
                j += 1;
            }
        }
        true
    }

    // Where the j-th server stands.
    fn server_place(&self, j: usize) -> usize
        requires { j < self.now.used }
        ensures place { result ≡ in_at self.now.form (removals self.now) j + out_length self.now.form }
        ensures room { result + server_length ≤ length self.now.bytes.now }
    {
        self.form.in_at(self.removals(), j) + self.form.second()
    }

    // Are the j-th server and the next none of those before them? All are looked at, with no way out of the loop as `all` has one:
    // so the compiler takes several at once.
    fn two_new(&self, j: usize) -> bool
        requires { j + 1 < self.now.used }
        ensures { Decides result (New self.now.form self.now.bytes.now (removals self.now) j × New self.now.form self.now.bytes.now (removals self.now) (j + 1)) }
    {
        let here = self.server_place(j);
        let next = self.server_place(j + 1);
        let mut ok = true;
        for i in 0..j {
            let before = self.server_place(i);
            ok &= differ(self.bytes, before, here) & differ(self.bytes, before, next);
        }
        ok & differ(self.bytes, here, next)
    }

    // The one search among pairs: are all servers different? Two at a time; of an odd number the first is new.
    fn all_new(&self) -> bool
        ensures { Decides result (AllNew self.now.form self.now.bytes.now (removals self.now) self.now.used) }
    {
        let mut ok = true;
        for k in 0..self.used / 2 {
            ok &= self.two_new(self.used % 2 + 2 * k);
        }
        ok
    }

    // All after the head.
    fn body_fits(&self) -> bool
        ensures { Decides result (BodyFits self.now.form self.now.bytes.now self.now.seats self.now.used) }
    {
        // A byte for each seat, 0 where it is in use as A is: so ranks in A are counted here too.
        let mut gone = [0; MOST_SEATS];
        self.note_outs(&mut gone) && self.ins_fit(&gone) && self.all_new()
    }
}

// Whether the bytes are a record in the form f.
fn form_in(f: Form, s: &[u8]) -> Option<Recorded>
    ensures { FormTold f s.now result }
{
    let head = Head::read(f, s)?;
    head.body_fits().then_some(Recorded {
        seats: head.seats,
        used: head.used,
    })
}

// The seats of the table whose record the bytes are, and those in use.
pub fn form_of(s: &[u8]) -> Option<Recorded>
    ensures { result ≡ form_of s.now }
{
    form_in(Form::Short, s)
}
