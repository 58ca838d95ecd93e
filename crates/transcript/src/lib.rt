// The program `seats` as a function on bytes: from its input to its output.
#![tactic(auto)]

ghost use Rattle.std.specs.Prelude.{◌≡◌, [], ◌∷◌, ◌+◌, ◌*◌, ◌≤◌, ◌<◌, length, replicate};
ghost use Rattle.std.specs.Counts.{IsPrefixLen};
ghost use Rattle.std.specs.Iterator.{YieldsFirstRef, item_count};
ghost use Rattle.parts.specs.declared.TheConstants.{MOST_WORDS};
ghost use Rattle.decimals.specs.Decimal.{decimal};
ghost use Rattle.rules.specs.Table.{run_length};
ghost use Rattle.changes.specs.Calls.{open_call, seat_call, out_call};
ghost use Rattle.lines.specs.Lines.{space, spaced, lines_of, command_of};
ghost use Rattle.transcript.specs.Printing.{said};
ghost use Rattle.transcript.specs.Transcript.{reopened, looked, respond, replies, transcript};
ghost use Rattle.transcript.specs.Replies.{line_most, line_room, byte_room, reply_most, number_of_line_refusal, Adds, Puts, first_end, lines_left};
ghost use Rattle.transcript.specs.Written.{Written};
ghost use Rattle.transcript.specs.declared.LineRefusal.TheVariants.{Refused};

use changes::{open_table, seat_server, take_out};
use decimals::put_decimal;
use find::{Found, find_server};
use lines::{Line, SPACE, command};
use parts::{MOST_WORDS, PARTS, start};
use rules::{MOST_SEATS, Refusal};

// The bytes of the longest input, and its ids, each with a space before it.
pub const MOST_INPUT: usize = 4096;

const MOST_IDS: usize = MOST_INPUT / 2;

// The bytes of the output for each byte of the input: `byte_room` of specs/Replies.
const BYTE_ROOM: usize = 8;

pub const MOST_OUTPUT: usize = BYTE_ROOM * MOST_INPUT;

// The program does not know the line.
const LINE: u32 = 11;

// It ends a line.
const LF: u8 = b'\n';

// What stands behind `ok`: a number, or what a lookup found.
#[derive(Clone, Copy)]
enum Values {
    One(u32),
    Found(Found),
}

// Why a line is answered `no`.
#[derive(Clone, Copy)]
enum LineRefusal {
    Refused(Refusal),
    Unknown,
}

impl From<Refusal> for LineRefusal {
    ghost from_gives = { λ why r. r ≡ Refused why };

    fn from(why: Refusal) -> LineRefusal {
        LineRefusal::Refused(why)
    }
}

impl From<LineRefusal> for u32 {
    ghost from_gives = { λ why n. n ≡ number_of_line_refusal why };

    fn from(why: LineRefusal) -> u32 {
        match why {
            LineRefusal::Refused(why) => why.into(),
            LineRefusal::Unknown => LINE,
        }
    }
}

// The output, and how many of its bytes are written.
#[derive(Drop)]
struct Output<'a> {
    bytes: &'a mut [u8],
    len: usize,
}

impl Output<'_> {
    fn put(&mut self, s: &[u8])
        requires { self.old.len + length s.now ≤ length self.old.bytes.now }
        ensures { Adds s.now self.old self.new }
    {
        let to = self.len + s.len();
        self.bytes[self.len..to].copy_from_slice(s);
        self.len = to;
    }

    // A number behind a space.
    fn put_value(&mut self, v: u32)
        requires { self.old.len + length (space ∷ decimal v) ≤ length self.old.bytes.now }
        ensures { Adds (space ∷ decimal v) self.old self.new }
    {
        self.put(&[SPACE]);
        self.len += put_decimal(&mut self.bytes[self.len..], u64::from(v));
    }

    // Numbers, each behind a space.
    fn put_values(&mut self, values: &[u32])
        requires { self.old.len + length (spaced values.now) ≤ length self.old.bytes.now }
        ensures { Adds (spaced values.now) self.old self.new }
    {
        for v in values {
            self.put_value(*v);
        }
    }

    // A word, numbers, and LF.
    fn put_line(&mut self, word: &[u8], values: &[u32])
        requires { self.old.len + length (said word.now values.now) ≤ length self.old.bytes.now }
        ensures { Adds (said word.now values.now) self.old self.new }
    {
        self.put(word);
        self.put_values(values);
        self.put(&[LF]);
    }

    // The line that an answer prints.
    fn put_reply(&mut self, reply: Result<Values, LineRefusal>)
        requires { self.old.len + reply_most reply ≤ length self.old.bytes.now }
        ensures { Puts reply self.old self.new }
    {
        match reply {
            Ok(Values::One(v)) => self.put_line(b"ok", &[v]),
            Ok(Values::Found(f)) => self.put_line(b"ok", &[f.seat.0, f.server, f.draws, f.walks]),
            Err(why) => self.put_line(b"no", &[u32::from(why)]),
        }
    }

    // The answers to an input's lines. The table begins empty.
    fn put_replies(&mut self, input: &[u8])
        requires short { length input.now ≤ 2 * MOST_IDS }
        requires room { self.old.len + byte_room * length input.now ≤ length self.old.bytes.now }
        ensures { Adds (replies [] (lines_of input.now)) self.old self.new }
    {
        let mut words = [0; MOST_WORDS];
        let mut table = Table {
            words: &mut words,
            len: 0,
        };
        let mut ids = [0; MOST_IDS];
        for line in Lines(input) {
            self.put_reply(table.answer(line, &mut ids));
        }
    }
}

// The lines of an input.
#[derive(Drop)]
struct Lines<'a>(&'a [u8]);

impl<'a> Iterator for Lines<'a> {
    type Item = &'a [u8];

    ghost next_gives = { YieldsFirstRef lines_left };

    ghost remaining = { item_count lines_left };

    fn next(&mut self) -> Option<&'a [u8]> {
        let input = self.0;
        if input.is_empty() {
            return None;
        }
        let Some(end) = line_end(input) else {
            self.0 = &[];
            return Some(input);
        };
        self.0 = &input[end + 1..];
        Some(&input[..end])
    }
}

// Where the first line ends, if at an LF.
fn line_end(input: &[u8]) -> Option<usize>
    ensures { result ≡ first_end input.now }
{
    input.iter().position(|b| *b == LF)
}

// The lent words, of which the first `len` are the table that the lines before left.
#[derive(Drop)]
struct Table<'a> {
    words: &'a mut [u32],
    len: usize,
    ghost whole: { length words.now ≡ MOST_WORDS },
    ghost within: { len ≤ MOST_WORDS },
}

impl Table<'_> {
    ghost use Rattle.transcript.specs.Tables.{After, table_in};

    // The answer to a line, whose ids go into a lent list.
    fn answer(&mut self, line: &[u8], ids: &mut [u32]) -> Result<Values, LineRefusal>
        requires { length line.now ≤ 2 * length ids.old }
        ensures { After (respond (table_in self.old) (command_of line.now)) (line_room line.now) result self.new }
    {
        match command(line, ids) {
            Some(Line::Open(a, n)) => self.open(a, &ids[..n]),
            Some(Line::Seat(id)) => self.seat(id),
            Some(Line::Out(id)) => self.out(id),
            Some(Line::Find(key)) => self.find(key),
            None => Err(LineRefusal::Unknown),
        }
    }

    // Opening in the first words; a refused open keeps the old table.
    fn open(&mut self, a: u32, ids: &[u32]) -> Result<Values, LineRefusal>
        ensures { After (reopened (table_in self.old) (open_call (replicate (run_length a) 0) a ids.now)) (line_most 1) result self.new }
    {
        if MOST_SEATS < a as usize {
            return Err(LineRefusal::Refused(Refusal::Size));
        }
        let len = start(a as usize, PARTS);
        let used = open_table(&mut self.words[..len], a, ids)?;
        self.len = len;
        Ok(Values::One(used))
    }

    // Beside `out`, and not one with it: with the call as a parameter the promise would be of any call, and each caller would prove which.
    fn seat(&mut self, id: u32) -> Result<Values, LineRefusal>
        ensures { After (seat_call (table_in self.old) id) (line_most 1) result self.new }
    {
        let b = seat_server(&mut self.words[..self.len], id)?;
        Ok(Values::One(b.0))
    }

    fn out(&mut self, id: u32) -> Result<Values, LineRefusal>
        ensures { After (out_call (table_in self.old) id) (line_most 1) result self.new }
    {
        let b = take_out(&mut self.words[..self.len], id)?;
        Ok(Values::One(b.0))
    }

    fn find(&self, key: u64) -> Result<Values, LineRefusal>
        ensures { After (looked (table_in self.now) key) (line_most 4) result self.now }
    {
        let found = find_server(&self.words[..self.len], key)?;
        Ok(Values::Found(found))
    }
}

// From the input's bytes to the output's, and how many those are.
pub fn run(input: &[u8], out: &mut [u8; MOST_OUTPUT]) -> usize
    ensures written { Written (transcript input.now) out.old (result, out.new) }
    ensures prefix_len { IsPrefixLen result out.new }
{
    let mut output = Output { bytes: out, len: 0 };
    let is_long = MOST_INPUT < input.len();
    if is_long {
        output.put_reply(Err(LineRefusal::Refused(Refusal::Room)));
    } else {
        output.put_replies(input);
    }
    output.len
}
