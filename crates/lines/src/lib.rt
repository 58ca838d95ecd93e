// Lines of the program `seats`: a cursor that reads words and numbers, and the command that a line is.
#![tactic(auto)]

ghost use Rattle.std.specs.Prelude.{◌≡◌, ◌*◌, ◌≤◌, length, IfSome};
ghost use Rattle.lines.specs.Lines.{next, most_id, ids_behind, with_a, command_of};
ghost use Rattle.lines.specs.Readings.{next_of, alone, after_first, ids_read, IsLine};

use decimals::read_decimal;

// It parts words.
pub const SPACE: u8 = b' ';

// The largest id, and a too; the largest key.
const MOST_ID: u64 = u32::MAX as u64;

const MOST_KEY: u64 = u64::MAX;

// What is left of a line.
#[derive(Clone, Copy)]
struct Cursor<'a> {
    rest: &'a [u8],
}

// The words that a line can begin with.
#[derive(Clone, Copy)]
enum Word {
    Open,
    Seat,
    Out,
    Find,
}

// A line that is known; the ids of Open stand in a lent list, and are so many.
#[derive(Clone, Copy, Debug, PartialEq, Eq)]
pub enum Line {
    Open(u32, usize),
    Seat(u32),
    Out(u32),
    Find(u64),
}

// Each word and each number is taken apart by `let .. else`, as document 01 names the form.
impl<'a> Cursor<'a> {
    // The word that begins here, and the cursor behind it. One by one: a table of the words would take a loop with four cases.
    fn word(self) -> Option<(Word, Cursor<'a>)>
        ensures read { after_first result ≡ (command_of self.entry.rest.now, ids_read self.entry.rest.now) }
        ensures within { IfSome result (λ p. length p.1.rest.now ≤ length self.entry.rest.now) }
    {
        if let Some(rest) = self.rest.strip_prefix(b"open") {
            return Some((Word::Open, Cursor { rest }));
        }
        if let Some(rest) = self.rest.strip_prefix(b"seat") {
            return Some((Word::Seat, Cursor { rest }));
        }
        if let Some(rest) = self.rest.strip_prefix(b"out") {
            return Some((Word::Out, Cursor { rest }));
        }
        if let Some(rest) = self.rest.strip_prefix(b"find") {
            return Some((Word::Find, Cursor { rest }));
        }
        None
    }

    // A space and the number behind it, and the cursor behind that.
    #[tactic(auto, unfolding(crate::specs::Lines::next))]
    fn next(self, lim: u64) -> Option<(u64, Cursor<'a>)>
        requires { 9 ≤ lim }
        ensures { next_of result ≡ next lim self.entry.rest.now }
    {
        let Some((&SPACE, digits)) = self.rest.split_first() else {
            return None;
        };
        let Some((v, rest)) = read_decimal(digits, SPACE, lim) else {
            return None;
        };
        Some((v, Cursor { rest }))
    }

    // That of an id, and of a.
    fn next_id(self) -> Option<(u32, Cursor<'a>)>
        ensures { next_of result ≡ next most_id self.entry.rest.now }
    {
        let Some((id, c)) = self.next(MOST_ID) else {
            return None;
        };
        Some((id as u32, c))
    }
}

// A number that nothing follows.
fn last<N: Copy>(read: Option<(N, Cursor)>) -> Option<N>
    ensures { result ≡ alone read.entry }
{
    let Some((v, c)) = read else {
        return None;
    };
    if c.rest.is_empty() { Some(v) } else { None }
}

// A, and the ids from there to the line's end, which go into `into`: the list is lent, so they are counted.
fn open_line(c: Cursor, into: &mut [u32]) -> Option<Line>
    requires { length c.rest.now ≤ 2 * length into.old }
    ensures { IsLine (with_a (next most_id c.entry.rest.now), (ids_behind (next most_id c.entry.rest.now)).ids) into.old (result, into.new) }
{
    let Some((a, mut c)) = c.next_id() else {
        return None;
    };
    let mut n = 0;
    while !c.rest.is_empty() {
        let Some((id, behind)) = c.next_id() else {
            return None;
        };
        into[n] = id;
        n += 1;
        c = behind;
    }
    Some(Line::Open(a, n))
}

// The command that a line is. The ids of an opening go into `into`.
pub fn command(s: &[u8], into: &mut [u32]) -> Option<Line>
    requires { length s.now ≤ 2 * length into.old }
    ensures { IsLine (command_of s.now, ids_read s.now) into.old (result, into.new) }
{
    let Some((word, c)) = (Cursor { rest: s }).word() else {
        return None;
    };
    match word {
        Word::Open => open_line(c, into),
        Word::Seat => last(c.next_id()).map(Line::Seat),
        Word::Out => last(c.next_id()).map(Line::Out),
        Word::Find => last(c.next(MOST_KEY)).map(Line::Find),
    }
}
