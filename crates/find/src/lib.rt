// The seat and the server for a key, by document 01's array rule, on any run of words.
#![tactic(auto)]

ghost use Rattle.std.specs.Prelude.{◌≡◌, ◌%◌, ◌<◌, ◌≤◌, length};
ghost use Rattle.rules.specs.Table.{most_seats};
ghost use Rattle.rules.specs.Keys.{first_of, pick_of, walk};
ghost use Rattle.rules.specs.Answers.{Says};
ghost use Rattle.find.specs.Find.{lookup_answer, find_call};
ghost use Rattle.find.specs.Steps.{walk_of, Lookable, Looks};

use parts::{A, K, Run, S, size_of};
use rules::{Refusal, Seat};
use splitmix::draw;

// The seat for a key, its server, how many draws led there, and how often they followed K.
#[derive(Clone, Copy, Debug, PartialEq, Eq)]
pub struct Found {
    pub seat: Seat,
    pub server: u32,
    pub draws: u32,
    pub walks: u32,
}

// The same, before the server is read.
#[derive(Clone, Copy)]
struct Drawn {
    seat: Seat,
    draws: u32,
    walks: u32,
}

fn remainder(x: u64, m: u32) -> u32
    requires { 0 < m }
    ensures { result ≡ x % m }
{
    (x % m as u64) as u32
}

// The first seat: hash(k) mod a.
fn first_seat(key: u64, a: u32) -> Seat
    requires { 0 < a }
    ensures { result.0 ≡ first_of key a }
{
    Seat(remainder(draw(1, key), a))
}

// Where a redraw at seat b begins its walk: h = hash(b, k) mod A[b], an index of A.
fn pick(key: u64, b: Seat, m: u32) -> Seat
    requires { 0 < m }
    ensures { result.0 ≡ pick_of key b.0 m }
{
    Seat(remainder(draw(b.0 as u64 + 2, key), m))
}

// One redraw's walk along K, from a seat to the first whose A is below m, and how often it followed K. Algorithm 3 goes on where A is m, the paper's prose does
// not. The seat comes as its number: so the compiler keeps it in a register.
fn follow(A: &[u32], K: &[u32], m: u32, from: u32) -> Option<(Seat, u32)>
    requires { (length K.now ≡ length A.now) × (length A.now ≤ most_seats) }
    ensures { walk_of result ≡ walk A.now K.now m (length A.now) 0 from }
{
    let a = A.len();
    let mut h = Seat(from);
    for n in 0..a as u32 + 1 {
        let i = h.0 as usize;
        if a <= i {
            return None;
        }
        if A[i] < m {
            return Some((h, n));
        }
        h = Seat(K[i]);
    }
    None
}

// All draws, from the first seat on. Who stood there in the line of that time today's W does not know, and the walk does.
fn look_up(A: &[u32], K: &[u32], key: u64, first: Seat) -> Option<Drawn>
    requires { Lookable A.now K.now first.0 }
    ensures { Looks A.now K.now key first.0 result }
{
    let mut b = first;
    let mut draws: u32 = 1;
    let mut walks: u32 = 0;
    loop {
        let m = A[b.0 as usize];
        if m == 0 {
            return Some(Drawn {
                seat: b,
                draws,
                walks,
            });
        }
        let (next, follows) = follow(A, K, m, pick(key, b, m).0)?;
        b = next;
        draws += 1;
        walks += follows;
    }
}

// The server for a key. It writes nothing, and needs no sound table.
pub fn find_server(t: &[u32], key: u64) -> Result<Found, Refusal>
    ensures { Says lookup_answer (find_call t.now key) result }
{
    let seats = size_of(t).ok_or(Refusal::Size)?;
    let run = Run { words: t, seats };
    let first = first_seat(key, seats as u32);
    let drawn = look_up(run.part::<A>(), run.part::<K>(), key, first).ok_or(Refusal::Damaged)?;
    let server = run.get::<S>(drawn.seat);
    let vacant = server == 0;
    if vacant {
        return Err(Refusal::Damaged);
    }
    Ok(Found {
        seat: drawn.seat,
        server,
        draws: drawn.draws,
        walks: drawn.walks,
    })
}
