// Lists of ids: whether one is among them, where it stands, and whether one occurs twice.
#![tactic(auto)]

ghost use Rattle.std.specs.Prelude.{◌≡◌, cond, not, ◌&&◌, eqb, Some, None};
ghost use Rattle.rules.specs.Ids.{occurs, repeats, place_of};

// Is the id among them?
pub fn occurs_in(l: &[u32], id: u32) -> bool
    ensures { result ≡ occurs id l.now }
{
    l.contains(&id)
}

// Where does the id stand first, if it does?
pub fn find_in(l: &[u32], id: u32) -> Option<usize>
    ensures { result ≡ cond (occurs id l.now) (Some (place_of id l.now)) None }
{
    l.iter().position(|x| *x == id)
}

// The same on every list: the length, where it is nowhere. It could not fail, and still can't: so it stands beside `find_in`.
pub fn place_in(l: &[u32], id: u32) -> usize
    ensures { result ≡ place_of id l.now }
{
    find_in(l, id).unwrap_or(l.len())
}

// Is this an id, and among the rest again?
fn again(id: u32, rest: &[u32]) -> bool
    ensures { result ≡ (not (eqb id 0) && occurs id rest.now) }
{
    id != 0 && occurs_in(rest, id)
}

// Does an id occur twice?
pub fn repeats_in(l: &[u32]) -> bool
    ensures { result ≡ repeats l.now }
{
    let mut hit = false;
    let mut rest = l;
    while let [id, others @ ..] = rest {
        hit |= again(*id, others);
        rest = others;
    }
    hit
}
