// The changes of a table: opening, seating, taking out.
#![tactic(auto)]

ghost use Rattle.rules.specs.Answers.{Results};
ghost use Rattle.changes.specs.Calls.{opened_answer, changed_answer, open_call, seat_call, out_call};

use audit::audit_table;
use ids::{find_in, occurs_in, repeats_in};
use layout::lay_out;
use moves::{seat_last, take_out_seat};
use parts::{PARTS, Run, S, SEATS, USED, start};
use rules::{MOST_SEATS, Refusal, Seat};
use steps::RunMut;

// Seating an id: the last seat out takes it. Answers the seat.
pub fn seat_server(t: &mut [u32], id: u32) -> Result<Seat, Refusal>
    ensures { Results changed_answer (seat_call t.old id) (result, t.new) }
{
    audit_table(t)?;
    if id == 0 {
        return Err(Refusal::Id);
    }
    let seats = t[SEATS] as usize;
    let run = Run { words: t, seats };
    if occurs_in(run.part::<S>(), id) {
        return Err(Refusal::Twice);
    }
    let full = t[USED] as usize == seats;
    if full {
        return Err(Refusal::Full);
    }
    let mut run = RunMut { words: t, seats };
    Ok(seat_last(&mut run, id))
}

// Taking out the server of an id. Answers the seat.
pub fn take_out(t: &mut [u32], id: u32) -> Result<Seat, Refusal>
    ensures { Results changed_answer (out_call t.old id) (result, t.new) }
{
    audit_table(t)?;
    if id == 0 {
        return Err(Refusal::Id);
    }
    let seats = t[SEATS] as usize;
    let run = Run { words: t, seats };
    let place = find_in(run.part::<S>(), id).ok_or(Refusal::Absent)?;
    let alone = t[USED] == 1;
    if alone {
        return Err(Refusal::Last);
    }
    let b = Seat(place as u32);
    let mut run = RunMut { words: t, seats };
    take_out_seat(&mut run, b);
    Ok(b)
}

// Opening with a seats and a list of ids. What the run held is not looked at. Answers the seats in use.
pub fn open_table(t: &mut [u32], a: u32, ids: &[u32]) -> Result<u32, Refusal>
    ensures { Results opened_answer (open_call t.old a ids.now) (result, t.new) }
{
    let seats = a as usize;
    if !(1..=MOST_SEATS).contains(&seats) {
        return Err(Refusal::Size);
    }
    if t.len() != start(seats, PARTS) {
        return Err(Refusal::Size);
    }
    if !(1..=seats).contains(&ids.len()) {
        return Err(Refusal::Count);
    }
    let zero = occurs_in(ids, 0);
    let twice = repeats_in(ids);
    if zero {
        return Err(Refusal::Id);
    }
    if twice {
        return Err(Refusal::Twice);
    }
    let mut run = RunMut { words: t, seats };
    lay_out(&mut run, ids);
    Ok(ids.len() as u32)
}
