// What C and Rust link: each call answers its number, and its values go out through the last parameters.
#![tactic(auto)]

ghost use Rattle.std.specs.Prelude.{List, [], ◌∷◌, ℕ};
ghost use Rattle.rules.specs.Answers.{result_answer};
ghost use Rattle.audit.specs.Audit.{audit_call};
ghost use Rattle.changes.specs.Calls.{open_call, seat_call, out_call};
ghost use Rattle.find.specs.Find.{find_call};
ghost use Rattle.packet.specs.Key.{key_call};
ghost use Rattle.record.specs.Calls.{save_call, load_call};
ghost use Rattle.steamacorn.specs.Exports.{without_walks, Told, Changes};

use audit::audit_table;
use changes::{open_table, seat_server, take_out};
use find::find_server;
use packet::packet_key;
use record::{load, save};
use rules::Refusal;

// A call's number; and where it is done, what it gives goes out.
fn tell<V: Copy>(given: Result<V, Refusal>, out: &mut V) -> u32
    ensures { (values : V → List ℕ) → Told (result_answer values given) (values out.old) (result, values out.new) }
{
    match given {
        Ok(value) => {
            *out = value;
            0
        }
        Err(why) => why.into(),
    }
}

#[unsafe(no_mangle)]
pub extern "C" fn steamacorn_open(table: &mut [u32], a: u32, ids: &[u32], n: &mut u32) -> u32
    ensures { Changes (open_call table.old a ids.now) (n.old ∷ []) (result, n.new ∷ [], table.new) }
{
    tell(open_table(table, a, ids), n)
}

#[unsafe(no_mangle)]
pub extern "C" fn steamacorn_seat(table: &mut [u32], id: u32, seat: &mut u32) -> u32
    ensures { Changes (seat_call table.old id) (seat.old ∷ []) (result, seat.new ∷ [], table.new) }
{
    tell(seat_server(table, id).map(|b| b.0), seat)
}

#[unsafe(no_mangle)]
pub extern "C" fn steamacorn_out(table: &mut [u32], id: u32, seat: &mut u32) -> u32
    ensures { Changes (out_call table.old id) (seat.old ∷ []) (result, seat.new ∷ [], table.new) }
{
    tell(take_out(table, id).map(|b| b.0), seat)
}

#[unsafe(no_mangle)]
pub extern "C" fn steamacorn_find(
    table: &[u32],
    key: u64,
    seat: &mut u32,
    server: &mut u32,
    draws: &mut u32,
) -> u32
    ensures { Told (without_walks (find_call table.now key)) (seat.old ∷ server.old ∷ draws.old ∷ []) (result, seat.new ∷ server.new ∷ draws.new ∷ []) }
{
    let mut walks = 0;
    steamacorn_find_walks(table, key, seat, server, draws, &mut walks)
}

#[unsafe(no_mangle)]
pub extern "C" fn steamacorn_find_walks(
    table: &[u32],
    key: u64,
    seat: &mut u32,
    server: &mut u32,
    draws: &mut u32,
    walks: &mut u32,
) -> u32
    ensures { Told (find_call table.now key) (seat.old ∷ server.old ∷ draws.old ∷ walks.old ∷ []) (result, seat.new ∷ server.new ∷ draws.new ∷ walks.new ∷ []) }
{
    match find_server(table, key) {
        Ok(found) => {
            *seat = found.seat.0;
            *server = found.server;
            *draws = found.draws;
            *walks = found.walks;
            0
        }
        Err(why) => why.into(),
    }
}

#[unsafe(no_mangle)]
pub extern "C" fn steamacorn_audit(table: &[u32]) -> u32
    ensures { Told (audit_call table.now) [] (result, []) }
{
    tell(audit_table(table), &mut ())
}

#[unsafe(no_mangle)]
pub extern "C" fn steamacorn_save(table: &[u32], record: &mut [u8], bytes: &mut usize) -> u32
    ensures { Changes (save_call table.now «record».old) (bytes.old ∷ []) (result, bytes.new ∷ [], «record».new) }
{
    tell(save(table, record), bytes)
}

#[unsafe(no_mangle)]
pub extern "C" fn steamacorn_load(table: &mut [u32], record: &[u8], n: &mut u32) -> u32
    ensures { Changes (load_call table.old «record».now) (n.old ∷ []) (result, n.new ∷ [], table.new) }
{
    tell(load(table, record), n)
}

#[unsafe(no_mangle)]
pub extern "C" fn steamacorn_key(packet: &[u8], key: &mut [u8]) -> u32
    ensures { Changes (key_call packet.now key.old) [] (result, [], key.new) }
{
    tell(packet_key(packet, key), &mut ())
}
