// Sleep entry once its checks have passed: the devices move to the states that were chosen, by falling number, each with the list of its
// request, through the buffer of one plan, so that the stack holds no more than that; where none moves, what is not needed is turned off.
ghost use Rattle.std.specs.Prelude.{◌≡◌, ◌+◌, ◌*◌, ◌≤◌, length};
ghost use Rattle.rules.specs.Station.{width, limit, station};
ghost use Rattle.rules.specs.Power.{needs};
ghost use Rattle.rules.specs.Status.{entries};
ghost use Rattle.rules.specs.Request.{in_state};
ghost use Rattle.rules.specs.Calls.{end_set};
ghost use Rattle.rules.specs.Sleep.{move_to};
ghost use Rattle.rules.specs.Outcomes.{list_room, planned_each, state_after_each};
ghost use Rattle.table.specs.Layout.{WellSized};
ghost use Rattle.switching.specs.Written.{WrittenPlan};
ghost use Rattle.sleep.specs.Chosen.{states_in};
ghost use Rattle.planner.specs.Moves.{move_list, state_moved, all_moves, choice_list, choice_state, Turn, Given, WrittenFrom};

use crate::element::Element;
use rules::{Entry, Kind, Request};

// The words that a plan of sleep entry must have room for: a list for each device that there can be.
pub fn room(table: &[u8]) -> usize
    requires { WellSized table.now }
    ensures { (result ≡ limit (width table.now) * list_room (width table.now)) × (result ≤ 4160) }
{
    table::fields::limit(table) * switching::write::room(table)
}

// What device d needs in its state in `chosen`.
pub fn chosen_needs(table: &[u8], devices: &[u8], chosen: &[u8], d: usize) -> u64
    requires { Turn table.now devices.now chosen.now d }
    ensures { result ≡ needs (station table.now) d
        (in_state (entries table.now devices.now d) (states_in chosen.now d)) }
{
    let e = status::image::entry(devices, d);
    let taken = Entry {
        state: chosen[d],
        ..e
    };
    power::needs(&table::fields::device(table, d), taken)
}

// The calls and the state of device d's move to its state in `chosen`, from the set needed after it; none if it stays. The move is deeper,
// so its own call comes first. The state is written in the image itself, since a move for each device would copy it twice as often.
pub fn write_move(
    table: &[u8],
    state: &mut [u8],
    chosen: &[u8],
    d: usize,
    needed: u64,
    buffer: &mut [u32],
) -> usize
    requires { Turn table.now state.old chosen.now d × (list_room (width table.now) ≤ length buffer.old)
        × (needed ≡ end_set (station table.now) (entries table.now state.old) (move_to d (states_in chosen.now d))) }
    ensures { WrittenPlan (move_list table.now state.old (states_in chosen.now) d)
        (state_moved table.now state.old (states_in chosen.now) d)
        buffer.old result state.new buffer.new }
{
    if sleep::choice::stays(table, state, chosen, d) {
        return 0;
    }
    let y = chosen[d];
    let q = Request {
        kind: Kind::Move as u32,
        device: d as u32,
        a: u32::from(y),
        b: 0,
    };
    let e = status::image::entry(state, d);
    let own = calls::own::own_call(table, e, q);
    let on = status::image::on_set(table, state);
    let c = switching::switching(table, own, false, on, needed);
    let n = switching::write::write_own_first(table, c, buffer);
    status::image::set_state(table, state, d, y, needed);
    n
}

// The calls of all moves, and the state after them. What the devices below the one that moves need is worked out once, and what those from
// it on need is carried on from move to move. One buffer serves all moves: to make one sets all its words to zero.
fn write_moves<E: Element>(table: &[u8], state: &mut [u8], chosen: &[u8], plan: &mut [E]) -> usize
    requires { Given table.now state.old chosen.now
        × (E.SIZE * (limit (width table.now) * list_room (width table.now)) ≤ length (E.numbers plan.old)) }
    ensures { WrittenFrom E.SIZE E.written
        (planned_each table.now state.old
        (all_moves table.now state.old (states_in chosen.now)))
        (state_after_each table.now state.old
        (all_moves table.now state.old (states_in chosen.now)))
        (E.numbers plan.old) 0 result state.new (E.numbers plan.new) }
{
    let mut buffer = [0u32; 65];
    let mut below = [0u64; 64];
    status::needed::needed_below(table, state, &mut below);
    let mut above: u64 = 0;
    let mut n = 0;
    for i in (0..table::fields::devices(table)).rev() {
        above = sets::union(chosen_needs(table, state, chosen, i), above);
        let needed = sets::union(below[i], above);
        let count = write_move(table, state, chosen, i, needed, &mut buffer);
        E::put_words(&buffer[..count], plan, n);
        n += count;
    }
    n
}

// The calls that bring the devices to their states in `chosen`, and the state after them.
pub fn write_choice<E: Element>(
    table: &[u8],
    state: &mut [u8],
    chosen: &[u8],
    plan: &mut [E],
) -> usize
    requires { Given table.now state.old chosen.now
        × (E.SIZE * (limit (width table.now) * list_room (width table.now)) ≤ length (E.numbers plan.old)) }
    ensures { WrittenFrom E.SIZE E.written (choice_list table.now state.old (states_in chosen.now))
        (choice_state table.now state.old (states_in chosen.now))
        (E.numbers plan.old) 0 result state.new (E.numbers plan.new) }
{
    if sleep::choice::none_moves(table, state, chosen) {
        return E::write_bring_up(table, state, plan);
    }
    write_moves(table, state, chosen, plan)
}
