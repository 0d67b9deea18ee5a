// What a permitted request does, by value. Planner and checker both take it from here; it looks at the lent entries with the one device's
// entry replaced, so no state is copied.
ghost use Rattle.std.specs.Prelude.{◌≡◌, ◌^◌, ◌<◌};
ghost use Rattle.rules.specs.Station.{count_r, station};
ghost use Rattle.rules.specs.Calls.{change_of};
ghost use Rattle.status.specs.Ready.{status_with};
ghost use Rattle.switching.specs.Switching.{GoodSwitching};
ghost use Rattle.request.specs.Permitted.{PermittedRequest};

use rules::{Change, Request};

pub fn change(table: &[u8], devices: &[u8], on: u64, q: Request) -> Change
    requires { PermittedRequest table.now devices.now q × (on < 2 ^ count_r table.now) }
    ensures { (result ≡ change_of (station table.now) (status_with table.now devices.now on) q)
        × GoodSwitching table.now result.switching }
{
    let d = q.device as usize;
    let e = status::image::entry(devices, d);
    let own = calls::own::own_call(table, e, q);
    let last = calls::own::own_last(q);
    let entry = crate::new_entry(e, q);
    let needed = status::needed::needed_with(table, devices, d, entry);
    let switching = switching::switching(table, own, last, on, needed);
    Change {
        entry,
        needed,
        switching,
    }
}
