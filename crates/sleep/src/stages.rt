// The checks of sleep entry, one after the other.
ghost use Rattle.std.specs.Prelude.{◌≡◌, true, ◌≤◌, length, Ok};
ghost use Rattle.rules.specs.Station.{count_d};
ghost use Rattle.rules.specs.Table.{table_verdict};
ghost use Rattle.rules.specs.Sleep.{is_sleep};
ghost use Rattle.rules.specs.Outcomes.{sleep_stages};
ghost use Rattle.sleep.specs.Chosen.{stages_left};

use rules::{Request, Verdict};

// The first refusal past the table, or done, of a table that is accepted. The checks of requests answer 10 to kind 4 exactly if none of 7,
// 8 and 9 applies, so these are asked there. Where it is done, the states that the devices take stand in `chosen`.
pub fn past_table(table: &[u8], state: &[u8], room: bool, q: Request, chosen: &mut [u8]) -> Verdict
    requires { (is_sleep q ≡ true) × (table_verdict table.now ≡ Ok 0) × (count_d table.now ≤ length chosen.old) }
    ensures { (result ≡ sleep_stages room table.now state.now q)
        × (chosen.new ≡ stages_left room table.now state.now q chosen.old) }
{
    // By its number: a pattern `Err(Refusal(Reason::BadRequest, _))` gives the other arm no fact that it is another refusal.
    let v = request::stages::past_table(table, state, room, q);
    if rules::number(v) != 10 {
        return v;
    }
    crate::verdict(table, state, q, chosen)
}
