// The checks of table, state, room and request, one after the other.
ghost use Rattle.std.specs.Prelude.{◌≡◌, Ok};
ghost use Rattle.rules.specs.Table.{table_verdict};
ghost use Rattle.rules.specs.Outcomes.{stages_verdict};

use rules::{Reason, Refusal, Request, Verdict};

// The first refusal past the table, or done, of a table that is accepted. Apart from the table's answer, so that a caller can refuse what
// is no table before it calls.
pub fn past_table(table: &[u8], state: &[u8], room: bool, q: Request) -> Verdict
    requires { table_verdict table.now ≡ Ok 0 }
    ensures { result ≡ stages_verdict room table.now state.now q }
{
    status::check_state(table, state)?;
    if !room {
        return Err(Refusal(Reason::NoRoom, 0));
    }
    crate::request_verdict(table, state, q)
}

// The first refusal, or done.
pub fn verdict(table: &[u8], state: &[u8], room: bool, q: Request) -> Verdict
    ensures { result ≡ stages_verdict room table.now state.now q }
{
    table::check_table(table)?;
    past_table(table, state, room, q)
}
