// The checks of table, state and room, one after the other.
ghost use Rattle.std.specs.Prelude.{◌≡◌, Ok};
ghost use Rattle.rules.specs.Table.{table_verdict};
ghost use Rattle.rules.specs.BringUp.{bring_up_stages};

use rules::{Reason, Refusal, Verdict};

// The first refusal past the table, or done, of a table that is accepted. Apart from the table's answer, so that a caller can refuse what
// is no table before it calls.
pub fn past_table(table: &[u8], state: &[u8], room: bool) -> Verdict
    requires { table_verdict table.now ≡ Ok 0 }
    ensures { result ≡ bring_up_stages room table.now state.now }
{
    status::check_but_power(table, state)?;
    if !room {
        return Err(Refusal(Reason::NoRoom, 0));
    }
    Ok(0)
}

// The first refusal, or done.
pub fn verdict(table: &[u8], state: &[u8], room: bool) -> Verdict
    ensures { result ≡ bring_up_stages room table.now state.now }
{
    table::check_table(table)?;
    past_table(table, state, room)
}
