// Whether a list of calls conforms to bring-up: answers 1 to 8, then 19. Nothing is written.
ghost use Rattle.std.specs.Prelude.{◌≡◌};
ghost use Rattle.rules.specs.Station.{station};
ghost use Rattle.rules.specs.Status.{status};
ghost use Rattle.rules.specs.BringUp.{conforming_to_bring_up, check_bring_up_words};
ghost use Rattle.laws.specs.BringUp.{BringUpChecked};
ghost use Rattle.bringup.specs.Passed.{BringUpState};

use rules::{Reason, Refusal, Verdict};

// Whether the list conforms to the bring-up of a state that has passed every check.
pub fn conforming(table: &[u8], state: &[u8], list: &[u32]) -> bool
    requires { BringUpState table.now state.now }
    ensures { result ≡ conforming_to_bring_up (station table.now) (status table.now state.now)
        list.now }
{
    let on = status::image::on_set(table, state);
    let target = status::needed::needed(table, state);
    let c = switching::switching(table, None, false, on, target);
    switching::walk::walk_phases(table, c.added, c.removed, list)
}

// The checker of bring-up on a list of words.
pub fn check_words(table: &[u8], state: &[u8], list: &[u32]) -> Verdict
    ensures answer { result ≡ check_bring_up_words table.now state.now list.now }
    ensures checked { BringUpChecked table.now state.now list.now }
{
    crate::stages::verdict(table, state, true)?;
    if !conforming(table, state, list) {
        return Err(Refusal(Reason::NotConforming, 0));
    }
    Ok(0)
}
