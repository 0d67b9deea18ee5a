// The calls of bring-up into a lent plan, and the state after them. A refusal writes neither.
ghost use Rattle.std.specs.Prelude.{◌≡◌, ◌≤◌, length};
ghost use Rattle.rules.specs.Answers.{number_of, count_of};
ghost use Rattle.rules.specs.Station.{width};
ghost use Rattle.rules.specs.Outcomes.{list_room};
ghost use Rattle.rules.specs.BringUp.{bring_up_list, state_brought_up, bring_up_words};
ghost use Rattle.laws.specs.BringUp.{BringsUpWords};
ghost use Rattle.switching.specs.Written.{WrittenPlan};
ghost use Rattle.bringup.specs.Passed.{BringUpState};

use rules::Verdict;

// The calls for a state that has passed every check, and the state after them. No device changes its state, so none has a call of its own.
pub fn write_bring_up(table: &[u8], state: &mut [u8], plan: &mut [u32]) -> usize
    requires { BringUpState table.now state.old × (list_room (width table.now) ≤ length plan.old) }
    ensures { WrittenPlan (bring_up_list table.now state.old)
        (state_brought_up table.now state.old) plan.old result state.new plan.new }
{
    let on = status::image::on_set(table, state);
    let target = status::needed::needed(table, state);
    let c = switching::switching(table, None, false, on, target);
    let count = switching::write::write_switches(table, c.added, c.removed, plan, 0);
    status::image::set_on(table, state, target);
    count
}

// Bring-up on a plan of words.
pub fn bring_up_words(table: &[u8], state: &mut [u8], plan: &mut [u32]) -> Verdict
    ensures answer { (result ≡ (bring_up_words table.now state.old plan.old).verdict)
        × (state.new ≡ (bring_up_words table.now state.old plan.old).state)
        × (plan.new ≡ (bring_up_words table.now state.old plan.old).plan) }
    ensures brings { BringsUpWords table.now state.old plan.old (number_of result) (count_of result)
        state.new plan.new }
{
    table::check_table(table)?;
    let fits = plan.len() >= switching::write::room(table);
    crate::stages::past_table(table, state, fits)?;
    Ok(write_bring_up(table, state, plan))
}
