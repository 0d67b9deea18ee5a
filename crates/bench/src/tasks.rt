// The calls of a request or of bring-up, and what the checker answers on a list.
ghost use Rattle.std.specs.Prelude.{◌≡◌, ◌≤◌, length};
ghost use Rattle.sailgarnet.specs.Packed.{packed};
ghost use Rattle.bench.specs.Cases.{task_outcome, task_checked, moved};

use crate::states::Image;
use crate::{print, states};
use rules::Request;

// A request, or bring-up.
#[derive(Clone, Copy)]
pub enum Task {
    Plan(Request),
    BringUp,
}

// Its calls on a lent plan, by the exported function.
fn outcome(table: &[u8], state: &mut [u8], task: Task, plan: &mut [u8]) -> u64
    ensures { (result ≡ packed (task_outcome table.now state.old task plan.old).verdict)
        × (state.new ≡ (task_outcome table.now state.old task plan.old).state)
        × (plan.new ≡ (task_outcome table.now state.old task plan.old).plan) }
{
    match task {
        Task::Plan(q) => sailgarnet::sailgarnet_plan(
            table, state, q.kind, q.device, q.a, q.b, plan,
        ),
        Task::BringUp => sailgarnet::sailgarnet_bring_up(table, state, plan),
    }
}

// What the checker answers on a list, by the exported function.
fn checked(table: &[u8], state: &[u8], task: Task, list: &[u8]) -> u64
    ensures { result ≡ packed (task_checked table.now state.now task list.now) }
{
    match task {
        Task::Plan(q) => sailgarnet::sailgarnet_check(
            table, state, q.kind, q.device, q.a, q.b, list,
        ),
        Task::BringUp => sailgarnet::sailgarnet_check_bring_up(table, state, list),
    }
}

// Prints the checker's answer on a list, and gives it.
pub fn check(table: &[u8], state: &[u8], task: Task, list: &[u8]) -> u64
    ensures { result ≡ packed (task_checked table.now state.now task list.now) }
{
    let answer = checked(table, state, task, list);
    print::answer(b": check", answer);
    answer
}

// A task on a lent state and plan: prints the answer, the calls and the whole state; then what the checker answers on these calls, given
// the state as it was before.
fn plan_in(table: &[u8], before: &[u8], task: Task, state: &mut [u8], plan: &mut [u8])
    ensures state { state.new ≡ (task_outcome table.now state.old task plan.old).state }
    ensures plan { plan.new ≡ (task_outcome table.now state.old task plan.old).plan }
{
    let answer = outcome(table, state, task, plan);
    let end = (4 * (print::answer(b":", answer) as usize)).min(plan.len());
    let calls = &plan[..end];
    print::hex(b" calls", calls);
    print::hex(b" state", state);
    check(table, before, task, calls);
}

// `Q`, `P` and `B`: a task with a plan of n bytes, A5 each.
pub fn plan(table: &[u8], state: &mut Image, task: Task, n: usize)
    requires { n ≤ 16_644 }
    ensures { state.new ≡ moved table.now state.old task n }
{
    let before = *state;
    let mut plan = [0xa5u8; 16_644];
    let size = states::size(table);
    plan_in(
        table,
        &before[..size],
        task,
        &mut state[..size],
        &mut plan[..n],
    );
}
