// What a plan has for elements: words themselves, or bytes, four a word.
ghost use Rattle.std.specs.Prelude.{refl, ℕ, ◌≡◌, ◌≤◌, ◌+◌, ◌*◌, List, ◌++◌, length};
ghost use Rattle.words.specs.Words.{put, word_bytes};
ghost use Rattle.rules.specs.Station.{width};
ghost use Rattle.rules.specs.BringUp.{bring_up_list, state_brought_up};
ghost use Rattle.rules.specs.Outcomes.{list_room, planned, state_after};
ghost use Rattle.request.specs.Permitted.{PermittedRequest};
ghost use Rattle.bringup.specs.Passed.{BringUpState};
ghost use Rattle.planner.specs.Moves.{WrittenFrom};
ghost use Rattle.words.proofs.Laws.{word_bytes_length, word_bytes_append};
ghost use Rattle.laws.proofs.Lists.{one_each};
ghost use Rattle.std.proofs.Math.Nat.{le-add_right};

use rules::Request;

pub trait Element {
    // how many a word takes, what words are turned into, and the elements as numbers
    ghost SIZE: { ℕ };

    const SIZE: usize;

    ghost written: { List ℕ → List ℕ };

    ghost numbers: { List Self → List ℕ };

    // The words, from word `at` of the plan on.
    fn put_words(words: &[u32], plan: &mut [Self], at: usize)
        requires { SIZE * (at + length words.now) ≤ length (numbers plan.old) }
        ensures { numbers plan.new ≡ put (numbers plan.old) (SIZE * at) (written words.now) };

    // The calls of a request that has passed every check, from the start of the plan, and the state after them.
    fn write_plan(table: &[u8], state: &mut [u8], q: Request, plan: &mut [Self]) -> usize
        requires { PermittedRequest table.now state.old q × (SIZE * list_room (width table.now) ≤ length (numbers plan.old)) }
        ensures { WrittenFrom SIZE written (planned table.now state.old q)
            (state_after table.now state.old q) (numbers plan.old) 0 result state.new
            (numbers plan.new) };

    // The calls of bring-up, from the start of the plan. Of a consistent state they are the turn-off calls alone, which sleep entry asks
    // for where no device moves.
    fn write_bring_up(table: &[u8], state: &mut [u8], plan: &mut [Self]) -> usize
        requires { BringUpState table.now state.old × (SIZE * list_room (width table.now) ≤ length (numbers plan.old)) }
        ensures { WrittenFrom SIZE written (bring_up_list table.now state.old)
            (state_brought_up table.now state.old) (numbers plan.old) 0 result state.new
            (numbers plan.new) };

    ghost long: { (ws : List ℕ) → length (written ws) ≡ SIZE * length ws };

    ghost joins: { (xs ys : List ℕ) → written (xs ++ ys) ≡ written xs ++ written ys };

    // the elements are as many as their numbers, and a word takes few enough that the room of any plan can be worked out
    ghost each: { (xs : List Self) → length (numbers xs) ≡ length xs };

    ghost narrow: { SIZE ≤ 4 };
}

impl Element for u32 {
    ghost SIZE = { 1 };

    const SIZE: usize = 1;

    ghost written = { λ ws. ws };

    ghost numbers = { λ xs. xs };

    ghost long = { one_each };

    ghost joins = { λ xs ys. refl };

    ghost each = { λ xs. refl };

    ghost narrow = { le-add_right 1 3 };

    fn put_words(words: &[u32], plan: &mut [u32], at: usize) {
        words::copy(words, plan, at);
    }

    // both straight into the plan
    fn write_plan(table: &[u8], state: &mut [u8], q: Request, plan: &mut [u32]) -> usize {
        crate::plan::write_plan(table, state, q, plan)
    }

    fn write_bring_up(table: &[u8], state: &mut [u8], plan: &mut [u32]) -> usize {
        bringup::bring_up::write_bring_up(table, state, plan)
    }
}

impl Element for u8 {
    ghost SIZE = { 4 };

    const SIZE: usize = 4;

    ghost written = { word_bytes };

    ghost numbers = { λ xs. xs };

    ghost long = { word_bytes_length };

    ghost joins = { word_bytes_append };

    ghost each = { λ xs. refl };

    ghost narrow = { le-add_right 4 0 };

    fn put_words(words: &[u32], plan: &mut [u8], at: usize) {
        words::write_words(words, plan, at);
    }

    // both through the buffer of one plan
    fn write_plan(table: &[u8], state: &mut [u8], q: Request, plan: &mut [u8]) -> usize {
        let mut calls = [0u32; 65];
        let n = crate::plan::write_plan(table, state, q, &mut calls);
        words::write_words(&calls[..n], plan, 0);
        n
    }

    fn write_bring_up(table: &[u8], state: &mut [u8], plan: &mut [u8]) -> usize {
        let mut calls = [0u32; 65];
        let n = bringup::bring_up::write_bring_up(table, state, &mut calls);
        words::write_words(&calls[..n], plan, 0);
        n
    }
}
