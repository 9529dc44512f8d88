// The end of a run: whether more is taken, and what is read off a run where no more is.
#![tactic(auto)]

ghost use Rattle.std.specs.Prelude.{◌≡◌, ◌<◌, ◌^◌, List, ℕ};
ghost use Rattle.judgment.specs.Result.{end_number, end_details};
ghost use Rattle.operations.specs.State.{reported, refusal_of};
ghost use Rattle.ending.specs.Ending.{takes_more, end_by, end_of, report_end, answer_by};

use judgment::{Answer, Details, TypeError, error_details, error_number};
use nodes::wide;
use operations::{Halt, Run, is_going};

// An entry is to be taken: the run was not refused, one remains, and the ceiling is not reached.
pub fn takes_more(c: Run, ceiling: u32) -> bool
    ensures { result ≡ takes_more c ceiling }
{
    let n = c.counters;
    is_going(c.halt) && 0 < n.board.entries && n.taken < ceiling
}

// How many nodes of types an error reports.
fn reported_nodes(e: TypeError) -> usize
    ensures { (result ≡ reported e) × (result < 2 ^ 34) }
{
    match e {
        TypeError::NotAFunction(n) | TypeError::InstantiationError(_, n) => wide(n),
        TypeError::SubtypingError(l, r) => wide(l) + wide(r),
        _ => 0,
    }
}

// The word after its types in a report of so many words.
pub fn report_end(h: Halt, size: usize) -> usize
    ensures { result ≡ report_end size (refusal_of h) }
{
    let Some(e) = h.refusal() else { return 0 };
    (2 * reported_nodes(e)).min(size)
}

// Document 01's number of a run where no more is taken.
fn end_number(halt: Option<TypeError>, entries: usize) -> u32
    ensures { (rep : List ℕ) → result ≡ end_number (end_by halt entries rep) }
{
    match (halt, entries) {
        (Some(e), _) => error_number(e),
        (None, 0) => 0,
        (None, _) => 21,
    }
}

fn end_details(halt: Option<TypeError>) -> Details
    ensures { (entries : ℕ) (rep : List ℕ) → result ≡ end_details (end_by halt entries rep) }
{
    halt.map_or(Details(0, 0), error_details)
}

// The seven numbers of a run where no more is taken.
pub fn answer(c: Run, plain: bool) -> Answer
    ensures { (rep : List ℕ) → result ≡ answer_by plain (end_of rep c) c.counters.taken c.counters.fresh }
{
    let n = c.counters;
    let halt = c.halt.refusal();
    let Details(detail1, detail2) = end_details(halt);
    Answer {
        number: end_number(halt, n.board.entries),
        line: 0,
        taken: n.taken,
        fresh: n.fresh,
        detail1,
        detail2,
        plain: u32::from(plain),
    }
}
