// One step of a run (worklist.rs: `solve_judgment`, and what `solve` does with an entry that it takes), its counters
// lent.
#![tactic(auto)]

ghost use Rattle.std.specs.Prelude.{◌≡◌};
ghost use Rattle.sheet.specs.Rows.{rows};
ghost use Rattle.judgment.specs.Rules.{rule};
ghost use Rattle.operations.specs.State.{Does, way_in};
ghost use Rattle.applying.specs.Applying.{env_on};
ghost use Rattle.stepping.specs.Rooms.{room, judged_room};
ghost use Rattle.stepping.specs.Stepping.{top_entry, JudgeAsk, Stepping, StepAsk, run_with, kept_of};

use applying::solve_inf_app;
use board::{Top, pop};
use book::Book;
use checking::solve_checking;
use inferring::solve_inference;
use nodes::copy_nodes;
use operations::{Counters, Halt, Run};
use subtyping::solve_subtype;

// What a run has beside its counters, the nodes that it writes out at most, and whether the strict call began it.
#[derive(Clone, Copy)]
struct Kept {
    book: Book,
    halt: Halt,
    limit: usize,
    strict: bool,
}

// Performs the rule of an entry that was taken off the board. A type is copied where the rule's pushes would write over
// it; a TVar or a Var is dropped. A step is inlined where the run's loop is: it has many arguments.
#[inline(always)]
fn solve_judgment(
    board: &mut [u32],
    book: &mut [u32],
    report: &mut [u32],
    c: Run,
    o: Top,
    s: &[u64],
    limit: usize,
    strict: bool,
    t: &mut [u32],
    l: &mut [u32],
    r: &mut [u32],
    w: &mut [usize],
    v: &mut [usize],
) -> Run
    requires { JudgeAsk limit s.now board.old book.old report.old c o t.old l.old r.old w.old v.old }
    ensures { Does (way_in strict limit book.old) (rows s.now) board.old book.old report.old c (rule (env_on s.now) (top_entry (rows s.now) board.old o)) board.new book.new report.new result × (room report.new t.new l.new r.new w.new v.new ≡ judged_room limit s.now board.old book.old c o (room report.old t.old l.old r.old w.old v.old)) }
{
    let Top {
        kind,
        number: line,
        at,
        left: n,
        right,
        ..
    } = o;
    match kind {
        3 => solve_subtype(board, book, report, c, at, n, right, limit, strict),
        4 => {
            copy_nodes(t, 0, board, at, n);
            solve_inference(board, c, s, line, t, n, l, r, w, v)
        }
        5 => solve_checking(board, book, c, s, line, at, n, t, l),
        6 => solve_inf_app(board, book, report, c, line, at, n, right, limit),
        _ => c,
    }
}

fn kept_of(run: Run, limit: usize, strict: bool) -> Kept
    ensures { result ≡ kept_of run limit strict }
{
    Kept {
        book: run.book,
        halt: run.halt,
        limit,
        strict,
    }
}

// One step: takes the newest entry. The counters are lent: they are changed where they stand.
#[inline(always)]
fn step_lent(
    c: &mut Counters,
    kept: Kept,
    board: &mut [u32],
    book: &mut [u32],
    report: &mut [u32],
    s: &[u64],
    t: &mut [u32],
    l: &mut [u32],
    r: &mut [u32],
    w: &mut [usize],
    v: &mut [usize],
) -> Kept
    requires { StepAsk kept.limit s.now board.old book.old report.old (run_with c.old kept) t.old l.old r.old w.old v.old }
    ensures { Stepping kept.strict kept.limit s.now board.old book.old (run_with c.old kept) (room report.old t.old l.old r.old w.old v.old) board.new book.new (run_with c.new result) (room report.new t.new l.new r.new w.new v.new) }
{
    let o = pop(board, c.board);
    let taken = Run {
        counters: Counters {
            taken: c.taken + 1,
            board: o.rest,
            ..*c
        },
        book: kept.book,
        halt: kept.halt,
    };
    let q = solve_judgment(
        board,
        book,
        report,
        taken,
        o,
        s,
        kept.limit,
        kept.strict,
        t,
        l,
        r,
        w,
        v,
    );
    *c = q.counters;
    kept_of(q, kept.limit, kept.strict)
}

// One step of a run, by the strict call or the first, its counters lent.
#[inline(always)]
pub fn solve_step(
    board: &mut [u32],
    book: &mut [u32],
    report: &mut [u32],
    c: Run,
    s: &[u64],
    limit: usize,
    strict: bool,
    t: &mut [u32],
    l: &mut [u32],
    r: &mut [u32],
    w: &mut [usize],
    v: &mut [usize],
) -> Run
    requires { StepAsk limit s.now board.old book.old report.old c t.old l.old r.old w.old v.old }
    ensures { Stepping strict limit s.now board.old book.old c (room report.old t.old l.old r.old w.old v.old) board.new book.new result (room report.new t.new l.new r.new w.new v.new) }
{
    let kept = kept_of(c, limit, strict);
    let mut counters = c.counters;
    let left = step_lent(&mut counters, kept, board, book, report, s, t, l, r, w, v);
    Run {
        counters,
        book: left.book,
        halt: left.halt,
    }
}
