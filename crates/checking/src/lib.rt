// Chk (worklist.rs: `solve_checking`). The taken type is the tn nodes at word `at` of the board, past its entries; t is
// room for it, out for a type of the sheet.
#![tactic(auto)]

ghost use Rattle.std.specs.Prelude.{◌≡◌, List, ℕ, ◌+◌, ◌-◌, ◌≤◌, ◌<◌, eqb, get_or};
ghost use Rattle.nodes.specs.Nodes.{nodes_at};
ghost use Rattle.sizes.specs.Sizes.{most_lines, most_nodes};
ghost use Rattle.sheet.specs.Plan.{no_triple};
ghost use Rattle.sheet.specs.Rows.{rows};
ghost use Rattle.judgment.specs.Types.{first, rest, view};
ghost use Rattle.judgment.specs.Terms.{lambda_of};
ghost use Rattle.judgment.specs.Rules.{Env, check_arrow, check_by};
ghost use Rattle.judgment.specs.Result.{Way};
ghost use Rattle.board.specs.Board.{term_at};
ghost use Rattle.operations.specs.State.{WellFormed, Does};
ghost use Rattle.checking.specs.Checking.{all_fit, arrow_type, arrow_out, checked_type, checked_out, CheckAsk};

use core_types::first_part;
use inference::{check_forall, check_lambda, check_lambda_here, synthesize};
use nodes::{copy_nodes, wide};
use operations::{Run, is_going};
use sheet::{part_line, triple_at};
use subtyping::Shape;

// All that a Lambda whose type has an nodes pushes against an Arrow of tn nodes fits on the board.
fn all_fit(c: Run, an: usize, tn: usize) -> bool
    requires { (an ≤ most_lines) × (tn ≤ most_nodes) × (0 < tn) }
    ensures { result ≡ all_fit c an tn }
{
    is_going(c.halt) && c.counters.board.fits_three(2 * an + (tn - 1))
}

// A Lambda starts at the line.
fn is_lambda(s: &[u64], line: u32) -> bool
    ensures { result ≡ eqb (get_or (rows s.now) line no_triple).kind 23 }
{
    triple_at(s, wide(line)).kind == 23
}

// A Lambda against an Arrow takes its parts, where they stand if there is room.
fn check_arrow(
    board: &mut [u32],
    c: Run,
    s: &[u64],
    line: u32,
    at: usize,
    tn: usize,
    t: &mut [u32],
    out: &mut [u32],
) -> Run
    requires { CheckAsk board.old c s.now line at tn t.old out.old × (0 < tn) × ((get_or (rows s.now) line no_triple).kind ≡ 23) }
    ensures { ((w : Way) (E : Env) (k rep : List ℕ) → WellFormed board.old k c → Does w (rows s.now) board.old k rep c (check_arrow E (term_at (rows s.now) line) (nodes_at board.old at tn) (first (nodes_at board.old (at + 2) (tn - 1))) (rest (nodes_at board.old (at + 2) (tn - 1))) (lambda_of (term_at (rows s.now) line))) board.new k rep result) × (t.new ≡ arrow_type t.old c (nodes_at board.old at tn) (lambda_of (term_at (rows s.now) line))) × (out.new ≡ arrow_out out.old c (nodes_at board.old at tn) (lambda_of (term_at (rows s.now) line))) }
{
    let row = wide(line);
    let name = triple_at(s, row).value as u32;
    let start = row + 1;
    let body = part_line(s, start, 1);
    let n = body - start;
    let parts = tn - 1;
    let m = first_part(board, at + 2, parts);
    let more = parts - m;
    let next = body as u32;
    if all_fit(c, n, tn) {
        return check_lambda_here(board, c, s, name, start, n, next, m, more);
    }
    copy_nodes(t, 0, board, at, tn);
    check_lambda(board, c, s, name, start, n, next, out, t, 2, m, more)
}

// Chk of the term that starts at a line.
pub fn solve_checking(
    board: &mut [u32],
    book: &mut [u32],
    c: Run,
    s: &[u64],
    line: u32,
    at: usize,
    tn: usize,
    t: &mut [u32],
    out: &mut [u32],
) -> Run
    requires { WellFormed board.old book.old c × CheckAsk board.old c s.now line at tn t.old out.old }
    ensures { ((w : Way) (E : Env) (rep : List ℕ) → Does w (rows s.now) board.old book.old rep c (check_by E (term_at (rows s.now) line) (nodes_at board.old at tn) (view (nodes_at board.old at tn))) board.new book.new rep result) × (t.new ≡ checked_type t.old c (nodes_at board.old at tn) (lambda_of (term_at (rows s.now) line)) (view (nodes_at board.old at tn))) × (out.new ≡ checked_out out.old c (nodes_at board.old at tn) (lambda_of (term_at (rows s.now) line)) (view (nodes_at board.old at tn))) }
{
    match Shape::of(board, at, tn) {
        Shape::Arrow if is_lambda(s, line) => check_arrow(board, c, s, line, at, tn, t, out),
        Shape::Forall => {
            copy_nodes(t, 0, board, at, tn);
            let name = t[1];
            check_forall(board, book, c, line, name, t, 2, tn - 1)
        }
        _ => {
            copy_nodes(t, 0, board, at, tn);
            synthesize(board, c, line, t, tn)
        }
    }
}
