// InfApp and Var (worklist.rs: `solve_inf_app`, and `solve_inference` of a Var).
#![tactic(auto)]

ghost use Rattle.std.specs.Prelude.{◌≡◌, List, ℕ, ◌+◌, ◌*◌, ◌≤◌, length, Bool};
ghost use Rattle.nodes.specs.Nodes.{nodes_at, Ty};
ghost use Rattle.spelling.specs.declared.Triple.{Triple};
ghost use Rattle.sheet.specs.Rows.{rows};
ghost use Rattle.judgment.specs.Types.{view};
ghost use Rattle.judgment.specs.Terms.{is_var};
ghost use Rattle.judgment.specs.Solutions.{write_out};
ghost use Rattle.judgment.specs.Board.{sub, push as push_rule, done, or_else, find_var};
ghost use Rattle.judgment.specs.Rules.{Env, variable, infer_by, apply_by, infer_app};
ghost use Rattle.judgment.specs.Result.{Way};
ghost use Rattle.board.specs.Board.{term_at, entries_of, Stacked};
ghost use Rattle.book.specs.Book.{sols};
ghost use Rattle.operations.specs.State.{WellFormed, Does, Scoped};
ghost use Rattle.subtyping.specs.Subtyping.{SubAsk, SubtypeAsk};
ghost use Rattle.inference.specs.Inference.{type_on, LinesAsk};
ghost use Rattle.applying.specs.Applying.{env_on, entry_in, apply_report, app_report, found_out, VarAsk};

use board::find_var;
use core_types::first_part;
use inference::{apply_arrow, apply_forall, apply_unknown};
use judgment::TypeError;
use nodes::copy_nodes;
use operations::{Run, is_going, push_sub, refuse, zonk};
use sheet::{copy_type, find_entry};
use subtyping::Shape;

// A function applied, by its written-out type: the f nodes at the front of the report. The result's type is the n nodes
// after them.
fn apply_shapes(
    board: &mut [u32],
    book: &mut [u32],
    report: &mut [u32],
    c: Run,
    line: u32,
    f: usize,
    n: usize,
) -> Run
    requires { SubAsk board.old book.old report.old c f n }
    ensures { ((w : Way) (ls : List Triple) (E : Env) → Scoped w → Does w ls board.old book.old report.old c (apply_by E (nodes_at report.old 0 f) (term_at ls line) (nodes_at report.old (2 * f) n) (view (nodes_at report.old 0 f))) board.new book.new report.new result) × (report.new ≡ apply_report report.old c.counters.fresh (view (nodes_at report.old 0 f))) }
{
    let ct = 2 * f;
    let number = report[1];
    match Shape::of(report, 0, f) {
        Shape::Arrow => {
            let m = first_part(report, 2, f - 1);
            apply_arrow(board, c, line, report, 2, m, f - 1 - m, ct, n)
        }
        Shape::Forall => apply_forall(board, c, line, number, report, 2, f - 1, ct, n),
        Shape::Unknown => apply_unknown(board, book, c, line, number, report, ct, n),
        _ => refuse(c, TypeError::NotAFunction(f as u32)),
    }
}

// InfApp: writes out the function's type and then the result's, which stand one after the other from word `at` of the
// board on.
pub fn solve_inf_app(
    board: &mut [u32],
    book: &mut [u32],
    report: &mut [u32],
    c: Run,
    line: u32,
    at: usize,
    fcount: usize,
    tn: usize,
    w: usize,
) -> Run
    requires { SubtypeAsk board.old book.old report.old c at fcount tn w }
    ensures { ((f : ℕ → Ty → Bool) (ls : List Triple) (E : Env) → Scoped (record { written = w; scope = f }) → Does (record { written = w; scope = f }) ls board.old book.old report.old c (infer_app E (nodes_at board.old at fcount) (term_at ls line) (nodes_at board.old (at + 2 * fcount) tn)) board.new book.new report.new result) × (report.new ≡ app_report report.old c (write_out (sols book.old) (nodes_at board.old at fcount)) (write_out (sols book.old) (nodes_at board.old (at + 2 * fcount) tn)) w) }
{
    let z = zonk(book, c, board, at, fcount, report, 0, w);
    let y = zonk(book, z.run, board, at + 2 * fcount, tn, report, z.nodes, w);
    if !is_going(y.run.halt) {
        return y.run;
    }
    apply_shapes(board, book, report, y.run, line, z.nodes, y.nodes)
}

// Compares the type on the n lines at line `first` of the sheet with the taken type.
fn push_entry(
    board: &mut [u32],
    c: Run,
    s: &[u64],
    first: usize,
    n: usize,
    out: &mut [u32],
    t: &[u32],
    tn: usize,
) -> Run
    requires { Stacked board.old c.counters.board × (2 * tn ≤ length t.now) × (2 * n ≤ length out.old) × LinesAsk s.now first n }
    ensures { ((w : Way) (k rep : List ℕ) → WellFormed board.old k c → Does w (rows s.now) board.old k rep c (push_rule (sub (type_on s.now first n) (nodes_at t.now 0 tn)) done) board.new k rep result) × (out.new ≡ found_out out.old (Some (type_on s.now first n))) }
{
    copy_type(out, 0, s, first, n);
    push_sub(board, c, out, 0, n, t, 0, tn)
}

// Var that is neither in the context nor on the board: a data constructor, or unbound.
fn infer_constructor(
    board: &mut [u32],
    c: Run,
    s: &[u64],
    name: u32,
    out: &mut [u32],
    t: &[u32],
    tn: usize,
) -> Run
    requires { VarAsk board.old c s.now out.old t.now tn }
    ensures { ((w : Way) (k rep : List ℕ) → WellFormed board.old k c → Does w (rows s.now) board.old k rep c (variable (env_on s.now) name (nodes_at t.now 0 tn) None None (entry_in 1 name s.now)) board.new k rep result) × (out.new ≡ found_out out.old (entry_in 1 name s.now)) }
{
    match find_entry(s, 1, name as u64) {
        Some(e) => push_entry(board, c, s, e.line, e.count, out, t, tn),
        None => refuse(c, TypeError::UnboundVariable(name)),
    }
}

// Var that is not in the context: the newest of that name on the board comes before a data constructor. Its type is
// copied, since the push writes to the board.
fn infer_on_board(
    board: &mut [u32],
    c: Run,
    s: &[u64],
    name: u32,
    out: &mut [u32],
    t: &[u32],
    tn: usize,
) -> Run
    requires { VarAsk board.old c s.now out.old t.now tn }
    ensures { ((w : Way) (k rep : List ℕ) → WellFormed board.old k c → Does w (rows s.now) board.old k rep c (variable (env_on s.now) name (nodes_at t.now 0 tn) None (find_var name (entries_of (rows s.now) board.old c.counters.board.entries)) (entry_in 1 name s.now)) board.new k rep result) × (out.new ≡ found_out out.old (or_else (find_var name (entries_of (rows s.now) board.old c.counters.board.entries)) (entry_in 1 name s.now))) }
{
    match find_var(board, c.counters.board, name) {
        Some(place) => {
            copy_nodes(out, 0, board, place.start, place.count);
            push_sub(board, c, out, 0, place.count, t, 0, tn)
        }
        None => infer_constructor(board, c, s, name, out, t, tn),
    }
}

// Var: a context variable hides one on the board.
pub fn infer_variable(
    board: &mut [u32],
    c: Run,
    s: &[u64],
    name: u32,
    out: &mut [u32],
    t: &[u32],
    tn: usize,
) -> Run
    requires { VarAsk board.old c s.now out.old t.now tn }
    ensures { ((w : Way) (k rep : List ℕ) → WellFormed board.old k c → Does w (rows s.now) board.old k rep c (infer_by (env_on s.now) (nodes_at t.now 0 tn) (is_var name)) board.new k rep result) × (out.new ≡ found_out out.old (or_else (entry_in 2 name s.now) (or_else (find_var name (entries_of (rows s.now) board.old c.counters.board.entries)) (entry_in 1 name s.now)))) }
{
    match find_entry(s, 2, name as u64) {
        Some(e) => push_entry(board, c, s, e.line, e.count, out, t, tn),
        None => infer_on_board(board, c, s, name, out, t, tn),
    }
}
