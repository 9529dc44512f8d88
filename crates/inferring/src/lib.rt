// Inf (worklist.rs: `solve_inference`): a term by the kind of its first line, which is line `at`. A function a term
// reads its parts off the sheet and performs its rule.
// The taken type is the tn nodes at the front of t; l, r, w and v are scratch, the last three for a Case alone: a sheet
// that has none may lend them empty.
#![tactic(auto)]

ghost use Rattle.std.specs.Prelude.{◌≡◌, List, ℕ, ◌+◌, ◌≤◌, ◌<◌, length, get_or};
ghost use Rattle.sizes.specs.Sizes.{most_lines};
ghost use Rattle.nodes.specs.Nodes.{nodes_at};
ghost use Rattle.sheet.specs.Plan.{no_triple, part_line, find_entry};
ghost use Rattle.sheet.specs.Rows.{rows, Ended};
ghost use Rattle.judgment.specs.Terms.{term_view};
ghost use Rattle.judgment.specs.Rules.{infer_by};
ghost use Rattle.judgment.specs.Result.{Way};
ghost use Rattle.board.specs.Board.{term_at};
ghost use Rattle.operations.specs.State.{WellFormed, Does};
ghost use Rattle.applying.specs.Applying.{env_on, VarsFit};
ghost use Rattle.inferring.specs.Inferring.{TypeFits, InferAsk, CaseRoom, has_case, CaseLent, TermAsk, kind_at, Infers};
ghost use Rattle.inferring.specs.Rooms.{scratch, variable_out, lambda_out, constructor_out, case_scratch, infer_scratch};

use applying::infer_variable;
use arms::infer_case;
use constructors::infer_constructor;
use inference::{
    infer_apply, infer_bin_op, infer_if, infer_intrinsic, infer_lambda, infer_lit_int,
    infer_type_lambda,
};
use judgment::TypeError;
use nodes::wide;
use operations::{Run, refuse};
use sheet::{Extent, find_entry, line_count, part_line, triple_at};

// The value of a line, a name or an operator.
fn value_at(s: &[u64], at: usize) -> u32
    requires { (get_or (rows s.now) at no_triple).value < 4294967296 }
    ensures { result ≡ (get_or (rows s.now) at no_triple).value }
{
    triple_at(s, at).value as u32
}

// The line at which part i of the term at line `at` starts.
fn part_at(s: &[u64], at: usize, i: usize) -> u32
    requires { (at < length (rows s.now)) × (length (rows s.now) ≤ most_lines) × Ended s.now }
    ensures { result ≡ part_line (rows s.now) (at + 1) i }
{
    part_line(s, at + 1, i) as u32
}

// The sheet has a line of a Case. The loop goes on where it found one: the compiler takes several lines at once if
// there is no other way out.
pub fn has_case(s: &[u64]) -> bool
    ensures { result ≡ has_case (rows s.now) }
{
    let mut found = false;
    for i in 0..line_count(s) {
        found |= triple_at(s, i).kind == 27;
    }
    found
}

// Var (name).
fn variable_term(
    board: &mut [u32],
    c: Run,
    s: &[u64],
    at: usize,
    t: &[u32],
    tn: usize,
    l: &mut [u32],
) -> Run
    requires { TermAsk 21 board.old c s.now at t.now tn × TypeFits s.now l.old × VarsFit board.old c s.now l.old }
    ensures { Infers board.old c s.now at t.now tn board.new result × (l.new ≡ variable_out board.old c s.now (get_or (rows s.now) at no_triple).value l.old) }
{
    let name = value_at(s, at);
    infer_variable(board, c, s, name, l, t, tn)
}

// Lambda (name, type, body): the lines of the type end where the body starts.
fn lambda_term(
    board: &mut [u32],
    c: Run,
    s: &[u64],
    at: usize,
    t: &[u32],
    tn: usize,
    l: &mut [u32],
) -> Run
    requires { TermAsk 23 board.old c s.now at t.now tn × TypeFits s.now l.old }
    ensures { Infers board.old c s.now at t.now tn board.new result × (l.new ≡ lambda_out c s.now at l.old) }
{
    let name = value_at(s, at);
    let body = part_at(s, at, 1);
    let start = at + 1;
    let n = wide(body) - start;
    infer_lambda(board, c, s, name, start, n, body, l, t, tn)
}

// App (function, argument).
fn apply_term(board: &mut [u32], c: Run, s: &[u64], at: usize, t: &[u32], tn: usize) -> Run
    requires { TermAsk 24 board.old c s.now at t.now tn }
    ensures { Infers board.old c s.now at t.now tn board.new result }
{
    let f = part_at(s, at, 0);
    let e = part_at(s, at, 1);
    infer_apply(board, c, f, e, t, tn)
}

// TypeLambda (name, body).
fn type_lambda_term(board: &mut [u32], c: Run, s: &[u64], at: usize, t: &[u32], tn: usize) -> Run
    requires { TermAsk 25 board.old c s.now at t.now tn }
    ensures { Infers board.old c s.now at t.now tn board.new result }
{
    let name = value_at(s, at);
    let e = part_at(s, at, 0);
    infer_type_lambda(board, c, name, e, t, tn)
}

// Constructor (name): the rule does not look at its arguments.
fn constructor_term(
    board: &mut [u32],
    c: Run,
    s: &[u64],
    at: usize,
    t: &[u32],
    tn: usize,
    l: &mut [u32],
) -> Run
    requires { TermAsk 26 board.old c s.now at t.now tn × TypeFits s.now l.old }
    ensures { Infers board.old c s.now at t.now tn board.new result × (l.new ≡ constructor_out c (rows s.now) l.old (find_entry 1 (get_or (rows s.now) at no_triple).value (rows s.now))) }
{
    let name = value_at(s, at);
    let Some(Extent { line, count }) = find_entry(s, 1, name as u64) else {
        return refuse(c, TypeError::UnboundDataConstructor(name));
    };
    infer_constructor(board, c, s, line, count, l, t, 0, tn)
}

// Case (scrutinee, arms): the arms stand after the scrutinee.
fn case_term(
    board: &mut [u32],
    c: Run,
    s: &[u64],
    at: usize,
    t: &[u32],
    tn: usize,
    l: &mut [u32],
    r: &mut [u32],
    w: &mut [usize],
    v: &mut [usize],
) -> Run
    requires { InferAsk board.old c s.now at t.now tn l.old × CaseRoom s.now r.old w.old v.old × (kind_at s.now at ≡ 27) }
    ensures { Infers board.old c s.now at t.now tn board.new result × (scratch l.new r.new w.new v.new ≡ case_scratch c (rows s.now) (nodes_at t.now 0 tn) (get_or (rows s.now) at no_triple).count (part_line (rows s.now) (at + 1) 1) (scratch l.old r.old w.old v.old)) }
{
    let n = triple_at(s, at).count as usize;
    let e = part_at(s, at, 0);
    let arm = wide(part_at(s, at, 1));
    infer_case(board, c, s, e, arm, n, w, v, l, r, t, tn)
}

// BinOp (operator, two operands).
fn bin_op_term(board: &mut [u32], c: Run, s: &[u64], at: usize, t: &[u32], tn: usize) -> Run
    requires { TermAsk 28 board.old c s.now at t.now tn }
    ensures { Infers board.old c s.now at t.now tn board.new result }
{
    let op = value_at(s, at);
    let e1 = part_at(s, at, 0);
    let e2 = part_at(s, at, 1);
    infer_bin_op(board, c, op, e1, e2, t, tn)
}

// If (condition, two branches).
fn if_term(board: &mut [u32], c: Run, s: &[u64], at: usize, t: &[u32], tn: usize) -> Run
    requires { TermAsk 29 board.old c s.now at t.now tn }
    ensures { Infers board.old c s.now at t.now tn board.new result }
{
    let e1 = part_at(s, at, 0);
    let e2 = part_at(s, at, 1);
    let e3 = part_at(s, at, 2);
    infer_if(board, c, e1, e2, e3, t, tn)
}

// IntrinsicCall (name, count, arguments): the rule looks at the first only, and only where the count is 1.
fn intrinsic_term(board: &mut [u32], c: Run, s: &[u64], at: usize, t: &[u32], tn: usize) -> Run
    requires { TermAsk 30 board.old c s.now at t.now tn }
    ensures { Infers board.old c s.now at t.now tn board.new result }
{
    let name = value_at(s, at);
    let count = triple_at(s, at).count as u32;
    let e = part_at(s, at, 0);
    infer_intrinsic(board, c, name, count, e, t, tn)
}

// A term of kind 21 to 30; there are no others.
fn infer_term(
    board: &mut [u32],
    c: Run,
    s: &[u64],
    at: usize,
    t: &[u32],
    tn: usize,
    l: &mut [u32],
    r: &mut [u32],
    w: &mut [usize],
    v: &mut [usize],
) -> Run
    requires { InferAsk board.old c s.now at t.now tn l.old × CaseLent s.now r.old w.old v.old }
    ensures { Infers board.old c s.now at t.now tn board.new result × (scratch l.new r.new w.new v.new ≡ infer_scratch board.old c s.now at (nodes_at t.now 0 tn) (scratch l.old r.old w.old v.old)) }
{
    match triple_at(s, at).kind {
        21 => variable_term(board, c, s, at, t, tn, l),
        22 => infer_lit_int(board, c, t, tn),
        23 => lambda_term(board, c, s, at, t, tn, l),
        24 => apply_term(board, c, s, at, t, tn),
        25 => type_lambda_term(board, c, s, at, t, tn),
        26 => constructor_term(board, c, s, at, t, tn, l),
        27 => case_term(board, c, s, at, t, tn, l, r, w, v),
        28 => bin_op_term(board, c, s, at, t, tn),
        29 => if_term(board, c, s, at, t, tn),
        _ => intrinsic_term(board, c, s, at, t, tn),
    }
}

// Inf of the term that starts at a line.
pub fn solve_inference(
    board: &mut [u32],
    c: Run,
    s: &[u64],
    line: u32,
    t: &[u32],
    tn: usize,
    l: &mut [u32],
    r: &mut [u32],
    w: &mut [usize],
    v: &mut [usize],
) -> Run
    requires { InferAsk board.old c s.now line t.now tn l.old × CaseLent s.now r.old w.old v.old }
    ensures { ((m : Way) (k rep : List ℕ) → WellFormed board.old k c → Does m (rows s.now) board.old k rep c (infer_by (env_on s.now) (nodes_at t.now 0 tn) (term_view (term_at (rows s.now) line))) board.new k rep result) × (scratch l.new r.new w.new v.new ≡ infer_scratch board.old c s.now line (nodes_at t.now 0 tn) (scratch l.old r.old w.old v.old)) }
{
    infer_term(board, c, s, wide(line), t, tn, l, r, w, v)
}
