// A Case (worklist.rs: `solve_inference` for a Case): its scrutinee, and of each arm the pattern, its variables, its
// body.
#![tactic(auto)]

ghost use Rattle.std.specs.Prelude.{◌≡◌, List, ℕ, ◌+◌, ◌*◌, ◌<◌};
ghost use Rattle.nodes.specs.Nodes.{nodes_at};
ghost use Rattle.sheet.specs.Rows.{rows, Ended};
ghost use Rattle.judgment.specs.Types.{unknown};
ghost use Rattle.judgment.specs.Terms.{is_case};
ghost use Rattle.judgment.specs.Rules.{push_vars, check_arms, infer_by};
ghost use Rattle.judgment.specs.Result.{Way};
ghost use Rattle.board.specs.Board.{from_line, term_at};
ghost use Rattle.operations.specs.State.{WellFormed, Does};
ghost use Rattle.tables.specs.Rows.{bindings_at};
ghost use Rattle.patterns.specs.Turns.{Turn};
ghost use Rattle.patterns.specs.Readings.{env_at};
ghost use Rattle.arms.specs.Arms.{VarsAsk, ArmAsk, Armed, ArmsAsk, CaseAsk};
ghost use Rattle.arms.specs.Rooms.{room, vars_run, vars_out, arm_room, after_arm, arms_room, case_room};

use operations::{Run, fresh_evar, is_going, push_chk, push_tvar, push_var};
use patterns::{Checked, check_pattern};
use references::instance;
use sheet::part_line;
use tables::get;

// Pushes the Var of each of the n bindings in v. l is scratch.
fn push_vars(board: &mut [u32], c: Run, s: &[u64], v: &[usize], n: usize, l: &mut [u32]) -> Run
    requires { VarsAsk board.old c (rows s.now) v.now n l.old × Ended s.now }
    ensures { Turn {A = ℕ} (rows s.now) board.old c (λ f. push_vars (bindings_at (rows s.now) v.now 0 n) (f 0)) board.new result (λ f. f 0) × (result ≡ vars_run (rows s.now) v.now 0 n c) × (l.new ≡ vars_out (rows s.now) v.now 0 n c l.old) }
{
    let mut run = c;
    for i in 0..n {
        if !is_going(run.halt) {
            return run;
        }
        let q = get(v, i);
        let name = v[6 * i] as u32;
        instance(l, s, q);
        run = push_var(board, run, name, l, 0, q.count);
    }
    run
}

// The run, and the line after the arm.
#[derive(Clone, Copy)]
pub struct Arm {
    pub run: Run,
    pub next: usize,
}

// The arm that starts at line `first`, against the unknown u; its body must have the type of tn nodes at word ta of t.
// w, v, l and r are scratch.
fn check_arm(
    board: &mut [u32],
    c: Run,
    s: &[u64],
    first: usize,
    u: u32,
    w: &mut [usize],
    v: &mut [usize],
    l: &mut [u32],
    r: &mut [u32],
    t: &[u32],
    ta: usize,
    tn: usize,
) -> Arm
    requires { ArmAsk board.old c (rows s.now) first u w.old v.old l.old r.old t.now ta tn × Ended s.now }
    ensures { Armed board.old c (rows s.now) first u (nodes_at t.now ta tn) board.new result × (result.next ≡ after_arm (rows s.now) first) × (room result.run w.new v.new l.new r.new ≡ arm_room (rows s.now) u (nodes_at t.now ta tn) first (room c w.old v.old l.old r.old)) }
{
    let body = part_line(s, first, 1);
    let lines = body - first;
    let Checked { run: read, bound } = check_pattern(board, c, s, first, lines, u, w, v, l, r);
    let named = push_vars(board, read, s, v, bound, l);
    let run = push_chk(board, named, body as u32, t, ta, tn);
    let next = part_line(s, body, 1);
    Arm { run, next }
}

// The n arms from line `line` on.
pub fn check_arms(
    board: &mut [u32],
    c: Run,
    s: &[u64],
    line: usize,
    n: usize,
    u: u32,
    w: &mut [usize],
    v: &mut [usize],
    l: &mut [u32],
    r: &mut [u32],
    t: &[u32],
    ta: usize,
    tn: usize,
) -> Run
    requires { ArmsAsk board.old c (rows s.now) line n u w.old v.old l.old r.old t.now ta tn × Ended s.now }
    ensures { ((m : Way) (k rep : List ℕ) → WellFormed board.old k c → Does m (rows s.now) board.old k rep c (check_arms (env_at (rows s.now)) n (from_line (rows s.now) line) (unknown u) (nodes_at t.now ta tn)) board.new k rep result) × (room result w.new v.new l.new r.new ≡ arms_room (rows s.now) u (nodes_at t.now ta tn) n line (room c w.old v.old l.old r.old)) }
{
    let mut run = c;
    let mut at = line;
    for _ in 0..n {
        if !is_going(run.halt) {
            return run;
        }
        Arm { run, next: at } = check_arm(board, run, s, at, u, w, v, l, r, t, ta, tn);
    }
    run
}

// Case: the scrutinee's type is a fresh unknown, which every arm's pattern must have. `e` is the scrutinee's line,
// `line` that of the first arm.
pub fn infer_case(
    board: &mut [u32],
    c: Run,
    s: &[u64],
    e: u32,
    line: usize,
    n: usize,
    w: &mut [usize],
    v: &mut [usize],
    l: &mut [u32],
    r: &mut [u32],
    t: &[u32],
    tn: usize,
) -> Run
    requires { CaseAsk board.old c (rows s.now) line n w.old v.old l.old r.old t.now tn × Ended s.now }
    ensures { ((m : Way) (k rep : List ℕ) → WellFormed board.old k c → Does m (rows s.now) board.old k rep c (infer_by (env_at (rows s.now)) (nodes_at t.now 0 tn) (is_case n (term_at (rows s.now) e) (from_line (rows s.now) line))) board.new k rep result) × (room result w.new v.new l.new r.new ≡ case_room (rows s.now) (nodes_at t.now 0 tn) n line (room c w.old v.old l.old r.old)) }
{
    let a = c.counters.fresh;
    let c1 = fresh_evar(c);
    let c2 = push_tvar(board, c1, 17, a);
    let u = [17u32, a];
    let c3 = push_chk(board, c2, e, &u, 0, 1);
    check_arms(board, c3, s, line, n, a, w, v, l, r, t, 0, tn)
}
