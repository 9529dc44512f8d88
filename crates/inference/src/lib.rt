// Inf, Chk and InfApp: each function is one rule (worklist.rs: `solve_inference`, `solve_checking`, `solve_inf_app`).
// The taken entry's type is the tn nodes at the front of t; a term is its first line on the sheet.
#![tactic(auto)]

ghost use Rattle.std.specs.Prelude.{◌≡◌, List, ◌⊎◌, cond, ℕ, ◌+◌, ◌*◌, ◌≤◌, leb, length};
ghost use Rattle.std.proofs.lemmas.List.Edits.{sets};
ghost use Rattle.sizes.specs.Sizes.{most_nodes};
ghost use Rattle.nodes.specs.Nodes.{node, Ty, words, nodes_at};
ghost use Rattle.spelling.specs.declared.Triple.{Triple};
ghost use Rattle.sheet.specs.Rows.{rows};
ghost use Rattle.judgment.specs.Types.{unknown, arrow, is_arrow, is_forall, is_unknown, substitute};
ghost use Rattle.judgment.specs.Terms.{Term, is_lit_int, is_lambda, is_apply, is_type_lambda, is_bin_op, is_if, is_intrinsic};
ghost use Rattle.judgment.specs.Board.{done};
ghost use Rattle.judgment.specs.Rules.{Env, fresh_unknown, infer_by, synthesize as synthesize_rule, check_arrow, check_by, apply_by};
ghost use Rattle.judgment.specs.Result.{Way};
ghost use Rattle.board.specs.Board.{term_at, Stacked};
ghost use Rattle.operations.specs.State.{Bookable, WellFormed, Does, PerformsOnBoard, Scoped};
ghost use Rattle.inference.specs.Inference.{type_on, lambda_on, LinesAsk, next_at, HereAsk, Open};

use board::lay;
use core_types::substitute_type;
use judgment::TypeError;
use nodes::move_up;
use operations::{
    Counters, Entry, Run, fresh_evar, fresh_part, fresh_universal, push_chk, push_inf,
    push_inf_app, push_sub, push_tvar, push_var, refuse, solve_evar,
};
use sheet::copy_type;
use sizes::BOARD_BASE;

// A fresh unknown, c.counters.fresh, and its TVar.
fn fresh_unknown(board: &mut [u32], c: Run) -> Run
    requires { Stacked board.old c.counters.board }
    ensures { Stacked board.new result.counters.board × PerformsOnBoard board.old c (λ ls. fresh_unknown (λ a. done)) board.new result }
{
    let a = c.counters.fresh;
    let c1 = fresh_evar(c);
    push_tvar(board, c1, 17, a)
}

// LitInt.
pub fn infer_lit_int(board: &mut [u32], c: Run, t: &[u32], tn: usize) -> Run
    requires { Stacked board.old c.counters.board × (2 * tn ≤ length t.now) × Bookable board.old c }
    ensures { (E : Env) → PerformsOnBoard board.old c (λ ls. infer_by E (nodes_at t.now 0 tn) is_lit_int) board.new result }
{
    let int = [12u32, 1];
    push_sub(board, c, &int, 0, 1, t, 0, tn)
}

// Sub: the term's type is a fresh unknown, which is compared with the taken type.
pub fn synthesize(board: &mut [u32], c: Run, line: u32, t: &[u32], tn: usize) -> Run
    requires { Stacked board.old c.counters.board × (2 * tn ≤ length t.now) × Bookable board.old c }
    ensures { (E : Env) → PerformsOnBoard board.old c (λ ls. synthesize_rule E (term_at ls line) (nodes_at t.now 0 tn)) board.new result }
{
    let a = c.counters.fresh;
    let c1 = fresh_unknown(board, c);
    let u = [17u32, a];
    let c2 = push_sub(board, c1, &u, 0, 1, t, 0, tn);
    push_inf(board, c2, line, &u, 0, 1)
}

// App: the function's type is a fresh unknown.
pub fn infer_apply(board: &mut [u32], c: Run, f: u32, e: u32, t: &[u32], tn: usize) -> Run
    requires { Stacked board.old c.counters.board × (2 * tn ≤ length t.now) × Bookable board.old c }
    ensures { (E : Env) → PerformsOnBoard board.old c (λ ls. infer_by E (nodes_at t.now 0 tn) (is_apply (term_at ls f) (term_at ls e))) board.new result }
{
    let a = c.counters.fresh;
    let c1 = fresh_unknown(board, c);
    let u = [17u32, a];
    let c2 = push_inf_app(board, c1, e, &u, 0, 1, t, 0, tn);
    push_inf(board, c2, f, &u, 0, 1)
}

// If.
pub fn infer_if(board: &mut [u32], c: Run, e1: u32, e2: u32, e3: u32, t: &[u32], tn: usize) -> Run
    requires { Stacked board.old c.counters.board × (2 * tn ≤ length t.now) × Bookable board.old c }
    ensures { (E : Env) → PerformsOnBoard board.old c (λ ls. infer_by E (nodes_at t.now 0 tn) (is_if (term_at ls e1) (term_at ls e2) (term_at ls e3))) board.new result }
{
    let truth = [12u32, 2];
    let c1 = push_chk(board, c, e1, &truth, 0, 1);
    let c2 = push_chk(board, c1, e2, t, 0, tn);
    push_chk(board, c2, e3, t, 0, tn)
}

// The name of an operator's result: Int for 1 to 4 (Add, Sub, Mul, Div), Bool for Lt and Le.
fn result_name(op: u32) -> u32
    ensures { result ≡ cond (leb op 4) 1 2 }
{
    if op <= 4 { 1 } else { 2 }
}

// BinOp.
pub fn infer_bin_op(
    board: &mut [u32],
    c: Run,
    op: u32,
    e1: u32,
    e2: u32,
    t: &[u32],
    tn: usize,
) -> Run
    requires { Stacked board.old c.counters.board × (2 * tn ≤ length t.now) × Bookable board.old c }
    ensures { (E : Env) → PerformsOnBoard board.old c (λ ls. infer_by E (nodes_at t.now 0 tn) (is_bin_op op (term_at ls e1) (term_at ls e2))) board.new result }
{
    let types = [12u32, 1, 12, result_name(op)];
    let c1 = push_chk(board, c, e1, &types, 0, 1);
    let c2 = push_chk(board, c1, e2, &types, 0, 1);
    push_sub(board, c2, &types, 2, 1, t, 0, tn)
}

// TypeLambda: its type is a Forall of a fresh unknown.
pub fn infer_type_lambda(board: &mut [u32], c: Run, name: u32, e: u32, t: &[u32], tn: usize) -> Run
    requires { Stacked board.old c.counters.board × (2 * tn ≤ length t.now) × Bookable board.old c }
    ensures { (E : Env) → PerformsOnBoard board.old c (λ ls. infer_by E (nodes_at t.now 0 tn) (is_type_lambda name (term_at ls e))) board.new result }
{
    let b = c.counters.fresh;
    let c1 = fresh_unknown(board, c);
    let types = [14u32, name, 17, b];
    let c2 = push_sub(board, c1, &types, 0, 2, t, 0, tn);
    let c3 = push_tvar(board, c2, 11, name);
    push_inf(board, c3, e, &types, 2, 1)
}

// IntrinsicCall: `printInt`, name 4, takes one Int and gives a Unit; there is no other.
pub fn infer_intrinsic(
    board: &mut [u32],
    c: Run,
    name: u32,
    count: u32,
    e: u32,
    t: &[u32],
    tn: usize,
) -> Run
    requires { Stacked board.old c.counters.board × (2 * tn ≤ length t.now) × Bookable board.old c }
    ensures { (E : Env) → PerformsOnBoard board.old c (λ ls. infer_by E (nodes_at t.now 0 tn) (is_intrinsic name count (term_at ls e))) board.new result }
{
    if name != 4 {
        return refuse(c, TypeError::UnknownIntrinsic(name));
    }
    if count != 1 {
        return refuse(c, TypeError::IntrinsicArityMismatch(count));
    }
    let types = [12u32, 1, 12, 3];
    let c1 = push_chk(board, c, e, &types, 0, 1);
    push_sub(board, c1, &types, 2, 1, t, 0, tn)
}

// Writes the Arrow from the type on the n lines at line `first` to the unknown b, to the front of out.
fn write_arrow(out: &mut [u32], s: &[u64], first: usize, n: usize, b: u32)
    requires { (2 * n + 4 ≤ length out.old) × LinesAsk s.now first n }
    ensures { out.new ≡ sets out.old 0 (words (arrow (type_on s.now first n) (unknown b))) }
{
    let end = 2 + 2 * n;
    out[0] = 13;
    out[1] = 0;
    copy_type(out, 2, s, first, n);
    out[end] = 17;
    out[end + 1] = b;
}

// Lambda: its type is an Arrow to a fresh unknown. The type of the parameter is on the n lines at line `first` of the
// sheet.
pub fn infer_lambda(
    board: &mut [u32],
    c: Run,
    s: &[u64],
    name: u32,
    first: usize,
    n: usize,
    body: u32,
    out: &mut [u32],
    t: &[u32],
    tn: usize,
) -> Run
    requires { Stacked board.old c.counters.board × (2 * tn ≤ length t.now) × (2 * n + 4 ≤ length out.old) × LinesAsk s.now first n × Bookable board.old c }
    ensures { (out.new ≡ sets out.old 0 (words (arrow (type_on s.now first n) (unknown c.counters.fresh)))) × ((w : Way) (E : Env) (k rep : List ℕ) → WellFormed board.old k c → Does w (rows s.now) board.old k rep c (infer_by E (nodes_at t.now 0 tn) (is_lambda name (type_on s.now first n) (term_at (rows s.now) body))) board.new k rep result) }
{
    let b = c.counters.fresh;
    let c1 = fresh_unknown(board, c);
    write_arrow(out, s, first, n, b);
    let c2 = push_sub(board, c1, out, 0, n + 2, t, 0, tn);
    let c3 = push_var(board, c2, name, out, 2, n);
    push_inf(board, c3, body, out, 2 + 2 * n, 1)
}

// A Lambda checked against an Arrow, whose parts are the an nodes at word a of t and the bn nodes after them.
pub fn check_lambda(
    board: &mut [u32],
    c: Run,
    s: &[u64],
    name: u32,
    first: usize,
    n: usize,
    body: u32,
    out: &mut [u32],
    t: &[u32],
    a: usize,
    an: usize,
    bn: usize,
) -> Run
    requires { Stacked board.old c.counters.board × (a + 2 * an + 2 * bn ≤ length t.now) × (2 * n ≤ length out.old) × LinesAsk s.now first n × Bookable board.old c }
    ensures { (out.new ≡ sets out.old 0 (words (type_on s.now first n))) × ((w : Way) (E : Env) (e : Term) (T : Ty) (k rep : List ℕ) → WellFormed board.old k c → Does w (rows s.now) board.old k rep c (check_arrow E e T (nodes_at t.now a an) (nodes_at t.now (a + 2 * an) bn) (Some (lambda_on s.now name first n body))) board.new k rep result) }
{
    let b = a + 2 * an;
    copy_type(out, 0, s, first, n);
    let c1 = push_sub(board, c, out, 0, n, t, a, an);
    let c2 = push_var(board, c1, name, out, 0, n);
    push_chk(board, c2, body, t, b, bn)
}

// The same where the Arrow, its parts m and bn nodes, was the last type on the board, and all entries fit: its parts
// are moved up to where they stand in these.
pub fn check_lambda_here(
    board: &mut [u32],
    c: Run,
    s: &[u64],
    name: u32,
    first: usize,
    n: usize,
    body: u32,
    m: usize,
    bn: usize,
) -> Run
    requires { HereAsk board.old c s.now first n m bn }
    ensures { (w : Way) (E : Env) (e : Term) (T : Ty) (k rep : List ℕ) → WellFormed board.old k c → Does w (rows s.now) board.old k rep c (check_arrow E e T (nodes_at board.old (next_at c + 2) m) (nodes_at board.old (next_at c + 2 + 2 * m) bn) (Some (lambda_on s.now name first n body))) board.new k rep result }
{
    let b = c.counters.board;
    let at = BOARD_BASE + 2 * b.nodes;
    let mid = at + 2 * n;
    let again = mid + 2 * m;
    let rest = again + 2 * n;
    let from = at + 2 + 2 * m;
    move_up(board, rest, from, bn);
    move_up(board, mid, at + 2, m);
    copy_type(board, at, s, first, n);
    copy_type(board, again, s, first, n);
    let b1 = lay(board, b, Entry::Sub as u32, 0, n, m);
    let b2 = lay(board, b1, Entry::Var as u32, name, n, 0);
    let b3 = lay(board, b2, Entry::Chk as u32, body, bn, 0);
    Run {
        counters: Counters {
            board: b3,
            ..c.counters
        },
        ..c
    }
}

// A term checked against a Forall of `name` over the n nodes at word `at` of t: a fresh universal is put for the name,
// in place.
pub fn check_forall(
    board: &mut [u32],
    book: &mut [u32],
    c: Run,
    line: u32,
    name: u32,
    t: &mut [u32],
    at: usize,
    n: usize,
) -> Run
    requires { WellFormed board.old book.old c × (at + 2 * n ≤ length t.old) × (n ≤ most_nodes) }
    ensures { (t.new ≡ sets t.old at (words (substitute name (node 18 c.counters.fresh) (nodes_at t.old at n)))) × ((w : Way) (ls : List Triple) (E : Env) (T : Ty) (rep : List ℕ) → Does w ls board.old book.old rep c (check_by E (term_at ls line) T (is_forall name (nodes_at t.old at n))) board.new book.new rep result) }
{
    let u = c.counters.fresh;
    let c1 = fresh_universal(book, c);
    let c2 = push_tvar(board, c1, 18, u);
    substitute_type(t, at, n, name, 18, u);
    push_chk(board, c2, line, t, at, n)
}

// A function of an Arrow applied. The Arrow's parts are the an nodes at word a of t and the bn nodes after them; the
// result's type is the cn nodes at word ct.
pub fn apply_arrow(
    board: &mut [u32],
    c: Run,
    line: u32,
    t: &[u32],
    a: usize,
    an: usize,
    bn: usize,
    ct: usize,
    cn: usize,
) -> Run
    requires { Stacked board.old c.counters.board × (a + 2 * an + 2 * bn ≤ length t.now) × (ct + 2 * cn ≤ length t.now) × Bookable board.old c }
    ensures { (E : Env) (F : Ty) → PerformsOnBoard board.old c (λ ls. apply_by E F (term_at ls line) (nodes_at t.now ct cn) (is_arrow (nodes_at t.now a an) (nodes_at t.now (a + 2 * an) bn))) board.new result }
{
    let b = a + 2 * an;
    let c1 = push_sub(board, c, t, b, bn, t, ct, cn);
    push_chk(board, c1, line, t, a, an)
}

// A function of a Forall applied: a fresh unknown is put for the name, in place.
pub fn apply_forall(
    board: &mut [u32],
    c: Run,
    line: u32,
    name: u32,
    t: &mut [u32],
    at: usize,
    n: usize,
    ct: usize,
    cn: usize,
) -> Run
    requires { Stacked board.old c.counters.board × (at + 2 * n ≤ length t.old) × (n ≤ most_nodes) × (ct + 2 * cn ≤ length t.old) × ((ct + 2 * cn ≤ at) ⊎ (at + 2 * n ≤ ct)) × Bookable board.old c }
    ensures { (t.new ≡ sets t.old at (words (substitute name (node 17 c.counters.fresh) (nodes_at t.old at n)))) × ((E : Env) (F : Ty) → PerformsOnBoard board.old c (λ ls. apply_by E F (term_at ls line) (nodes_at t.old ct cn) (is_forall name (nodes_at t.old at n))) board.new result) }
{
    let a = c.counters.fresh;
    let c1 = fresh_unknown(board, c);
    substitute_type(t, at, n, name, 17, a);
    push_inf_app(board, c1, line, t, at, n, t, ct, cn)
}

// A function of the unknown x applied: x is split, solved by an Arrow of two fresh unknowns of its level.
pub fn apply_unknown(
    board: &mut [u32],
    book: &mut [u32],
    c: Run,
    line: u32,
    x: u32,
    t: &[u32],
    ct: usize,
    cn: usize,
) -> Run
    requires { WellFormed board.old book.old c × Open book.old c x × (ct + 2 * cn ≤ length t.now) }
    ensures { (w : Way) (ls : List Triple) (E : Env) (F : Ty) (rep : List ℕ) → Scoped w → Does w ls board.old book.old rep c (apply_by E F (term_at ls line) (nodes_at t.now ct cn) (is_unknown x)) board.new book.new rep result }
{
    let a = c.counters.fresh;
    let c1 = fresh_part(book, c, x);
    let b = c1.counters.fresh;
    let c2 = fresh_part(book, c1, x);
    let c3 = push_tvar(board, c2, 17, a);
    let c4 = push_tvar(board, c3, 17, b);
    let types = [13u32, 0, 17, a, 17, b];
    let c5 = solve_evar(book, c4, x, &types, 0, 3);
    let c6 = push_sub(board, c5, &types, 4, 1, t, ct, cn);
    push_chk(board, c6, line, &types, 2, 1)
}
