// Sub and the instantiations (worklist.rs: `solve_subtype`, `instantiate_left`, `instantiate_right`). The two sides are
// compared while solutions are followed; sides that differ are written out to the report, left and then right.
#![tactic(auto)]

ghost use Rattle.std.specs.Prelude.{◌≡◌, ◌≢◌, true, List, ℕ, ◌+◌, ◌*◌, ◌-◌, ◌≤◌, ◌<◌, length, get_or};
ghost use Rattle.nodes.specs.Nodes.{node, nodes_at};
ghost use Rattle.spelling.specs.declared.Triple.{Triple};
ghost use Rattle.judgment.specs.Types.{view};
ghost use Rattle.judgment.specs.Solutions.{write_out};
ghost use Rattle.judgment.specs.Board.{push as push_rule, done};
ghost use Rattle.judgment.specs.Rules.{on_side, solve_monotype, instantiate as instantiate_rule, forall_right, forall_left, unknown_left, subtype_by, subtype as subtype_rule};
ghost use Rattle.judgment.specs.Result.{Way};
ghost use Rattle.judgment.specs.Levels.{scope_of};
ghost use Rattle.sizes.specs.Sizes.{most_numbers, book_size};
ghost use Rattle.board.specs.Board.{Stacked};
ghost use Rattle.book.specs.Book.{sols, levels_of};
ghost use Rattle.operations.specs.State.{WellFormed, Does, PerformsOnBoard, way_in, mode_of, Scoped};
ghost use Rattle.subtyping.specs.declared.Shape.TheVariants.{Forall, Unknown};
ghost use Rattle.subtyping.specs.Subtyping.{shape_of, side_of, other_side, split_by, right_by, parts_by, opened_at, mono_report, inst_report, right_report, unknown_report, shapes_report, differ_report, subtype_report, SplitAsk, MonoAsk, InstAsk, PartsAsk, OpenAsk, SubAsk, SubtypeAsk};

use board::before;
use book::{Rest, Unlike, compare, level};
use core_types::{first_part, is_monotype, none_above, occurs_check, substitute_type};
use judgment::TypeError;
use nodes::move_to_front;
use operations::{
    Run, fresh_evar, fresh_part, fresh_universal, is_going, push_sub, push_tvar, refuse,
    solve_evar, zonk,
};

// What a type is, by its front.
#[derive(Clone, Copy)]
pub enum Shape {
    Arrow,
    App,
    Forall,
    Unknown,
    Other,
}

impl Shape {
    // The shape of the n nodes at word `at` of t.
    pub fn of(t: &[u32], at: usize, n: usize) -> Shape
        requires { at + 2 * n ≤ length t.now }
        ensures { result ≡ shape_of (view (nodes_at t.now at n)) }
    {
        if n == 0 {
            return Shape::Other;
        }
        match (t[at], t[at + 1]) {
            (13, 0) => Shape::Arrow,
            (15, 0) => Shape::App,
            (14, _) => Shape::Forall,
            (17, _) if n == 1 => Shape::Unknown,
            _ => Shape::Other,
        }
    }
}

// The side of a comparison that an unknown stands on.
#[derive(Clone, Copy)]
pub enum Side {
    Left,
    Right,
}

impl Side {
    fn other(self) -> Side
        ensures { side_of result ≡ other_side (side_of self) }
    {
        match self {
            Side::Left => Side::Right,
            Side::Right => Side::Left,
        }
    }
}

// The comparison of an unknown, on its side, with a type.
fn push_on(board: &mut [u32], c: Run, side: Side, u: &[u32], t: &[u32], at: usize, n: usize) -> Run
    requires { Stacked board.old c.counters.board × (2 ≤ length u.now) × (at + 2 * n ≤ length t.now) }
    ensures { PerformsOnBoard board.old c (λ ls. push_rule (on_side (side_of side) (nodes_at u.now 0 1) (nodes_at t.now at n)) done) board.new result }
{
    match side {
        Side::Left => push_sub(board, c, u, 0, 1, t, at, n),
        Side::Right => push_sub(board, c, t, at, n, u, 0, 1),
    }
}

// Splits x: solves it with a pair of two fresh unknowns of its level, and compares these with the parts of a type: the
// n nodes at word `at` of t.
fn split(
    board: &mut [u32],
    book: &mut [u32],
    c: Run,
    kind: u32,
    x: u32,
    first: Side,
    second: Side,
    t: &[u32],
    at: usize,
    n: usize,
) -> Run
    requires { SplitAsk board.old book.old c kind x t.now at n }
    ensures { (w : Way) (ls : List Triple) (rep : List ℕ) → Scoped w → Does w ls board.old book.old rep c (split_by kind x (side_of first) (side_of second) (nodes_at t.now at n)) board.new book.new rep result }
{
    let m = first_part(t, at, n);
    let next = at + 2 * m;
    let more = n - m;
    let a = c.counters.fresh;
    let c1 = fresh_part(book, c, x);
    let b = c1.counters.fresh;
    let c2 = fresh_part(book, c1, x);
    let pair = [kind, 0, 17, a, 17, b];
    let c3 = solve_evar(book, c2, x, &pair, 0, 3);
    let c4 = push_tvar(board, c3, 17, a);
    let c5 = push_tvar(board, c4, 17, b);
    let c6 = push_on(board, c5, first, &[17, a], t, at, m);
    push_on(board, c6, second, &[17, b], t, next, more)
}

// Whether x may have the n nodes at word `at` of the report for its solution: by the strict call no universal in them
// is numbered above the level of x.
fn in_scope(book: &[u32], report: &[u32], strict: bool, x: u32, at: usize, n: usize) -> bool
    requires { (book_size ≤ length book.now) × (x < most_numbers) × (at + 2 * n ≤ length report.now) }
    ensures { result ≡ scope_of (mode_of strict) (levels_of book.now) x (nodes_at report.now at n) }
{
    !strict || none_above(report, at, n, level(book, x))
}

// Solves x with the n nodes at word `at` of the report, or refuses if there is a quantifier in them or they are out of
// scope.
fn solve_monotype(
    book: &mut [u32],
    report: &mut [u32],
    c: Run,
    strict: bool,
    x: u32,
    at: usize,
    n: usize,
) -> Run
    requires { MonoAsk book.old report.old c x at n }
    ensures { ((m : ℕ) (ls : List Triple) (b : List ℕ) → WellFormed b book.old c → Does (way_in strict m book.old) ls b book.old report.old c (solve_monotype x (nodes_at report.old at n)) b book.new report.new result) × (report.new ≡ mono_report report.old (nodes_at report.old at n)) }
{
    if !is_monotype(report, at, n) {
        move_to_front(report, at, n);
        return refuse(c, TypeError::InstantiationError(x, n as u32));
    }
    if !in_scope(book, report, strict, x, at, n) {
        return refuse(c, TypeError::OutOfScope);
    }
    solve_evar(book, c, x, report, at, n)
}

// Instantiation of x, standing on that side, with the n nodes at word `at` of the report.
pub fn instantiate(
    board: &mut [u32],
    book: &mut [u32],
    report: &mut [u32],
    c: Run,
    strict: bool,
    side: Side,
    x: u32,
    at: usize,
    n: usize,
) -> Run
    requires { InstAsk board.old book.old report.old c x at n }
    ensures { ((m : ℕ) (ls : List Triple) → Does (way_in strict m book.old) ls board.old book.old report.old c (instantiate_rule (side_of side) x (nodes_at report.old at n)) board.new book.new report.new result) × (report.new ≡ inst_report report.old (nodes_at report.old at n) (view (nodes_at report.old at n))) }
{
    let body = at + 2;
    let other = side.other();
    match Shape::of(report, at, n) {
        Shape::Arrow => split(board, book, c, 13, x, other, side, report, body, n - 1),
        Shape::App => split(board, book, c, 15, x, side, side, report, body, n - 1),
        Shape::Unknown if before(board, c.counters.board, x, report[at + 1]) => {
            solve_evar(book, c, report[at + 1], &[17, x], 0, 1)
        }
        _ => solve_monotype(book, report, c, strict, x, at, n),
    }
}

// Compares the parts of two Arrows, crossed, or of two Apps: the ln nodes at word la of t and the rn nodes at word ra.
fn push_parts(
    board: &mut [u32],
    c: Run,
    cross: bool,
    t: &[u32],
    la: usize,
    ln: usize,
    ra: usize,
    rn: usize,
) -> Run
    requires { PartsAsk board.old c t.now la ln ra rn }
    ensures { PerformsOnBoard board.old c (λ ls. parts_by cross (nodes_at t.now la ln) (nodes_at t.now ra rn)) board.new result }
{
    let a = first_part(t, la, ln);
    let b = first_part(t, ra, rn);
    let lm = la + 2 * a;
    let rm = ra + 2 * b;
    let lk = ln - a;
    let rk = rn - b;
    let c1 = if cross {
        push_sub(board, c, t, ra, b, t, la, a)
    } else {
        push_sub(board, c, t, la, a, t, ra, b)
    };
    push_sub(board, c1, t, lm, lk, t, rm, rk)
}

// A quantifier on the right: its name is replaced by a fresh universal.
fn open_right(
    board: &mut [u32],
    book: &mut [u32],
    report: &mut [u32],
    c: Run,
    l: usize,
    r: usize,
) -> Run
    requires { OpenAsk board.old report.old c l r × WellFormed board.old book.old c × (0 < r) }
    ensures { ((w : Way) (ls : List Triple) → Does w ls board.old book.old report.old c (forall_right (nodes_at report.old 0 l) (nodes_at report.old (2 * l) r) (get_or report.old (2 * l + 1) 0) (nodes_at report.old (2 * l + 2) (r - 1))) board.new book.new report.new result) × (report.new ≡ opened_at report.old (2 * l + 2) (get_or report.old (2 * l + 1) 0) (node 18 c.counters.fresh) (nodes_at report.old (2 * l + 2) (r - 1))) }
{
    let head = 2 * l;
    let at = head + 2;
    let name = report[head + 1];
    let m = r - 1;
    let u = c.counters.fresh;
    substitute_type(report, at, m, name, 18, u);
    let c1 = fresh_universal(book, c);
    let c2 = push_tvar(board, c1, 18, u);
    push_sub(board, c2, report, 0, l, report, at, m)
}

// A quantifier on the left: its name is replaced by a fresh unknown, after its marker.
fn open_left(board: &mut [u32], report: &mut [u32], c: Run, l: usize, r: usize) -> Run
    requires { OpenAsk board.old report.old c l r × (0 < l) }
    ensures { ((w : Way) (ls : List Triple) (k : List ℕ) → WellFormed board.old k c → Does w ls board.old k report.old c (forall_left (nodes_at report.old 0 l) (nodes_at report.old (2 * l) r) (get_or report.old 1 0) (nodes_at report.old 2 (l - 1))) board.new k report.new result) × (report.new ≡ opened_at report.old 2 (get_or report.old 1 0) (node 17 c.counters.fresh) (nodes_at report.old 2 (l - 1))) }
{
    let name = report[1];
    let m = l - 1;
    let right = 2 * l;
    let u = c.counters.fresh;
    substitute_type(report, 2, m, name, 17, u);
    let c1 = fresh_evar(c);
    let c2 = push_tvar(board, c1, 17, u);
    let c3 = push_tvar(board, c2, 17, u);
    push_sub(board, c3, report, 2, m, report, right, r)
}

// The right side alone: an unknown that does not occur on the left is instantiated, and anything else is a mismatch.
fn unknown_right(
    board: &mut [u32],
    book: &mut [u32],
    report: &mut [u32],
    c: Run,
    strict: bool,
    l: usize,
    r: usize,
) -> Run
    requires { SubAsk board.old book.old report.old c l r × (shape_of (view (nodes_at report.old 0 l)) ≢ Forall) }
    ensures { ((m : ℕ) (ls : List Triple) → Does (way_in strict m book.old) ls board.old book.old report.old c (right_by (nodes_at report.old 0 l) (nodes_at report.old (2 * l) r) (view (nodes_at report.old (2 * l) r))) board.new book.new report.new result) × (report.new ≡ right_report report.old (nodes_at report.old 0 l) (view (nodes_at report.old (2 * l) r))) }
{
    let right = 2 * l;
    let x = report[right + 1];
    match Shape::of(report, right, r) {
        Shape::Unknown if !occurs_check(report, 0, l, x) => {
            instantiate(board, book, report, c, strict, Side::Right, x, 0, l)
        }
        _ => refuse(c, TypeError::SubtypingError(l as u32, r as u32)),
    }
}

// An unknown on the left that does not occur on the right is instantiated.
fn unknown_left(
    board: &mut [u32],
    book: &mut [u32],
    report: &mut [u32],
    c: Run,
    strict: bool,
    l: usize,
    r: usize,
) -> Run
    requires { SubAsk board.old book.old report.old c l r × (shape_of (view (nodes_at report.old 0 l)) ≡ Unknown) × (shape_of (view (nodes_at report.old (2 * l) r)) ≢ Forall) }
    ensures { ((m : ℕ) (ls : List Triple) → Does (way_in strict m book.old) ls board.old book.old report.old c (unknown_left (nodes_at report.old 0 l) (nodes_at report.old (2 * l) r) (get_or report.old 1 0) (right_by (nodes_at report.old 0 l) (nodes_at report.old (2 * l) r) (view (nodes_at report.old (2 * l) r)))) board.new book.new report.new result) × (report.new ≡ unknown_report report.old (get_or report.old 1 0) (nodes_at report.old 0 l) (nodes_at report.old (2 * l) r)) }
{
    let right = 2 * l;
    let x = report[1];
    if occurs_check(report, right, r, x) {
        return unknown_right(board, book, report, c, strict, l, r);
    }
    instantiate(board, book, report, c, strict, Side::Left, x, right, r)
}

// Two written-out types that are not the same.
fn subtype_shapes(
    board: &mut [u32],
    book: &mut [u32],
    report: &mut [u32],
    c: Run,
    strict: bool,
    l: usize,
    r: usize,
) -> Run
    requires { SubAsk board.old book.old report.old c l r }
    ensures { ((m : ℕ) (ls : List Triple) → Does (way_in strict m book.old) ls board.old book.old report.old c (subtype_by (nodes_at report.old 0 l) (nodes_at report.old (2 * l) r) (view (nodes_at report.old 0 l)) (view (nodes_at report.old (2 * l) r))) board.new book.new report.new result) × (report.new ≡ shapes_report report.old c.counters.fresh (nodes_at report.old 0 l) (nodes_at report.old (2 * l) r) (view (nodes_at report.old (2 * l) r))) }
{
    let right = 2 * l;
    match (Shape::of(report, 0, l), Shape::of(report, right, r)) {
        (_, Shape::Forall) => open_right(board, book, report, c, l, r),
        (Shape::Forall, _) => open_left(board, report, c, l, r),
        (Shape::Unknown, _) => unknown_left(board, book, report, c, strict, l, r),
        (Shape::Arrow, Shape::Arrow) => {
            push_parts(board, c, true, report, 2, l - 1, right + 2, r - 1)
        }
        (Shape::App, Shape::App) => {
            push_parts(board, c, false, report, 2, l - 1, right + 2, r - 1)
        }
        _ => unknown_right(board, book, report, c, strict, l, r),
    }
}

// Sub of types that differ when written out: they stand one after the other from word `at` of the board on, and are
// written out, left and then right.
fn subtype_out(
    board: &mut [u32],
    book: &mut [u32],
    report: &mut [u32],
    c: Run,
    at: usize,
    ln: usize,
    rn: usize,
    w: usize,
    strict: bool,
) -> Run
    requires { SubtypeAsk board.old book.old report.old c at ln rn w × (write_out (sols book.old) (nodes_at board.old at ln) ≢ write_out (sols book.old) (nodes_at board.old (at + 2 * ln) rn)) }
    ensures { ((ls : List Triple) → Does (way_in strict w book.old) ls board.old book.old report.old c (subtype_rule (nodes_at board.old at ln) (nodes_at board.old (at + 2 * ln) rn)) board.new book.new report.new result) × (report.new ≡ differ_report report.old c (write_out (sols book.old) (nodes_at board.old at ln)) (write_out (sols book.old) (nodes_at board.old (at + 2 * ln) rn)) w) }
{
    let z = zonk(book, c, board, at, ln, report, 0, w);
    let y = zonk(book, z.run, board, at + 2 * ln, rn, report, z.nodes, w);
    if !is_going(y.run.halt) {
        return y.run;
    }
    subtype_shapes(board, book, report, y.run, strict, z.nodes, y.nodes)
}

// Sub: compares its two types, which stand one after the other from word `at` of the board on, with at most w nodes;
// equal sides finish, and where both have more nodes neither is written out.
pub fn solve_subtype(
    board: &mut [u32],
    book: &mut [u32],
    report: &mut [u32],
    c: Run,
    at: usize,
    ln: usize,
    rn: usize,
    w: usize,
    strict: bool,
) -> Run
    requires { SubtypeAsk board.old book.old report.old c at ln rn w }
    ensures { ((ls : List Triple) → Does (way_in strict w book.old) ls board.old book.old report.old c (subtype_rule (nodes_at board.old at ln) (nodes_at board.old (at + 2 * ln) rn)) board.new book.new report.new result) × (report.new ≡ subtype_report report.old c (write_out (sols book.old) (nodes_at board.old at ln)) (write_out (sols book.old) (nodes_at board.old (at + 2 * ln) rn)) w) }
{
    match compare(board, board, book, Rest::new(at, at + 2 * ln, 1, w)) {
        Ok(_) => c,
        Err(Unlike::Differ) => subtype_out(board, book, report, c, at, ln, rn, w, strict),
        Err(Unlike::Over) => refuse(c, TypeError::TypeTooLong),
    }
}
