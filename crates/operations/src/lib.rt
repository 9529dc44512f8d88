// The operations that the rules are made of (worklist.rs: `fresh_evar`, `push`, `solve_evar`, `zonk`, an error
// returned). A run that was refused stays as it is, so a rule is straight-line code in the Rust's order.
#![tactic(auto)]

ghost use Rattle.std.specs.Prelude.{◌≡◌, [], ◌+◌, ◌*◌, ◌≤◌, ◌<◌, length};
ghost use Rattle.nodes.specs.Nodes.{node, nodes_at};
ghost use Rattle.judgment.specs.Solutions.{write_out};
ghost use Rattle.judgment.specs.Board.{refuse as refuse_rule, own, universal, splits, fresh as fresh_rule, done, tvar, var, sub, inf, chk, inf_app};
ghost use Rattle.board.specs.Board.{term_at, entry_of, Stacked};
ghost use Rattle.sizes.specs.Sizes.{most_numbers};
ghost use Rattle.book.specs.Book.{sols, Booked};
ghost use Rattle.operations.specs.State.{reported, no_halt, halt_of, error_of, refusal_of, Performs, going, refused_run, fresh_run, makes, Makes, Pushes, PushAsk, Gives, SolveAsk, zonk_run, zonk_words, ZonkAsk, Zonks};

use board::Board;
use book::{Book, level, lower, set_level, write_out};
use judgment::{Details, TypeError, error_details, error_number};

// Why a run was refused: the number of the error and its two details. The number 0 is none.
#[derive(Clone, Copy)]
pub struct Halt {
    pub number: u32,
    pub first: u32,
    pub second: u32,
}

impl Halt {
    pub fn none() -> Halt
        ensures { result ≡ no_halt }
    {
        Halt {
            number: 0,
            first: 0,
            second: 0,
        }
    }

    // Why the run was refused, if it was.
    #[tactic(auto, unfolding(crate::specs::State::refusal_of))]
    pub fn refusal(self) -> Option<TypeError>
        ensures { result ≡ refusal_of self }
    {
        if is_going(self) {
            return None;
        }
        Some(error_of(self))
    }
}

impl From<TypeError> for Halt {
    ghost from_gives = { λ e r. r ≡ halt_of e };

    fn from(e: TypeError) -> Halt {
        let Details(first, second) = error_details(e);
        Halt {
            number: error_number(e),
            first,
            second,
        }
    }
}

// The counters of a run: entries taken, fresh numbers, the board's entries and their nodes. A step is lent them.
#[derive(Clone, Copy)]
pub struct Counters {
    pub taken: u32,
    pub fresh: u32,
    pub board: Board,
}

// The kinds of the board's entries but for a TVar, which has the kind of its node.
#[derive(Clone, Copy)]
pub enum Entry {
    Var = 2,
    Sub = 3,
    Inf = 4,
    Chk = 5,
    InfApp = 6,
}

// What the rules hand on: the counters, the nodes of the book, and the refusal.
#[derive(Clone, Copy)]
pub struct Run {
    pub counters: Counters,
    pub book: Book,
    pub halt: Halt,
}

// A type written out: the run after it, and its nodes.
#[derive(Clone, Copy)]
pub struct Zonked {
    pub run: Run,
    pub nodes: usize,
}

pub fn is_going(h: Halt) -> bool
    ensures { result ≡ going h }
{
    h.number == 0
}

// The error of a run that was refused. A number that no error has is read as that of SolutionsFull.
#[tactic(auto, unfolding(crate::specs::State::error_of))]
pub fn error_of(h: Halt) -> TypeError
    ensures { result ≡ error_of h }
{
    match h.number {
        11 => TypeError::UnboundVariable(h.first),
        12 => TypeError::UnboundDataConstructor(h.first),
        13 => TypeError::NotAFunction(h.first),
        14 => TypeError::ArityMismatch(h.first, h.second),
        15 => TypeError::SubtypingError(h.first, h.second),
        16 => TypeError::TypeUnificationError,
        17 => TypeError::InstantiationError(h.first, h.second),
        18 => TypeError::IntrinsicArityMismatch(h.second),
        19 => TypeError::UnknownIntrinsic(h.first),
        22 => TypeError::BoardFull,
        23 => TypeError::TypeTooLong,
        24 => TypeError::NoFreshNumber,
        39 => TypeError::OutOfScope,
        _ => TypeError::SolutionsFull,
    }
}

// Refuses; the first refusal of a run stays. The types that the error names stand at the front of the report.
pub fn refuse(c: Run, e: TypeError) -> Run
    ensures { (result ≡ refused_run c e) × Performs c (λ rep. refuse_rule e (nodes_at rep 0 (reported e))) result }
{
    if !is_going(c.halt) {
        return c;
    }
    Run {
        halt: Halt::from(e),
        ..c
    }
}

// Makes a fresh number, of its own level: it is the counter before.
pub fn fresh_evar(c: Run) -> Run
    ensures { (result ≡ fresh_run c) × Performs c (λ rep. fresh_rule own (λ n. done)) result }
{
    let fresh = c.counters.fresh;
    if is_going(c.halt) && (fresh as usize) < Book::NUMBERS {
        return Run {
            counters: Counters {
                fresh: fresh + 1,
                ..c.counters
            },
            ..c
        };
    }
    refuse(c, TypeError::NoFreshNumber)
}

// Makes a fresh number of the level m.
fn fresh_level(book: &mut [u32], c: Run, m: u32) -> Run
    requires { Booked book.old c.book × (m < most_numbers) }
    ensures { (result ≡ fresh_run c) × (book.new ≡ makes book.old c m) }
{
    let n = c.counters.fresh;
    let r = fresh_evar(c);
    if is_going(r.halt) {
        set_level(book, n, m);
    }
    r
}

// Makes a fresh universal.
pub fn fresh_universal(book: &mut [u32], c: Run) -> Run
    requires { Booked book.old c.book }
    ensures { Makes book.old c universal book.new result }
{
    fresh_level(book, c, 0)
}

// Makes one of the two unknowns that x is split into: it has the level of x.
pub fn fresh_part(book: &mut [u32], c: Run, x: u32) -> Run
    requires { Booked book.old c.book × (x < most_numbers) }
    ensures { Makes book.old c (splits x) book.new result }
{
    let m = level(book, x);
    fresh_level(book, c, m)
}

// Pushes an entry whose types are ln nodes at word la of l and rn nodes at word ra of r.
pub fn push(
    board: &mut [u32],
    c: Run,
    kind: u32,
    number: u32,
    l: &[u32],
    la: usize,
    ln: usize,
    r: &[u32],
    ra: usize,
    rn: usize,
) -> Run
    requires { PushAsk board.old c kind number l.now la ln r.now ra rn }
    ensures { Pushes board.old c kind number (nodes_at l.now la ln) (nodes_at r.now ra rn) (λ ls. entry_of ls kind number (nodes_at l.now la ln) (nodes_at r.now ra rn)) board.new result }
{
    let b = c.counters.board;
    if is_going(c.halt) && b.fits(ln + rn) {
        let grown = board::push(board, b, kind, number, l, la, ln, r, ra, rn);
        return Run {
            counters: Counters {
                board: grown,
                ..c.counters
            },
            ..c
        };
    }
    refuse(c, TypeError::BoardFull)
}

// Gives the unsolved unknown x the n nodes at word `from` of src, which are in scope; no unknown in them keeps a higher
// level than that of x.
pub fn solve_evar(book: &mut [u32], c: Run, x: u32, src: &[u32], from: usize, n: usize) -> Run
    requires { SolveAsk book.old c x src.now from n }
    ensures { Gives book.old c x (nodes_at src.now from n) book.new result }
{
    if is_going(c.halt) && c.book.fits(n) {
        let m = level(book, x);
        let grown = book::solve(book, c.book, x, src, from, n);
        lower(book, m, src, from, n);
        return Run { book: grown, ..c };
    }
    refuse(c, TypeError::SolutionsFull)
}

// Writes out the n nodes at word `at` of src, to the report from node `to` on; a type of more than w nodes is refused.
pub fn zonk(
    book: &[u32],
    c: Run,
    src: &[u32],
    at: usize,
    n: usize,
    report: &mut [u32],
    to: usize,
    w: usize,
) -> Zonked
    requires { ZonkAsk book.now c src.now at n report.old to w }
    ensures { (result ≡ zonk_run c (write_out (sols book.now) (nodes_at src.now at n)) to w) × (report.new ≡ zonk_words report.old c (write_out (sols book.now) (nodes_at src.now at n)) to w) × Zonks book.now report.old c (nodes_at src.now at n) to w report.new result }
{
    if !is_going(c.halt) {
        return Zonked { run: c, nodes: 0 };
    }
    match write_out(src, at, n, book, report, to, to + w) {
        Some(end) => Zonked {
            run: c,
            nodes: end - to,
        },
        None => Zonked {
            run: refuse(c, TypeError::TypeTooLong),
            nodes: 0,
        },
    }
}

// Pushes the TVar of a name (kind 11), an unknown (17) or a fresh universal (18).
pub fn push_tvar(board: &mut [u32], c: Run, kind: u32, number: u32) -> Run
    requires { Stacked board.old c.counters.board × (6 < kind) }
    ensures { Pushes board.old c kind number [] [] (λ ls. tvar (node kind number)) board.new result }
{
    push(board, c, kind, number, &[], 0, 0, &[], 0, 0)
}

pub fn push_var(board: &mut [u32], c: Run, name: u32, t: &[u32], ta: usize, tn: usize) -> Run
    requires { Stacked board.old c.counters.board × (ta + 2 * tn ≤ length t.now) }
    ensures { Pushes board.old c 2 name (nodes_at t.now ta tn) [] (λ ls. var name (nodes_at t.now ta tn)) board.new result }
{
    push(board, c, Entry::Var as u32, name, t, ta, tn, t, 0, 0)
}

pub fn push_sub(
    board: &mut [u32],
    c: Run,
    l: &[u32],
    la: usize,
    ln: usize,
    r: &[u32],
    ra: usize,
    rn: usize,
) -> Run
    requires { Stacked board.old c.counters.board × (la + 2 * ln ≤ length l.now) × (ra + 2 * rn ≤ length r.now) }
    ensures { Pushes board.old c 3 0 (nodes_at l.now la ln) (nodes_at r.now ra rn) (λ ls. sub (nodes_at l.now la ln) (nodes_at r.now ra rn)) board.new result }
{
    push(board, c, Entry::Sub as u32, 0, l, la, ln, r, ra, rn)
}

pub fn push_inf(board: &mut [u32], c: Run, line: u32, t: &[u32], ta: usize, tn: usize) -> Run
    requires { Stacked board.old c.counters.board × (ta + 2 * tn ≤ length t.now) }
    ensures { Pushes board.old c 4 line (nodes_at t.now ta tn) [] (λ ls. inf (term_at ls line) (nodes_at t.now ta tn)) board.new result }
{
    push(board, c, Entry::Inf as u32, line, t, ta, tn, t, 0, 0)
}

pub fn push_chk(board: &mut [u32], c: Run, line: u32, t: &[u32], ta: usize, tn: usize) -> Run
    requires { Stacked board.old c.counters.board × (ta + 2 * tn ≤ length t.now) }
    ensures { Pushes board.old c 5 line (nodes_at t.now ta tn) [] (λ ls. chk (term_at ls line) (nodes_at t.now ta tn)) board.new result }
{
    push(board, c, Entry::Chk as u32, line, t, ta, tn, t, 0, 0)
}

pub fn push_inf_app(
    board: &mut [u32],
    c: Run,
    line: u32,
    f: &[u32],
    fa: usize,
    fcount: usize,
    t: &[u32],
    ta: usize,
    tn: usize,
) -> Run
    requires { Stacked board.old c.counters.board × (fa + 2 * fcount ≤ length f.now) × (ta + 2 * tn ≤ length t.now) }
    ensures { Pushes board.old c 6 line (nodes_at f.now fa fcount) (nodes_at t.now ta tn) (λ ls. inf_app (nodes_at f.now fa fcount) (term_at ls line) (nodes_at t.now ta tn)) board.new result }
{
    let kind = Entry::InfApp as u32;
    push(board, c, kind, line, f, fa, fcount, t, ta, tn)
}
