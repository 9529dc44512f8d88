// The operations of the rules on real buffers, and the longest chain that a book holds, followed: what stands in them afterwards is written out, word by word.
#![tactic(auto)]

ghost use Rattle.std.specs.Prelude.{◌≡◌, Bool, List, [], ◌∷◌, ℕ, ◌*◌, ◌≤◌, ◌<◌, length};
ghost use Rattle.spelling.specs.declared.Triple.{Triple};
ghost use Rattle.sizes.specs.Sizes.{most_nodes, most_numbers, usual_limit, board_size, book_size, usual_report};
ghost use Rattle.nodes.specs.Nodes.{Ty, node};
ghost use Rattle.judgment.specs.Links.{chained};
ghost use Rattle.book.specs.declared.Book.{Book as BookOf};
ghost use Rattle.book.specs.Book.{sols, Booked, given, grown};
ghost use Rattle.operations.specs.State.{WellFormed, Does, Scoped};
ghost use Rattle.operations_run.specs.Script.{script as script_rule};

use board::{Board, clear_board};
use book::{Book, Rest, Unlike, clear_book, compare, solve, write_out};
use judgment::TypeError;
use nodes::{clear_words, wide};
use operations::{
    Counters, Halt, Run, Zonked, fresh_evar, is_going, push_sub, push_tvar, push_var, refuse,
    solve_evar, zonk,
};
use sizes::{BOARD_SIZE, BOOK_SIZE, USUAL_LIMIT, USUAL_REPORT};

fn script(board: &mut [u32], book: &mut [u32], report: &mut [u32], c: Run) -> Run
    requires { WellFormed board.old book.old c × (2 * usual_limit ≤ length report.old) }
    ensures { (f : ℕ → Ty → Bool) (ls : List Triple) → Scoped (record { written = usual_limit; scope = f }) → Does (record { written = usual_limit; scope = f }) ls board.old book.old report.old c script_rule board.new book.new report.new result }
{
    let a = c.counters.fresh;
    let c1 = fresh_evar(c);
    let b = c1.counters.fresh;
    let c2 = fresh_evar(c1);
    let types = [17u32, a, 13, 0, 17, b, 17, b];
    let c3 = push_tvar(board, c2, 17, a);
    let c4 = push_sub(board, c3, &types, 0, 1, &types, 2, 3);
    let c5 = solve_evar(book, c4, a, &types, 2, 3);
    let z = zonk(book, c5, &types, 0, 1, report, 0, USUAL_LIMIT as usize);
    let c6 = z.run;
    let n = z.nodes;
    push_var(board, c6, 10, report, 0, n)
}

// Gives unknown k a solution of one node.
fn solve_by(book: &mut [u32], b: Book, k: u32, kind: u32, number: u32) -> Book
    requires { (book_size ≤ length book.old) × (k < most_numbers) × (b.nodes < most_nodes) }
    ensures { (book.new ≡ given book.old b k (node kind number ∷ [])) × (result ≡ grown b 1) }
{
    let solution = [kind, number];
    solve(book, b, k, &solution, 0, 1)
}

// The longest chain that a book holds: 0 is solved by 1, 1 by 2 and so on, and 999 by Int.
fn chain(book: &mut [u32]) -> Book
    requires { book_size ≤ length book.old }
    ensures { Booked book.new result × (sols book.new ≡ chained 999) }
{
    clear_book(book);
    let mut b = Book::new();
    for k in 0..999 {
        b = solve_by(book, b, k, 17, k + 1);
    }
    solve_by(book, b, 999, 12, 1)
}

fn number(rt: &HostRuntime, n: usize) {
    let _done = rt.print(n as u64);
}

// Writes out the place and the value of each word that is not 0.
fn words(rt: &HostRuntime, w: &[u32]) {
    for (i, x) in w.iter().enumerate() {
        if *x != 0 {
            number(rt, i);
            let _space = rt.write_all(b" ");
            number(rt, wide(*x));
            let _end = rt.write_all(b"\n");
        }
    }
}

// Writes out the counters, and whether the run goes on.
fn show_counters(rt: &HostRuntime, c: Run) {
    let board = c.counters.board;
    number(rt, wide(c.counters.fresh));
    for n in [
        board.entries,
        board.nodes,
        c.book.nodes,
        usize::from(is_going(c.halt)),
    ] {
        let _space = rt.write_all(b" ");
        number(rt, n);
    }
    let _end = rt.write_all(b"\n");
}

// All that stands in the buffers and the counters.
fn show(rt: &HostRuntime, board: &[u32], book: &[u32], report: &[u32], c: Run) {
    show_counters(rt, c);
    words(rt, board);
    words(rt, book);
    words(rt, report);
}

fn run(rt: &HostRuntime, board: &mut [u32], book: &mut [u32], report: &mut [u32])
    requires { (board_size ≤ length board.old) × (book_size ≤ length book.old) × (usual_report ≤ length report.old) }
{
    clear_board(board);
    clear_book(book);
    clear_words(report, 0, USUAL_REPORT);
    let counters = Counters {
        taken: 0,
        fresh: 0,
        board: Board::new(),
    };
    let start = Run {
        counters,
        book: Book::new(),
        halt: Halt::none(),
    };
    let c1 = script(board, book, report, start);
    let c2 = script(board, book, report, c1);
    show(rt, board, book, report, c2);
    let c3 = refuse(c2, TypeError::BoardFull);
    let c4 = script(board, book, report, c3);
    show(rt, board, book, report, c4);
}

fn show_met(rt: &HostRuntime, m: Result<Rest, Unlike>) {
    let text = match m {
        Ok(_) => "same",
        Err(Unlike::Differ) => "differ",
        Err(Unlike::Over) => "over",
    };
    let _met = rt.println(text);
}

// Follows that chain from 0: compared with Int, and written out.
fn follow(rt: &HostRuntime, book: &[u32], out: &mut [u32])
    requires { ((b : BookOf) × Booked book.now b) × (sols book.now ≡ chained 999) × (2 ≤ length out.old) }
{
    let first = [17u32, 0];
    let int = [12u32, 1];
    show_met(rt, compare(&first, &int, book, Rest::new(0, 0, 1, 1)));
    let _wrote = write_out(&first, 0, 1, book, out, 0, 1);
    words(rt, out);
}

fn main(rt: HostRuntime) {
    let mut board = [7u32; BOARD_SIZE + 2];
    let mut book = [7u32; BOOK_SIZE + 2];
    let mut report = [7u32; USUAL_REPORT + 1];
    run(&rt, &mut board, &mut book, &mut report);
    let mut written = [0u32; 2];
    let _nodes = chain(&mut book);
    follow(&rt, &book, &mut written);
}
