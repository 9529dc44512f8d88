// The run (worklist.rs: `solve`, `check_type`), from a sheet to the seven numbers.
#![tactic(auto)]

ghost use Rattle.std.specs.Prelude.{◌≡◌, true, false, List, ℕ, ◌+◌, ◌-◌, ◌*◌, ◌/◌, ◌^◌, ◌<◌, ◌≤◌, length};
ghost use Rattle.sizes.specs.Sizes.{line_length, most_nodes, usual_limit, highest_limit};
ghost use Rattle.grammar.specs.Check.{length_ok, check, check_number, check_line};
ghost use Rattle.sheet.specs.Plan.{triples};
ghost use Rattle.sheet.specs.Rows.{rows};
ghost use Rattle.judgment.specs.Run.{run_from};
ghost use Rattle.judgment.specs.Chain.{told};
ghost use Rattle.judgment.specs.Result.{limits_for, start_of, judge, refused_at, limit_bad, too_short};
ghost use Rattle.operations.specs.State.{outcome_of, state_of, WellFormed, going, mode_of};
ghost use Rattle.applying.specs.Applying.{env_on};
ghost use Rattle.judgment.specs.Board.{finished};
ghost use Rattle.judgment.specs.Levels.{own_levels, first_call, strict_call};
ghost use Rattle.book.specs.Book.{levels_of};
ghost use Rattle.stepping.specs.Stepping.{Standing, Lent, longest};
ghost use Rattle.ending.specs.Ending.{end_of};
ghost use Rattle.checker.specs.Calling.{StartAsk, PlanAsk, ReadAsk, TypedAsk, RunAsk, RowsAsk, CaseFits, Ran, Kept, ByCheck, FrontAsk, Fronted};
ghost use Rattle.checker.specs.Answered.{Answered};

use board::{Board, clear_board};
use book::{Book, clear_book, write_levels};
use ending::{answer, report_end, takes_more};
use inferring::has_case;
use judgment::Answer;
use nodes::clear_words;
use operations::{Counters, Halt, Run};
use reading::check_sheet;
use sheet::{copy_type, find_places, is_plain, line_count, part_line, read_plan};
use sizes::{
    BOARD_SIZE, BOOK_SIZE, HIGHEST_CEILING, HIGHEST_LIMIT, LINE_LENGTH, MOST_LINES, REPORT_STRIDE,
    SHEET_BYTES, TYPE_WORDS, USUAL_LIMIT,
};
use stepping::solve_step;

// Up to so many lines a sheet is lent less room than the longest one.
const TINY_LINES: usize = 24;

const SHORT_LINES: usize = 64;

const MIDDLE_LINES: usize = 256;

// Words for the rows of such sheets, four a line.
const TINY_ROWS: usize = 4 * TINY_LINES;

const SHORT_ROWS: usize = 4 * SHORT_LINES;

const MIDDLE_ROWS: usize = 4 * MIDDLE_LINES;

const LONG_ROWS: usize = 4 * MOST_LINES;

// What a Case asks of such sheets: words for a type, for the frames and for the bindings.
const SHORT_TYPE: usize = 2 * SHORT_LINES + 2;

const SHORT_FRAMES: usize = 6 * SHORT_LINES + 12;

const SHORT_BINDINGS: usize = 6 * SHORT_LINES + 6;

const MIDDLE_TYPE: usize = 2 * MIDDLE_LINES + 2;

const MIDDLE_FRAMES: usize = 6 * MIDDLE_LINES + 12;

const MIDDLE_BINDINGS: usize = 6 * MIDDLE_LINES + 6;

const LONG_TYPE: usize = 2 * MOST_LINES + 2;

const LONG_FRAMES: usize = 6 * MOST_LINES + 12;

const LONG_BINDINGS: usize = 6 * MOST_LINES + 6;

// No type on the board has more nodes than the larger of the limit and the sheet's lines: where neither passes this, less room is lent.
const USUAL_NODES: usize = USUAL_LIMIT as usize;

const USUAL_TYPE: usize = 2 * USUAL_NODES;

// What a call asks for: how many entries are taken at most, how many nodes a type written out has at most, and
// whether it is the strict call.
#[derive(Clone, Copy)]
struct Call {
    ceiling: u32,
    limit: usize,
    strict: bool,
    ghost ceiling_fits: { ceiling < 2 ^ 32 },
}

// Takes entries until the board is empty, a rule refuses or the ceiling's number were taken.
fn solve(
    board: &mut [u32],
    book: &mut [u32],
    report: &mut [u32],
    c: Run,
    s: &[u64],
    call: Call,
    t: &mut [u32],
    l: &mut [u32],
    r: &mut [u32],
    w: &mut [usize],
    v: &mut [usize],
) -> Run
    requires { Standing call.limit s.now board.old book.old c × (going c.halt ≡ true) × (call.limit ≤ most_nodes) × (4 * call.limit ≤ length report.old) × Lent call.limit s.now t.old l.old r.old w.old v.old }
    ensures { WellFormed board.new book.new result × (told c.counters.taken (levels_of book.old) (run_from (limits_for (mode_of call.strict) call.limit) (env_on s.now) (call.ceiling - c.counters.taken) (levels_of book.old) (state_of (rows s.now) board.old book.old c)) ≡ record { end = end_of report.new result; taken = result.counters.taken; last = state_of (rows s.now) board.new book.new result; levels = levels_of book.new }) }
{
    let mut run = c;
    while takes_more(run, call.ceiling) {
        run = solve_step(
            board,
            book,
            report,
            run,
            s,
            call.limit,
            call.strict,
            t,
            l,
            r,
            w,
            v,
        );
    }
    run
}

// The Chk of term and expected type on the board, and no solution.
fn start(board: &mut [u32], book: &mut [u32], s: &[u64], t: &mut [u32]) -> Run
    requires { StartAsk s.now board.old book.old t.old }
    ensures { WellFormed board.new book.new result × (result.counters.taken ≡ 0) × (levels_of book.new ≡ own_levels) × ((rep : List ℕ) → outcome_of (rows s.now) board.new book.new rep result ≡ finished (start_of (rows s.now))) }
{
    clear_book(book);
    let places = find_places(s);
    let first = places.expected;
    let n = part_line(s, first, 1) - first;
    copy_type(t, 0, s, first, n);
    let board = board::push(board, Board::new(), 5, places.term as u32, t, 0, n, t, 0, 0);
    Run {
        counters: Counters {
            taken: 0,
            fresh: 0,
            board,
        },
        book: Book::new(),
        halt: Halt::none(),
    }
}

// The run of a plan, and the buffers after it.
fn check_plan(
    s: &[u64],
    call: Call,
    board: &mut [u32],
    book: &mut [u32],
    report: &mut [u32],
    t: &mut [u32],
    l: &mut [u32],
    r: &mut [u32],
    w: &mut [usize],
    v: &mut [usize],
) -> Answer
    requires { PlanAsk call.limit s.now board.old book.old report.old t.old l.old r.old w.old v.old }
    ensures { Ran call.limit (judge (limits_for (mode_of call.strict) call.limit) call.ceiling (rows s.now)) board.new book.new report.new result }
{
    let c = start(board, book, s, t);
    let o = solve(board, book, report, c, s, call, t, l, r, w, v);
    clear_board(board);
    write_levels(book, o.counters.fresh);
    let size = report.len();
    let end = report_end(o.halt, size);
    clear_words(report, end, size - end);
    answer(o, is_plain(s))
}

// Lends room for a Case of that many words: for a type, for the frames and for the bindings.
fn case_with<const TYPE: usize, const FRAMES: usize, const BINDINGS: usize>(
    d: &[u64],
    call: Call,
    board: &mut [u32],
    book: &mut [u32],
    report: &mut [u32],
    t: &mut [u32],
    l: &mut [u32],
) -> Answer
    requires { TypedAsk call.limit d.now board.old book.old report.old t.old l.old × CaseFits d.now TYPE FRAMES BINDINGS × (8 * (TYPE + FRAMES + BINDINGS) < 2 ^ 63) }
    ensures { Ran call.limit (judge (limits_for (mode_of call.strict) call.limit) call.ceiling (rows d.now)) board.new book.new report.new result }
{
    let mut r = [0u32; TYPE];
    let mut w = [0usize; FRAMES];
    let mut v = [0usize; BINDINGS];
    check_plan(d, call, board, book, report, t, l, &mut r, &mut w, &mut v)
}

// The run of a sheet with a Case. Two functions call it, so it keeps a frame of its own: a sheet without a Case takes no stack for such room.
fn run_case(
    d: &[u64],
    call: Call,
    board: &mut [u32],
    book: &mut [u32],
    report: &mut [u32],
    t: &mut [u32],
    l: &mut [u32],
) -> Answer
    requires { TypedAsk call.limit d.now board.old book.old report.old t.old l.old }
    ensures { Ran call.limit (judge (limits_for (mode_of call.strict) call.limit) call.ceiling (rows d.now)) board.new book.new report.new result }
{
    let lines = line_count(d);
    if lines <= SHORT_LINES {
        return case_with::<SHORT_TYPE, SHORT_FRAMES, SHORT_BINDINGS>(
            d, call, board, book, report, t, l,
        );
    }
    if lines <= MIDDLE_LINES {
        return case_with::<MIDDLE_TYPE, MIDDLE_FRAMES, MIDDLE_BINDINGS>(
            d, call, board, book, report, t, l,
        );
    }
    case_with::<LONG_TYPE, LONG_FRAMES, LONG_BINDINGS>(d, call, board, book, report, t, l)
}

// Lends the rules room for two types of that many words, and for a Case where the sheet has one.
fn run_with<const WORDS: usize>(
    d: &[u64],
    call: Call,
    board: &mut [u32],
    book: &mut [u32],
    report: &mut [u32],
) -> Answer
    requires { ReadAsk call.limit d.now board.old book.old report.old × (2 * longest call.limit d.now ≤ WORDS) × (2 * length (rows d.now) + 2 ≤ WORDS) × (8 * WORDS < 2 ^ 63) }
    ensures { Ran call.limit (judge (limits_for (mode_of call.strict) call.limit) call.ceiling (rows d.now)) board.new book.new report.new result }
{
    let mut t = [0u32; WORDS];
    let mut l = [0u32; WORDS];
    if has_case(d) {
        return run_case(d, call, board, book, report, &mut t, &mut l);
    }
    case_with::<0, 0, 0>(d, call, board, book, report, &mut t, &mut l)
}

// The run of a sheet that was read. A room is cleared before it is lent, so it is no larger than limit and sheet ask.
fn run_read(
    d: &[u64],
    call: Call,
    board: &mut [u32],
    book: &mut [u32],
    report: &mut [u32],
) -> Answer
    requires { ReadAsk call.limit d.now board.old book.old report.old }
    ensures { Ran call.limit (judge (limits_for (mode_of call.strict) call.limit) call.ceiling (rows d.now)) board.new book.new report.new result }
{
    if line_count(d) < USUAL_NODES && call.limit <= USUAL_NODES {
        return run_with::<USUAL_TYPE>(d, call, board, book, report);
    }
    run_with::<TYPE_WORDS>(d, call, board, book, report)
}

// What a sheet that is no plan is refused for.
fn no_plan(s: &[u8]) -> Answer
    ensures { result ≡ refused_at (check_number (check s.now)) (check_line (check s.now)) }
{
    match check_sheet(s) {
        Ok(()) => Answer::refused(0, 0),
        Err(e) => Answer::refused(e.number(), e.line() as u32),
    }
}

// Reads the sheet, and lends the rules its rows. Only a sheet that is no plan is read again, for its refusal.
fn run_rows(
    s: &[u8],
    call: Call,
    board: &mut [u32],
    book: &mut [u32],
    report: &mut [u32],
    d: &mut [u64],
) -> Answer
    requires { RowsAsk call.limit s.now board.old book.old report.old d.old }
    ensures { ByCheck (check s.now) (Ran call.limit (judge (limits_for (mode_of call.strict) call.limit) call.ceiling (triples s.now)) board.new book.new report.new result) (Kept (check s.now) board.old book.old report.old board.new book.new report.new result) }
{
    if !read_plan(d, s) {
        return no_plan(s);
    }
    run_read(d, call, board, book, report)
}

// Lends rows of that many words, enough for the sheet. A room is cleared before it is lent, so it is no larger than the
// sheet asks.
fn run_lines<const ROWS: usize>(
    s: &[u8],
    call: Call,
    board: &mut [u32],
    book: &mut [u32],
    report: &mut [u32],
) -> Answer
    requires { RunAsk call.limit s.now board.old book.old report.old × (4 * (length s.now / line_length) ≤ ROWS) × (8 * ROWS < 2 ^ 63) }
    ensures { ByCheck (check s.now) (Ran call.limit (judge (limits_for (mode_of call.strict) call.limit) call.ceiling (triples s.now)) board.new book.new report.new result) (Kept (check s.now) board.old book.old report.old board.new book.new report.new result) }
{
    let mut d = [0u64; ROWS];
    let words = 4 * (s.len() / LINE_LENGTH);
    run_rows(s, call, board, book, report, &mut d[..words])
}

fn run_plan(s: &[u8], call: Call, board: &mut [u32], book: &mut [u32], report: &mut [u32]) -> Answer
    requires { RunAsk call.limit s.now board.old book.old report.old }
    ensures { ByCheck (check s.now) (Ran call.limit (judge (limits_for (mode_of call.strict) call.limit) call.ceiling (triples s.now)) board.new book.new report.new result) (Kept (check s.now) board.old book.old report.old board.new book.new report.new result) }
{
    let lines = s.len() / LINE_LENGTH;
    if lines <= TINY_LINES {
        return run_lines::<TINY_ROWS>(s, call, board, book, report);
    }
    if lines <= SHORT_LINES {
        return run_lines::<SHORT_ROWS>(s, call, board, book, report);
    }
    if lines <= MIDDLE_LINES {
        return run_lines::<MIDDLE_ROWS>(s, call, board, book, report);
    }
    run_lines::<LONG_ROWS>(s, call, board, book, report)
}

// Lends the words that a buffer must have: a longer one keeps its tail.
fn run_front(
    s: &[u8],
    call: Call,
    board: &mut [u32],
    book: &mut [u32],
    report: &mut [u32],
) -> Answer
    requires { FrontAsk call.limit s.now board.old book.old report.old }
    ensures { ByCheck (check s.now) (Fronted call.limit (judge (limits_for (mode_of call.strict) call.limit) call.ceiling (triples s.now)) board.old book.old report.old board.new book.new report.new result) (Kept (check s.now) board.old book.old report.old board.new book.new report.new result) }
{
    run_plan(
        s,
        call,
        &mut board[..BOARD_SIZE],
        &mut book[..BOOK_SIZE],
        &mut report[..REPORT_STRIDE * call.limit],
    )
}

// No limit that a caller may pick.
fn limit_bad(limit: usize) -> bool
    ensures { result ≡ limit_bad limit }
{
    limit == 0 || HIGHEST_LIMIT < limit
}

// A buffer has fewer words than a run with this limit writes.
fn too_short(limit: usize, board: &[u32], book: &[u32], report: &[u32]) -> bool
    requires { limit ≤ highest_limit }
    ensures { result ≡ too_short limit (record { board = board.entry.now; book = book.now; report = report.now }) }
{
    board.len() < BOARD_SIZE || book.len() < BOOK_SIZE || report.len() < REPORT_STRIDE * limit
}

// 3: length 0, over 58,000 or no multiple of 29.
fn length_ok(n: usize) -> bool
    ensures { result ≡ length_ok n }
{
    0 < n && n <= SHEET_BYTES && n % LINE_LENGTH == 0
}

// A plan by the strict call or the first, with at most `ceiling` entries taken and `limit` nodes in a type written out: refusals 1, 32
// and 2 to 5 in that order, which write nothing, and then the run. Longer buffers keep their tails.
fn check_call(
    sheet: &[u8],
    ceiling: u32,
    limit: u32,
    strict: bool,
    board: &mut [u32],
    book: &mut [u32],
    report: &mut [u32],
) -> Answer
    ensures { Answered (mode_of strict) sheet.now ceiling limit (record { board = board.entry.now; book = book.old; report = report.old }) result (record { board = board.exit.now; book = book.new; report = report.new }) }
{
    if HIGHEST_CEILING < ceiling {
        return Answer::refused(1, 0);
    }
    let nodes = limit as usize;
    if limit_bad(nodes) {
        return Answer::refused(32, 0);
    }
    if too_short(nodes, board, book, report) {
        return Answer::refused(2, 0);
    }
    if !length_ok(sheet.len()) {
        return Answer::refused(3, 0);
    }
    let call = Call {
        ceiling,
        limit: nodes,
        strict,
    };
    run_front(sheet, call, board, book, report)
}

// Checks a plan as the Rust does.
pub fn check_type(
    sheet: &[u8],
    ceiling: u32,
    limit: u32,
    board: &mut [u32],
    book: &mut [u32],
    report: &mut [u32],
) -> Answer
    ensures { Answered first_call sheet.now ceiling limit (record { board = board.entry.now; book = book.old; report = report.old }) result (record { board = board.exit.now; book = book.new; report = report.new }) }
{
    check_call(sheet, ceiling, limit, false, board, book, report)
}

// The same, and 39 where a solution has a universal that is out of the unknown's scope.
pub fn check_type_strict(
    sheet: &[u8],
    ceiling: u32,
    limit: u32,
    board: &mut [u32],
    book: &mut [u32],
    report: &mut [u32],
) -> Answer
    ensures { Answered strict_call sheet.now ceiling limit (record { board = board.entry.now; book = book.old; report = report.old }) result (record { board = board.exit.now; book = book.new; report = report.new }) }
{
    check_call(sheet, ceiling, limit, true, board, book, report)
}
