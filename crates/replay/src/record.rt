// A recorded call: what it is told, and the words that are wanted after it.

ghost use Rattle.std.specs.Prelude.{◌≡◌, ◌+◌, ◌*◌, ◌≤◌, List, ℕ, [], IfSome, length};
ghost use Rattle.sizes.specs.Sizes.{line_length, most_nodes};
ghost use Rattle.replay.specs.Recorded.{wanted, dirt, line_into, lines_into, edit_into, edits_into, edited, sheet_of, report_into, solution_into, book_into, all_levels, run_into, no_run_into, is_run, answer_into, kind, own_loan, loan_of, recorded};
ghost use Rattle.replay.specs.Reading.{ReadsAs, Reads, Writes, solved_in, bytes_in, record_in, LoanIn, PlanIn};

use crate::cursor::Cursor;
use columns::write_line;
use nodes::clear_words;
use sizes::{
    BOARD_SIZE, BOOK_BASE, BOOK_SIZE, BOOK_STRIDE, LINE_LENGTH, MOST_LINES, MOST_NODES,
    MOST_NUMBERS, REPORT_STRIDE, USUAL_LIMIT, USUAL_REPORT,
};
use spelling::Triple;

// Words of the buffers: each has some more than a call needs.
pub const BOARD_ROOM: usize = BOARD_SIZE + 16;

pub const BOOK_ROOM: usize = BOOK_SIZE + 8;

pub const REPORT_ROOM: usize = USUAL_REPORT + 4;

// The words wanted after a call: the board's from 0 on, then the book's, the report's and the seven numbers.
pub const BOOK: usize = BOARD_ROOM;

pub const REPORT: usize = BOOK + BOOK_ROOM;

pub const SEVEN: usize = REPORT + REPORT_ROOM;

pub const WANTED: usize = SEVEN + 7;

// The longest sheet has two lines too many.
pub const SHEET_ROOM: usize = LINE_LENGTH * (MOST_LINES + 2);

// The highest limit that the report has room for.
const LIMIT_ROOM: usize = USUAL_LIMIT as usize + 1;

// Whether the call is the strict one, and whether the record is raw.
#[derive(Clone, Copy)]
pub struct Kind {
    pub strict: bool,
    pub raw: bool,
}

// The limit on written-out types, and how many words of each buffer are lent.
#[derive(Clone, Copy)]
pub struct Loan {
    pub limit: u32,
    pub board: usize,
    pub book: usize,
    pub report: usize,
}

// What a call is told but for its sheet, and how many bytes that has.
#[derive(Clone, Copy)]
pub struct Plan {
    pub strict: bool,
    pub ceiling: u32,
    pub loan: Loan,
    pub bytes: usize,
}

// Three numbers as a line of a sheet. What its columns can't hold is no line.
#[tactic(auto, unfolding(crate::specs::Recorded::line_into))]
fn sheet_line(line: &mut Cursor, sheet: &mut [u8], to: usize) -> Option<()>
    requires { to + line_length ≤ length sheet.old }
    ensures { Writes (line_into sheet.old to line.old.rest.now) result sheet.new line.new.rest.now }
{
    let kind = line.up_to(999)?;
    let value = line.number()?;
    let count = line.up_to(99999)?;
    let t = Triple {
        kind: kind as u64,
        negative: value.negative,
        value: value.magnitude,
        count: count as u64,
    };
    write_line(sheet, to, t);
    Some(())
}

#[tactic(auto, using(crate::proofs::Numbers::turns), unfolding(crate::specs::Recorded::lines_into))]
fn sheet_lines(line: &mut Cursor, sheet: &mut [u8], n: usize) -> Option<()>
    requires { line_length * n ≤ length sheet.old }
    ensures { Writes (lines_into n sheet.old line.old.rest.now) result sheet.new line.new.rest.now }
{
    for i in 0..n {
        sheet_line(line, sheet, LINE_LENGTH * i)?;
    }
    Some(())
}

// A place below `bytes` and the byte that stands there.
#[tactic(auto, unfolding(crate::specs::Recorded::edit_into))]
fn put_edit(line: &mut Cursor, sheet: &mut [u8], bytes: usize) -> Option<()>
    requires { bytes ≤ length sheet.old }
    ensures { Writes (edit_into bytes sheet.old line.old.rest.now) result sheet.new line.new.rest.now }
{
    let place = line.word()? as usize;
    let byte = line.up_to(255)?;
    if place >= bytes {
        return None;
    }
    sheet[place] = byte as u8;
    Some(())
}

#[tactic(auto, using(crate::proofs::Numbers::turns), unfolding(crate::specs::Recorded::edits_into))]
fn put_edits(line: &mut Cursor, sheet: &mut [u8], bytes: usize, n: usize) -> Option<()>
    requires { bytes ≤ length sheet.old }
    ensures { Writes (edits_into n bytes sheet.old line.old.rest.now) result sheet.new line.new.rest.now }
{
    for _ in 0..n {
        put_edit(line, sheet, bytes)?;
    }
    Some(())
}

// How many bytes the sheet of a raw record has, and where they are not those of its lines.
#[tactic(auto, unfolding(crate::specs::Recorded::edited))]
fn read_edits(line: &mut Cursor, sheet: &mut [u8; SHEET_ROOM]) -> Option<usize>
    ensures read { ReadsAs (bytes_in sheet.new) (edited sheet.old line.old.rest.now) result line.new.rest.now }
    ensures room { IfSome result (λ n. n ≤ SHEET_ROOM) }
{
    let bytes = line.up_to(SHEET_ROOM)?;
    let n = line.word()? as usize;
    put_edits(line, sheet, bytes, n)?;
    Some(bytes)
}

// The sheet, 0 behind it. Answers how many bytes it has.
#[tactic(auto, unfolding(crate::specs::Recorded::sheet_of))]
fn read_sheet(line: &mut Cursor, sheet: &mut [u8; SHEET_ROOM], raw: bool) -> Option<usize>
    ensures read { ReadsAs (bytes_in sheet.new) (sheet_of raw line.old.rest.now) result line.new.rest.now }
    ensures room { IfSome result (λ n. n ≤ SHEET_ROOM) }
{
    sheet.fill(0);
    let lines = line.up_to(MOST_LINES + 2)?;
    sheet_lines(line, sheet, lines)?;
    if raw {
        return read_edits(line, sheet);
    }
    Some(LINE_LENGTH * lines)
}

// A count of at most `most` and that many nodes, as the report's first words.
#[tactic(auto, unfolding(crate::specs::Recorded::report_into))]
fn read_report(line: &mut Cursor, want: &mut [u32; WANTED], most: usize) -> Option<()>
    requires { 2 * most ≤ REPORT_ROOM }
    ensures { Writes (report_into most want.old line.old.rest.now) result want.new line.new.rest.now }
{
    let n = line.up_to(most)?;
    line.words(want, REPORT, 2 * n)
}

// An unknown, a count and that many nodes, laid into the book after `nodes` nodes.
// Answers how many nodes there are then.
#[tactic(auto, unfolding(crate::specs::Recorded::solution_into))]
fn read_solution(line: &mut Cursor, want: &mut [u32; WANTED], nodes: usize) -> Option<usize>
    requires { nodes ≤ most_nodes }
    ensures read { ReadsAs (solved_in want.new) (solution_into nodes want.old line.old.rest.now) result line.new.rest.now }
    ensures bound { IfSome result (λ n. n ≤ most_nodes) }
{
    let k = line.up_to(MOST_NUMBERS - 1)?;
    let n = line.up_to(MOST_NODES - nodes)?;
    let start = BOOK_BASE + 2 * nodes;
    want[BOOK + BOOK_STRIDE * k] = start as u32;
    want[BOOK + BOOK_STRIDE * k + 1] = n as u32;
    line.words(want, BOOK + start, 2 * n)?;
    Some(nodes + n)
}

// A count and that many solutions.
#[tactic(auto, using(crate::proofs::Numbers::turns), unfolding(crate::specs::Recorded::book_into))]
fn read_book(line: &mut Cursor, want: &mut [u32; WANTED]) -> Option<()>
    ensures { Writes (book_into want.old line.old.rest.now) result want.new line.new.rest.now }
{
    let n = line.up_to(MOST_NUMBERS)?;
    let mut nodes = 0;
    for _ in 0..n {
        nodes = read_solution(line, want, nodes)?;
    }
    Some(())
}

// The levels of the numbers made, as many as the fourth of the seven numbers says.
#[tactic(auto, using(crate::proofs::Numbers::turns), unfolding(crate::specs::Recorded::all_levels, crate::specs::Recorded::levels_into, crate::specs::Recorded::word_into))]
fn read_levels(line: &mut Cursor, want: &mut [u32; WANTED]) -> Option<()>
    ensures { Writes (all_levels want.old line.old.rest.now) result want.new line.new.rest.now }
{
    let n = want[SEVEN + 3] as usize;
    if n > MOST_NUMBERS {
        return None;
    }
    for k in 0..n {
        want[BOOK + BOOK_STRIDE * k + 2] = line.word()?;
    }
    Some(())
}

// What a run leaves: the board 0, the report's types, the book's solutions and levels, then 0.
// A higher limit than the report has room for gives no run.
#[tactic(auto, unfolding(crate::specs::Recorded::run_into))]
fn read_run(line: &mut Cursor, want: &mut [u32; WANTED], limit: u32) -> Option<()>
    ensures { Writes (run_into limit want.old line.old.rest.now) result want.new line.new.rest.now }
{
    let written = limit as usize;
    if written > LIMIT_ROOM {
        return None;
    }
    clear_words(want, 0, BOARD_SIZE);
    clear_words(want, BOOK, BOOK_SIZE);
    clear_words(want, REPORT, REPORT_STRIDE * written);
    read_report(line, want, 2 * written)?;
    read_book(line, want)?;
    read_levels(line, want)
}

// A plan that comes to no run has no types, solutions and levels.
#[tactic(auto, unfolding(crate::specs::Recorded::no_run_into))]
fn read_no_run(line: &mut Cursor) -> Option<()>
    ensures { (w : List ℕ) → Writes (no_run_into w line.old.rest.now) result w line.new.rest.now }
{
    line.up_to(0)?;
    line.up_to(0)?;
    Some(())
}

// Whether an answer of this number is a run's.
fn is_run(number: u32) -> bool
    ensures { result ≡ is_run number }
{
    !matches!(number, 1..=5 | 32)
}

#[tactic(auto, unfolding(crate::specs::Recorded::answer_into))]
fn read_answer(line: &mut Cursor, want: &mut [u32; WANTED], limit: u32) -> Option<()>
    ensures { Writes (answer_into limit want.old line.old.rest.now) result want.new line.new.rest.now }
{
    line.words(want, SEVEN, 7)?;
    if is_run(want[SEVEN]) {
        read_run(line, want, limit)
    } else {
        read_no_run(line)
    }
}

// 1 and 3 are the first call, 2 and 4 the strict one.
#[tactic(auto, unfolding(crate::specs::Recorded::kind))]
fn read_kind(line: &mut Cursor) -> Option<Kind>
    ensures { Reads (kind line.old.rest.now) result line.new.rest.now }
{
    let (strict, raw) = match line.word()? {
        1 => (false, false),
        2 => (true, false),
        3 => (false, true),
        4 => (true, true),
        _ => return None,
    };
    Some(Kind { strict, raw })
}

#[tactic(auto, unfolding(crate::specs::Recorded::own_loan))]
fn own_loan(line: &mut Cursor) -> Option<Loan>
    ensures read { Reads (own_loan line.old.rest.now) result line.new.rest.now }
    ensures room { IfSome result (λ x. LoanIn x) }
{
    let limit = line.word()?;
    let board = line.up_to(BOARD_ROOM)?;
    let book = line.up_to(BOOK_ROOM)?;
    let report = line.up_to(REPORT_ROOM)?;
    Some(Loan {
        limit,
        board,
        book,
        report,
    })
}

// A raw record names the words; any other is lent all.
#[tactic(auto, unfolding(crate::specs::Recorded::loan_of))]
fn read_loan(line: &mut Cursor, raw: bool) -> Option<Loan>
    ensures read { Reads (loan_of raw line.old.rest.now) result line.new.rest.now }
    ensures room { IfSome result (λ x. LoanIn x) }
{
    if raw {
        return own_loan(line);
    }
    Some(Loan {
        limit: USUAL_LIMIT,
        board: BOARD_ROOM,
        book: BOOK_ROOM,
        report: REPORT_ROOM,
    })
}

// A whole record: its plan and sheet, and the words wanted after the call.
#[tactic(auto, unfolding(crate::specs::Recorded::recorded))]
pub fn read_record(
    text: &[u8],
    sheet: &mut [u8; SHEET_ROOM],
    want: &mut [u32; WANTED],
) -> Option<Plan>
    requires { want.old ≡ dirt wanted }
    ensures read { ReadsAs (record_in sheet.new want.new) (recorded text.now) result [] }
    ensures room { IfSome result (λ p. PlanIn p) }
{
    let mut line = Cursor { rest: text };
    let kind = read_kind(&mut line)?;
    let ceiling = line.word()?;
    let loan = read_loan(&mut line, kind.raw)?;
    let bytes = read_sheet(&mut line, sheet, kind.raw)?;
    read_answer(&mut line, want, loan.limit)?;
    if !line.rest.is_empty() {
        return None;
    }
    Some(Plan {
        strict: kind.strict,
        ceiling,
        loan,
        bytes,
    })
}
