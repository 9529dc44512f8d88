// The functions of the C interface, which `exports_c` exports. A `&[u8]` is a pointer and a length there, a `&mut u32` a pointer.
#![tactic(auto)]

ghost use Rattle.std.specs.Prelude.{◌≡◌, ℕ, ◌*◌, length};
ghost use Rattle.sizes.specs.Sizes.{usual_limit, board_size, book_size, report_stride};
ghost use Rattle.grammar.specs.Check.{check, check_number, check_line};
ghost use Rattle.nodes.specs.Nodes.{Ty};
ghost use Rattle.judgment.specs.Solutions.{Solutions};
ghost use Rattle.judgment.specs.Levels.{Levels, first_call, strict_call};
ghost use Rattle.judgment.specs.Result.{board_words, book_words, report_words};
ghost use Rattle.exports.specs.Interface.{Given, GivenSheet, term_on, version, Least, Highest, HighestLimit, Longest, OneLine};

use checker::{check_type, check_type_strict};
use reading::{check_sheet, term_of_sheet};
use sizes::{
    BOARD_SIZE, BOOK_SIZE, HIGHEST_CEILING, HIGHEST_LIMIT, LINE_LENGTH, REPORT_STRIDE, SHEET_BYTES,
    USUAL_LIMIT,
};
use writing::write_sheet;

// Document 01's number of a sheet, 0, 3, 4 or 5, and its line.
pub fn kirvoghus_read_sheet(sheet: &[u8], line: &mut u32) -> u32
    ensures { (result ≡ check_number (check sheet.now)) × (line.new ≡ check_line (check sheet.now)) }
{
    match check_sheet(sheet) {
        Ok(()) => {
            *line = 0;
            0
        }
        Err(e) => {
            *line = e.line() as u32;
            e.number()
        }
    }
}

// How many bytes the term has that starts at a line, which are numbered from 1: they stand from byte 29 (line - 1) on. 0 if no whole
// term starts there, and for more bytes than a sheet has: the readers call themselves, and their depth goes with the lines.
pub fn kirvoghus_term_bytes(sheet: &[u8], line: u32) -> usize
    ensures { result ≡ length (term_on sheet.now line) }
{
    if SHEET_BYTES < sheet.len() || line == 0 {
        return 0;
    }
    term_of_sheet(sheet, (line - 1) as usize).len()
}

// The checker's entry call. `res` gets the seven numbers; the answer is the first of them.
pub fn kirvoghus_check_type(
    sheet: &[u8],
    ceiling: u32,
    limit: u32,
    board: &mut [u32],
    book: &mut [u32],
    report: &mut [u32],
    res: &mut [u32; 7],
) -> u32
    ensures { Given first_call sheet.now ceiling limit (record { board = board.entry.now; book = book.old; report = report.old }) result res.new (record { board = board.exit.now; book = book.new; report = report.new }) }
{
    let a = check_type(sheet, ceiling, limit, board, book, report);
    *res = a.numbers();
    a.number
}

// The strict call, which takes and gives the same.
pub fn kirvoghus_check_type_strict(
    sheet: &[u8],
    ceiling: u32,
    limit: u32,
    board: &mut [u32],
    book: &mut [u32],
    report: &mut [u32],
    res: &mut [u32; 7],
) -> u32
    ensures { Given strict_call sheet.now ceiling limit (record { board = board.entry.now; book = book.old; report = report.old }) result res.new (record { board = board.exit.now; book = book.new; report = report.new }) }
{
    let a = check_type_strict(sheet, ceiling, limit, board, book, report);
    *res = a.numbers();
    a.number
}

// A plan's triples written as a sheet at the front of `out`. `res` and the answer as above.
pub fn kirvoghus_write_sheet(triples: &[u64], out: &mut [u8], res: &mut [u32; 7]) -> u32
    ensures { GivenSheet triples.now out.old result res.new out.new }
{
    let a = write_sheet(triples, out);
    *res = a.numbers();
    a.number
}

// The number of this interface, for a caller to compare with the one that it was written for.
pub fn kirvoghus_version() -> u32
    ensures { result ≡ version }
{
    6
}

// The words of the board: so many are written by a run, and a call takes no fewer.
pub fn kirvoghus_board_words() -> usize
    ensures { (result ≡ length board_words) × ((limit : ℕ) → Least limit result book_size (report_stride * limit)) }
{
    BOARD_SIZE
}

// The words of the book, the same.
pub fn kirvoghus_book_words() -> usize
    ensures { ((σ : Solutions) (v : Levels) (n : ℕ) → result ≡ length (book_words σ v n)) × ((limit : ℕ) → Least limit board_size result (report_stride * limit)) }
{
    BOOK_SIZE
}

// The words of the report, the same, for a limit.
pub fn kirvoghus_report_words(limit: u32) -> usize
    ensures { ((t : Ty) → result ≡ length (report_words limit t)) × Least limit board_size book_size result }
{
    REPORT_STRIDE * (limit as usize)
}

// The highest ceiling that a call takes.
pub fn kirvoghus_ceiling() -> u32
    ensures { Highest result }
{
    HIGHEST_CEILING
}

// The highest limit that a call takes; the lowest is 1.
pub fn kirvoghus_limit_most() -> u32
    ensures { HighestLimit result }
{
    HIGHEST_LIMIT as u32
}

// Document 01's limit, which the programs pick.
pub fn kirvoghus_limit() -> u32
    ensures { result ≡ usual_limit }
{
    USUAL_LIMIT
}

// The bytes of the longest sheet.
pub fn kirvoghus_sheet_bytes() -> usize
    ensures { Longest result }
{
    SHEET_BYTES
}

// The bytes of a sheet's line, with its LF.
pub fn kirvoghus_line_bytes() -> usize
    ensures { OneLine result }
{
    LINE_LENGTH
}
