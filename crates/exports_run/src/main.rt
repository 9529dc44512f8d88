// Calls each function of the C interface from one that knows nothing of its arguments, so that a function there which asked something
// of them could not be called; each says what the one that it calls says. Then shows what they give of sizes and of the first plan.
#![tactic(auto)]

ghost use Rattle.std.specs.Prelude.{◌≡◌, ℕ, ◌*◌, length};
ghost use Rattle.sizes.specs.Sizes.{usual_limit, board_size, book_size, report_stride};
ghost use Rattle.grammar.specs.Check.{check, check_number, check_line};
ghost use Rattle.nodes.specs.Nodes.{Ty};
ghost use Rattle.judgment.specs.Solutions.{Solutions};
ghost use Rattle.judgment.specs.Levels.{Levels, first_call, strict_call};
ghost use Rattle.judgment.specs.Result.{board_words, book_words, report_words};
ghost use Rattle.exports.specs.Interface.{Given, GivenSheet, term_on, version, Least, Highest, HighestLimit, Longest, OneLine};

use exports::{
    kirvoghus_board_words, kirvoghus_book_words, kirvoghus_ceiling, kirvoghus_check_type,
    kirvoghus_check_type_strict, kirvoghus_limit, kirvoghus_limit_most, kirvoghus_line_bytes,
    kirvoghus_read_sheet, kirvoghus_report_words, kirvoghus_sheet_bytes, kirvoghus_term_bytes,
    kirvoghus_version, kirvoghus_write_sheet,
};
use sizes::{BOARD_SIZE, BOOK_SIZE, USUAL_REPORT};

fn read_sheet(sheet: &[u8], line: &mut u32) -> u32
    ensures { (result ≡ check_number (check sheet.now)) × (line.new ≡ check_line (check sheet.now)) }
{
    kirvoghus_read_sheet(sheet, line)
}

fn term_bytes(sheet: &[u8], line: u32) -> usize
    ensures { result ≡ length (term_on sheet.now line) }
{
    kirvoghus_term_bytes(sheet, line)
}

fn check_type(
    sheet: &[u8],
    ceiling: u32,
    limit: u32,
    board: &mut [u32],
    book: &mut [u32],
    report: &mut [u32],
    res: &mut [u32; 7],
) -> u32
    ensures { Given first_call sheet.now ceiling limit (record { board = board.entry.now; book = book.old; report = report.old }) result res.new (record { board = board.exit.now; book = book.new; report = report.new }) }
{
    kirvoghus_check_type(sheet, ceiling, limit, board, book, report, res)
}

fn check_type_strict(
    sheet: &[u8],
    ceiling: u32,
    limit: u32,
    board: &mut [u32],
    book: &mut [u32],
    report: &mut [u32],
    res: &mut [u32; 7],
) -> u32
    ensures { Given strict_call sheet.now ceiling limit (record { board = board.entry.now; book = book.old; report = report.old }) result res.new (record { board = board.exit.now; book = book.new; report = report.new }) }
{
    kirvoghus_check_type_strict(sheet, ceiling, limit, board, book, report, res)
}

fn write_sheet(triples: &[u64], out: &mut [u8], res: &mut [u32; 7]) -> u32
    ensures { GivenSheet triples.now out.old result res.new out.new }
{
    kirvoghus_write_sheet(triples, out, res)
}

fn version() -> u32
    ensures { result ≡ version }
{
    kirvoghus_version()
}

fn board_words() -> usize
    ensures { (result ≡ length board_words) × ((limit : ℕ) → Least limit result book_size (report_stride * limit)) }
{
    kirvoghus_board_words()
}

fn book_words() -> usize
    ensures { ((σ : Solutions) (v : Levels) (n : ℕ) → result ≡ length (book_words σ v n)) × ((limit : ℕ) → Least limit board_size result (report_stride * limit)) }
{
    kirvoghus_book_words()
}

fn report_words(limit: u32) -> usize
    ensures { ((t : Ty) → result ≡ length (report_words limit t)) × Least limit board_size book_size result }
{
    kirvoghus_report_words(limit)
}

fn ceiling() -> u32
    ensures { Highest result }
{
    kirvoghus_ceiling()
}

fn limit_most() -> u32
    ensures { HighestLimit result }
{
    kirvoghus_limit_most()
}

fn limit() -> u32
    ensures { result ≡ usual_limit }
{
    kirvoghus_limit()
}

fn sheet_bytes() -> usize
    ensures { Longest result }
{
    kirvoghus_sheet_bytes()
}

fn line_bytes() -> usize
    ensures { OneLine result }
{
    kirvoghus_line_bytes()
}

fn show(rt: &HostRuntime, label: &[u8], n: u64) {
    let _label = rt.write_all(label);
    let _number = rt.print(n);
    let _end = rt.write_all(b"\n");
}

fn show_sizes(rt: &HostRuntime) {
    show(rt, b"version ", version() as u64);
    show(rt, b"board words ", board_words() as u64);
    show(rt, b"book words ", book_words() as u64);
    show(rt, b"report words, limit 1: ", report_words(1) as u64);
    show(rt, b"ceiling ", ceiling() as u64);
    show(rt, b"highest limit ", limit_most() as u64);
    show(rt, b"limit ", limit() as u64);
    show(rt, b"sheet bytes ", sheet_bytes() as u64);
    show(rt, b"line bytes ", line_bytes() as u64);
}

fn show_reading(rt: &HostRuntime, sheet: &[u8]) {
    let mut line = 9;
    show(rt, b"read ", read_sheet(sheet, &mut line) as u64);
    show(rt, b"its line ", line as u64);
    show(rt, b"term on line 0: ", term_bytes(sheet, 0) as u64);
    show(rt, b"term on line 1: ", term_bytes(sheet, 1) as u64);
    show(rt, b"term on line 4: ", term_bytes(sheet, 4) as u64);
    show(rt, b"term on line 5: ", term_bytes(sheet, 5) as u64);
}

fn taken(seven: &[u32; 7]) -> u32 {
    seven[2]
}

fn show_calls(
    rt: &HostRuntime,
    sheet: &[u8],
    board: &mut [u32],
    book: &mut [u32],
    report: &mut [u32],
) {
    let mut seven = [9; 7];
    let number = check_type(sheet, 4, 1024, board, book, report, &mut seven);
    show(rt, b"check, ceiling 4: ", number as u64);
    show(rt, b"taken ", taken(&seven) as u64);
    let strict = check_type_strict(sheet, 5, 1024, board, book, report, &mut seven);
    show(rt, b"strict check, ceiling 5: ", strict as u64);
    show(rt, b"taken ", taken(&seven) as u64);
}

fn main(rt: HostRuntime) {
    let sheet =
        b"  3                   0    0\n 12                   1    0\n  4                   0    0\n 22                   7    0\n";
    let mut board = [0u32; BOARD_SIZE];
    let mut book = [0u32; BOOK_SIZE];
    let mut report = [0u32; USUAL_REPORT];
    show_sizes(&rt);
    show_reading(&rt, sheet);
    show_calls(&rt, sheet, &mut board, &mut book, &mut report);
}
