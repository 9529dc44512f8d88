// The C interface: each function of `exports` under its own name. A `&[u8]` is a pointer and a length, a `&mut u32` a pointer.
#![tactic(auto)]

ghost use Rattle.std.specs.Prelude.{◌≡◌, ℕ, ◌*◌, length};
ghost use Rattle.sizes.specs.Sizes.{usual_limit, board_size, book_size, report_stride};
ghost use Rattle.grammar.specs.Check.{check, check_number, check_line};
ghost use Rattle.nodes.specs.Nodes.{Ty};
ghost use Rattle.judgment.specs.Solutions.{Solutions};
ghost use Rattle.judgment.specs.Levels.{Levels, first_call, strict_call};
ghost use Rattle.judgment.specs.Result.{numbers, board_words, book_words, report_words};
ghost use Rattle.exports.specs.Interface.{Given, GivenSheet, term_on, version, Least, Highest, HighestLimit, Longest, OneLine};

#[unsafe(no_mangle)]
pub extern "C" fn kirvoghus_read_sheet(sheet: &[u8], line: &mut u32) -> u32
    ensures { (result ≡ check_number (check sheet.now)) × (line.new ≡ check_line (check sheet.now)) }
{
    exports::kirvoghus_read_sheet(sheet, line)
}

#[unsafe(no_mangle)]
pub extern "C" fn kirvoghus_term_bytes(sheet: &[u8], line: u32) -> usize
    ensures { result ≡ length (term_on sheet.now line) }
{
    exports::kirvoghus_term_bytes(sheet, line)
}

#[unsafe(no_mangle)]
pub extern "C" fn kirvoghus_check_type(
    sheet: &[u8],
    ceiling: u32,
    limit: u32,
    board: &mut [u32],
    book: &mut [u32],
    report: &mut [u32],
    res: &mut [u32; 7],
) -> u32
    ensures { Given first_call sheet.now ceiling limit (record { board = board.entry.now; book = book.old; report = report.old }) result res.new (record { board = board.exit.now; book = book.new; report = report.new }) }
{
    exports::kirvoghus_check_type(sheet, ceiling, limit, board, book, report, res)
}

#[unsafe(no_mangle)]
pub extern "C" fn kirvoghus_check_type_strict(
    sheet: &[u8],
    ceiling: u32,
    limit: u32,
    board: &mut [u32],
    book: &mut [u32],
    report: &mut [u32],
    res: &mut [u32; 7],
) -> u32
    ensures { Given strict_call sheet.now ceiling limit (record { board = board.entry.now; book = book.old; report = report.old }) result res.new (record { board = board.exit.now; book = book.new; report = report.new }) }
{
    exports::kirvoghus_check_type_strict(sheet, ceiling, limit, board, book, report, res)
}

#[unsafe(no_mangle)]
pub extern "C" fn kirvoghus_write_sheet(triples: &[u64], out: &mut [u8], res: &mut [u32; 7]) -> u32
    ensures { GivenSheet triples.now out.old result res.new out.new }
{
    exports::kirvoghus_write_sheet(triples, out, res)
}

#[unsafe(no_mangle)]
pub extern "C" fn kirvoghus_version() -> u32
    ensures { result ≡ version }
{
    exports::kirvoghus_version()
}

#[unsafe(no_mangle)]
pub extern "C" fn kirvoghus_board_words() -> usize
    ensures { (result ≡ length board_words) × ((limit : ℕ) → Least limit result book_size (report_stride * limit)) }
{
    exports::kirvoghus_board_words()
}

#[unsafe(no_mangle)]
pub extern "C" fn kirvoghus_book_words() -> usize
    ensures { ((σ : Solutions) (v : Levels) (n : ℕ) → result ≡ length (book_words σ v n)) × ((limit : ℕ) → Least limit board_size result (report_stride * limit)) }
{
    exports::kirvoghus_book_words()
}

#[unsafe(no_mangle)]
pub extern "C" fn kirvoghus_report_words(limit: u32) -> usize
    ensures { ((t : Ty) → result ≡ length (report_words limit t)) × Least limit board_size book_size result }
{
    exports::kirvoghus_report_words(limit)
}

#[unsafe(no_mangle)]
pub extern "C" fn kirvoghus_ceiling() -> u32
    ensures { Highest result }
{
    exports::kirvoghus_ceiling()
}

#[unsafe(no_mangle)]
pub extern "C" fn kirvoghus_limit_most() -> u32
    ensures { HighestLimit result }
{
    exports::kirvoghus_limit_most()
}

#[unsafe(no_mangle)]
pub extern "C" fn kirvoghus_limit() -> u32
    ensures { result ≡ usual_limit }
{
    exports::kirvoghus_limit()
}

#[unsafe(no_mangle)]
pub extern "C" fn kirvoghus_sheet_bytes() -> usize
    ensures { Longest result }
{
    exports::kirvoghus_sheet_bytes()
}

#[unsafe(no_mangle)]
pub extern "C" fn kirvoghus_line_bytes() -> usize
    ensures { OneLine result }
{
    exports::kirvoghus_line_bytes()
}
