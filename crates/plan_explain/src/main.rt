// Reads a sheet on standard input, checks its plan with the ceiling 10,000 and the limit 1,024, and says in words what
// came out.
#![tactic(auto)]

ghost use Rattle.std.specs.Prelude.{◌≡◌, ◌≤◌, length};
ghost use Rattle.sizes.specs.Sizes.{usual_report};
ghost use Rattle.plan_explain.specs.Told.{ToldOf};

use checker::check_type;
use input::fill;
use sentences::explain;
use sizes::{BOARD_SIZE, BOOK_SIZE, HIGHEST_CEILING, SHEET_BYTES, USUAL_LIMIT, USUAL_REPORT};
use std::io;

fn write_out(rt: &HostRuntime, text: &[u8]) {
    if rt.write_all(text).is_err() {
        let _told = rt.eprintln("plan_explain: the answer was not written");
    }
}

// Of standard input: told, written out, and how many bytes that is. A sheet that fills the buffer is too long, and gets
// 3 as it stands.
fn tell_input(
    rt: &HostRuntime,
    sheet: &mut [u8],
    board: &mut [u32],
    book: &mut [u32],
    report: &mut [u32],
    text: &mut [u8],
) -> io::Result<usize>
    requires { (length report.old ≡ usual_report) × (48000 ≤ length text.old) }
    ensures { (length sheet.new ≡ length sheet.old) × ToldOf result sheet.new (record { board = board.entry.now; book = book.old; report = report.old }) text.old text.new (record { board = board.exit.now; book = book.new; report = report.new }) }
{
    let n = fill(rt, sheet, 0)?;
    let answer = check_type(
        &sheet[..n],
        HIGHEST_CEILING,
        USUAL_LIMIT,
        board,
        book,
        report,
    );
    let end = explain(text, answer, report);
    write_out(rt, &text[..end]);
    Ok(end)
}

fn main(rt: HostRuntime) {
    let mut sheet = [0u8; SHEET_BYTES + 1];
    let mut board = [0u32; BOARD_SIZE];
    let mut book = [0u32; BOOK_SIZE];
    let mut report = [0u32; USUAL_REPORT];
    let mut text = [0u8; 48000];
    let told = tell_input(
        &rt,
        &mut sheet,
        &mut board,
        &mut book,
        &mut report,
        &mut text,
    );
    if told.is_err() {
        let _told = rt.eprintln("plan_explain: standard input was not read");
    }
}
