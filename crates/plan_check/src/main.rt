// Reads a sheet on standard input, and writes out what is told of it: its seven numbers.
#![tactic(auto)]

use columns::ANSWER_BYTES;
use sizes::{BOARD_SIZE, BOOK_SIZE, SHEET_BYTES, USUAL_REPORT};
use telling::Desk;

// A sheet that fills its buffer is too long, and gets 3 as it stands.
fn main(rt: HostRuntime) {
    let mut sheet = [0u8; SHEET_BYTES + 1];
    let mut board = [0u32; BOARD_SIZE];
    let mut book = [0u32; BOOK_SIZE];
    let mut report = [0u32; USUAL_REPORT];
    let mut desk = Desk {
        board: &mut board,
        book: &mut book,
        report: &mut report,
        text: [0; ANSWER_BYTES],
    };
    let told = desk.tell_out(&rt, &mut rt.stdin(), b"", &mut sheet);
    if told.is_err() {
        let _told = rt.eprintln("plan_check: standard input was not read");
    }
}
