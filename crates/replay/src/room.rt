// The program's buffers, and the verdict on a record that is replayed in them.

ghost use Rattle.std.specs.Prelude.{◌≡◌, ◌+◌, ◌≤◌, ◌↔◌, IsTrue, length};
ghost use Rattle.sizes.specs.Sizes.{book_size, usual_report};
ghost use Rattle.nodes.specs.Nodes.{zeros};
ghost use Rattle.judgment.specs.Result.{numbers};
ghost use Rattle.replay.specs.Recorded.{book_from, wanted, sheet_room, dirt};
ghost use Rattle.replay.specs.Replay.{Wanted, buffers_of, dirty, called_on, left_by, VerdictOf};

use crate::record::{
    BOARD_ROOM, BOOK, BOOK_ROOM, Plan, REPORT, REPORT_ROOM, SEVEN, SHEET_ROOM, WANTED, read_record,
};
use checker::{check_type, check_type_strict};
use judgment::Answer;

// What stands in every buffer before a call.
const DIRT: u32 = 3735928559;

// The sheet, what is lent to a call, and the words that are wanted after it.
#[derive(Drop)]
pub struct Room {
    pub sheet: [u8; SHEET_ROOM],
    pub board: [u32; BOARD_ROOM],
    pub book: [u32; BOOK_ROOM],
    pub report: [u32; REPORT_ROOM],
    pub want: [u32; WANTED],
}

#[derive(Clone, Copy)]
pub enum Verdict {
    Same,
    Differs,
    Malformed,
}

fn seven_of(a: Answer) -> [u32; 7]
    ensures { result ≡ numbers a }
{
    [
        a.number, a.line, a.taken, a.fresh, a.detail1, a.detail2, a.plain,
    ]
}

// The plan's call on the first bytes of the sheet and the first words of each buffer.
fn call(p: Plan, sheet: &[u8], board: &mut [u32], book: &mut [u32], report: &mut [u32]) -> Answer
    requires bytes { p.bytes ≤ length sheet.now }
    requires board { p.loan.board ≤ length board.old }
    requires book { p.loan.book ≤ length book.old }
    requires report { p.loan.report ≤ length report.old }
    ensures answer { result ≡ (called_on sheet.now p (record { board = board.entry.now; book = book.old; report = report.old })).answer }
    ensures buffers { record { board = board.exit.now; book = book.new; report = report.new } ≡ left_by sheet.now p (record { board = board.entry.now; book = book.old; report = report.old }) }
{
    let sheet = &sheet[..p.bytes];
    let board = &mut board[..p.loan.board];
    let book = &mut book[..p.loan.book];
    let report = &mut report[..p.loan.report];
    if p.strict {
        check_type_strict(sheet, p.ceiling, p.loan.limit, board, book, report)
    } else {
        check_type(sheet, p.ceiling, p.loan.limit, board, book, report)
    }
}

impl Room {
    // Nothing is written.
    #[tactic(auto, unfolding(nodes::specs::Nodes::zeros))]
    pub fn new() -> Self
        ensures { result ≡ record { sheet = zeros sheet_room; board = zeros book_from; book = zeros (book_size + 8); report = zeros (usual_report + 4); want = zeros wanted } }
    {
        Room {
            sheet: [0; SHEET_ROOM],
            board: [0; BOARD_ROOM],
            book: [0; BOOK_ROOM],
            report: [0; REPORT_ROOM],
            want: [0; WANTED],
        }
    }

    // What stands in the buffers before the call is wanted where the call writes nothing.
    fn soil(&mut self)
        ensures buffers { buffers_of self.new ≡ dirty }
        ensures want { self.new.want ≡ dirt wanted }
    {
        self.board.fill(DIRT);
        self.book.fill(DIRT);
        self.report.fill(DIRT);
        self.want.fill(DIRT);
    }

    // Whether all numbers and words are those wanted.
    fn is_wanted(&self, a: Answer) -> bool
        ensures { IsTrue result ↔ Wanted (numbers a) self.now.board self.now.book self.now.report self.now.want }
    {
        self.board[..] == self.want[..BOOK]
            && self.book[..] == self.want[BOOK..REPORT]
            && self.report[..] == self.want[REPORT..SEVEN]
            && seven_of(a)[..] == self.want[SEVEN..]
    }

    pub fn replay(&mut self, line: &[u8]) -> Verdict
        ensures { VerdictOf line.now result }
    {
        self.soil();
        let Some(plan) = read_record(line, &mut self.sheet, &mut self.want) else {
            return Verdict::Malformed;
        };
        let answer = call(
            plan,
            &self.sheet,
            &mut self.board,
            &mut self.book,
            &mut self.report,
        );
        if self.is_wanted(answer) {
            Verdict::Same
        } else {
            Verdict::Differs
        }
    }
}
