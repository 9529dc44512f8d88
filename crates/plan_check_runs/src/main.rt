// What `plan_check` tells of each file that an argument names, a line for each: the name, and the seven numbers.
#![tactic(auto)]

ghost use Rattle.std.specs.Prelude.{◌≡◌, length};
ghost use Rattle.telling.specs.Told.{lent, SameLent, ToldOf};

use columns::ANSWER_BYTES;
use input::each_file;
use sizes::{BOARD_SIZE, BOOK_SIZE, SHEET_BYTES, USUAL_REPORT};
use std::fs::File;
use std::rt::Files;
use std::{fmt, io};
use telling::Desk;

// Why nothing is told of a file.
#[derive(Clone, Copy)]
enum Untold {
    NotOpened(io::Error),
    NotRead,
}

impl fmt::Display for Untold {
    fn fmt<W: fmt::Write>(&self, f: &mut fmt::Formatter<W>) -> fmt::Result {
        match self {
            Untold::NotOpened(e) => e.fmt(f),
            Untold::NotRead => f.write_str("not read"),
        }
    }
}

// As `plan_check` does, from the file of that name in place of standard input.
fn tell_file<P: Files + Print + Eprint>(
    rt: &P,
    name: &str,
    sheet: &mut [u8; SHEET_BYTES + 1],
    desk: &mut Desk,
) -> Result<usize, Untold>
    ensures bytes { length sheet.new ≡ length sheet.old }
    ensures told { ToldOf result sheet.new (lent desk.old) desk.old.text desk.new.text (lent desk.new) }
    ensures same { SameLent desk.old desk.new }
{
    let mut file = File::open(rt, name).map_err(Untold::NotOpened)?;
    desk.tell_out(rt, &mut file, name.as_bytes(), sheet)
        .map_err(|_| Untold::NotRead)
}

// One file after the other, in buffers that hold what the one before left.
fn main(rt: HostRuntime) {
    let mut sheet = [0u8; SHEET_BYTES + 1];
    let mut board = [0u32; BOARD_SIZE];
    let mut book = [0u32; BOOK_SIZE];
    let mut report = [0u32; USUAL_REPORT];
    let mut desk = Desk {
        board: &mut board,
        book: &mut book,
        report: &mut report,
        text: [0; ANSWER_BYTES],
    };
    let _names = each_file(
        &rt,
        "plan_check_runs",
        &mut |name| {
            if let Err(why) = tell_file(&rt, name, &mut sheet, &mut desk) {
                let _told = eprintln!(rt; "{name}: {why}");
            }
        },
    );
}
