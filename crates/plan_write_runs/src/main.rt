// What `plan_write` writes for each file that an argument names, below the name: the sheet or the sentence, both on
// standard output.
#![tactic(auto)]

use drafting::{BLOCK_BYTES, Desk};
use input::each_file;
use listing::Plan;
use sizes::SHEET_BYTES;
use std::fs::File;
use std::io;
use std::rt::Files;

// As `plan_write` does, from the file of that name in place of standard input, if it can be opened.
fn write_file<P: Files + Print>(rt: &P, name: &str, desk: &mut Desk) -> io::Result<()> {
    let mut file = File::open(rt, name)?;
    let _name = rt.println(name);
    let _outcome = desk.draft_out(&mut file, rt, rt);
    Ok(())
}

// One file after the other, in buffers that hold what the one before left.
fn main(rt: HostRuntime) {
    let mut block = [0u8; BLOCK_BYTES];
    let mut desk = Desk {
        block: &mut block,
        plan: Plan::new(),
        sheet: [0; SHEET_BYTES],
    };
    let _names = each_file(
        &rt,
        "plan_write_runs",
        &mut |name| {
            if write_file(&rt, name, &mut desk).is_err() {
                let _told = eprintln!(rt; "{name}: not read");
            }
        },
    );
}
