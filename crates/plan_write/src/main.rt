// Reads a plan as people write it on standard input, and writes its sheet to standard output, or to standard error what
// is wrong with it.
#![tactic(auto)]

use drafting::{BLOCK_BYTES, Desk};
use listing::Plan;
use sizes::SHEET_BYTES;

fn main(rt: HostRuntime) {
    let mut block = [0u8; BLOCK_BYTES];
    let mut desk = Desk {
        block: &mut block,
        plan: Plan::new(),
        sheet: [0; SHEET_BYTES],
    };
    let _outcome = desk.draft_out(&mut rt.stdin(), &rt.stdout(), &rt.stderr());
}
