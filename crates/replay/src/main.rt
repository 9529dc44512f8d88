// Replays recorded calls from standard input against the checker, and counts the answers that differ.
// A record is a line of decimal numbers, a space between two: specs/Recorded.antt has its format.
#![tactic(auto)]

ghost use Rattle.std.specs.Prelude.{◌≡◌};
ghost use Rattle.replay.specs.Replay.{is_comment, counted, Replayed};

mod cursor;
mod line;
mod lines;
mod record;
mod room;

use lines::Lines;
use room::{Room, Verdict};

#[derive(Clone, Copy, Default)]
struct Counts {
    plans: u64,
    same: u64,
    differing: u64,
    malformed: u64,
}

impl Counts {
    fn count(&mut self, v: Verdict)
        ensures { self.new ≡ counted self.old v }
    {
        self.plans = self.plans.wrapping_add(1);
        match v {
            Verdict::Same => self.same = self.same.wrapping_add(1),
            Verdict::Differs => self.differing = self.differing.wrapping_add(1),
            Verdict::Malformed => self.malformed = self.malformed.wrapping_add(1),
        }
    }
}

// Tells which plan is not the same.
fn tell(rt: &HostRuntime, plan: u64, v: Verdict) {
    let _told = match v {
        Verdict::Same => Ok(()),
        Verdict::Differs => eprintln!(rt; "{plan} differs"),
        Verdict::Malformed => eprintln!(rt; "{plan} is malformed"),
    };
}

fn show(rt: &HostRuntime, c: Counts) {
    let _plans = println!(rt; "plans {}", c.plans);
    let _same = println!(rt; "the same {}", c.same);
    let _differing = println!(rt; "differing {}", c.differing);
    let _malformed = println!(rt; "malformed {}", c.malformed);
}

fn is_comment(line: &[u8]) -> bool
    ensures { result ≡ is_comment line.now }
{
    line.first() == Some(&b'#')
}

fn replay_line(rt: &HostRuntime, line: &[u8], counts: &mut Counts, room: &mut Room)
    ensures { Replayed line.now counts.old counts.new }
{
    if is_comment(line) {
        return;
    }
    let v = room.replay(line);
    counts.count(v);
    tell(rt, counts.plans, v);
}

// Replays every line, and shows the counts if all could be read. The loop counts its turns, up to more than any input
// has lines, since nothing says that the input ends.
fn main(rt: HostRuntime) {
    let mut lines = Lines::new();
    let mut room = Room::new();
    let mut counts = Counts::default();
    for _ in 0..u64::MAX {
        match lines.next(&rt) {
            Ok(Some(line)) => {
                replay_line(
                    &rt,
                    &lines.text[line.start..line.end],
                    &mut counts,
                    &mut room,
                );
            }
            Ok(None) => break,
            Err(_) => {
                let _told = eprintln!(&rt; "replay: standard input was not read");
                return;
            }
        }
    }
    show(&rt, counts);
}
