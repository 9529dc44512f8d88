// The lines of standard input, which is held part by part.

ghost use Rattle.std.specs.Prelude.{◌≡◌, ◌≤◌, OnOk, position, ◌==◌, true};
ghost use Rattle.nodes.specs.Nodes.{zeros};
ghost use Rattle.replay.specs.declared.line.TheConstants.{TEXT};
ghost use Rattle.replay.specs.Lines.{FirstLine, Refilled, NextLine};

use crate::line::{Line, TEXT, Unread};
use input::fill;
use std::io;

#[derive(Drop)]
pub struct Lines {
    pub text: [u8; TEXT],
    pub unread: Unread,
    ghost order: { unread.at ≤ unread.end },
    ghost inside: { unread.end ≤ TEXT },
}

// The first LF, counted from the front.
fn find_lf(text: &[u8]) -> Option<usize>
    ensures { result ≡ position (λ b. b == 10) text.now }
{
    text.iter().position(|b| *b == b'\n')
}

impl Lines {
    // Nothing is read.
    #[tactic(auto, unfolding(nodes::specs::Nodes::zeros))]
    pub fn new() -> Self
        ensures unread { result.unread ≡ record { at = 0; end = 0; more = true } }
        ensures text { result.text ≡ zeros TEXT }
    {
        Lines {
            text: [0; TEXT],
            unread: Unread {
                at: 0,
                end: 0,
                more: true,
            },
        }
    }

    // The first line of what is unread, and passes it. A last line may lack its LF.
    fn first(&mut self) -> Option<Line>
        ensures line { FirstLine self.old.text self.old.unread result self.new.unread }
        ensures text { self.new.text ≡ self.old.text }
    {
        let Unread { at, end, more } = self.unread;
        if at == end {
            return None;
        }
        let found = find_lf(&self.text[at..end]);
        let (stop, next) = match found {
            Some(n) => (at + n, at + n + 1),
            None => (end, end),
        };
        self.unread = Unread {
            at: next,
            end,
            more,
        };
        Some(Line {
            start: at,
            end: stop,
        })
    }

    // Holds what is unread and fills the text behind it.
    fn refill(&mut self, rt: &HostRuntime) -> io::Result<()>
        ensures { OnOk result (Refilled self.old.text self.old.unread self.new.text self.new.unread) }
    {
        let Unread { at, end, .. } = self.unread;
        let held = end - at;
        self.text.copy_within(at..end, 0);
        let n = fill(rt, &mut self.text, held)?;
        self.unread = Unread {
            at: 0,
            end: n,
            more: n == TEXT,
        };
        Ok(())
    }

    // A line longer than the text comes in parts, which are no records.
    pub fn next(&mut self, rt: &HostRuntime) -> io::Result<Option<Line>>
        ensures { NextLine self.old.text self.old.unread self.new.text self.new.unread result }
    {
        let Unread { at, end, more } = self.unread;
        if more && find_lf(&self.text[at..end]).is_none() {
            self.refill(rt)?;
        }
        Ok(self.first())
    }
}
