// A line of the text that is held, and what of the text is unread.

ghost use Rattle.std.specs.Prelude.{◌≤◌};
ghost use Rattle.replay.specs.declared.line.TheConstants.{TEXT};

// How many bytes are held.
pub const TEXT: usize = 131072;

// The bytes that are unread, and whether the input goes on after them.
#[derive(Clone, Copy)]
pub struct Unread {
    pub at: usize,
    pub end: usize,
    pub more: bool,
}

// Where a line starts and ends.
#[derive(Clone, Copy)]
pub struct Line {
    pub start: usize,
    pub end: usize,
    ghost order: { start ≤ end },
    ghost inside: { end ≤ TEXT },
}
