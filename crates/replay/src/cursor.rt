// A line that is read number by number.

ghost use Rattle.std.specs.Prelude.{◌≡◌, ◌+◌, ◌≤◌, IfSome, false, length};
ghost use Rattle.replay.specs.Parsing.{digits, number, word, up_to};
ghost use Rattle.replay.specs.Recorded.{words_into};
ghost use Rattle.replay.specs.Reading.{Reads, Writes};

// A number's sign and magnitude.
#[derive(Clone, Copy)]
pub struct Number {
    pub negative: bool,
    pub magnitude: u64,
}

// What of a line is still to be read. A read that fails leaves it anywhere.
#[derive(Drop)]
pub struct Cursor<'a> {
    pub rest: &'a [u8],
}

impl<'a> Cursor<'a> {
    // The digits up to the end or a space, which is passed.
    fn digits(&mut self, negative: bool) -> Option<Number>
        ensures { Reads (digits false negative 0 self.old.rest.now) result self.new.rest.now }
    {
        let mut magnitude = 0;
        let mut some = false;
        while let Some((b, rest)) = self.rest.split_first() {
            self.rest = rest;
            if *b == b' ' {
                break;
            }
            if !b.is_ascii_digit() || magnitude > 922337203685477580 {
                return None;
            }
            magnitude = 10 * magnitude + (*b - b'0') as u64;
            some = true;
        }
        if some {
            Some(Number {
                negative,
                magnitude,
            })
        } else {
            None
        }
    }

    #[tactic(auto, unfolding(crate::specs::Parsing::number))]
    pub fn number(&mut self) -> Option<Number>
        ensures { Reads (number self.old.rest.now) result self.new.rest.now }
    {
        let (first, rest) = self.rest.split_first()?;
        if *first == b'-' {
            self.rest = rest;
            return self.digits(true);
        }
        self.digits(false)
    }

    // A number of 32 bits.
    #[tactic(auto, unfolding(crate::specs::Parsing::word))]
    pub fn word(&mut self) -> Option<u32>
        ensures { Reads (word self.old.rest.now) result self.new.rest.now }
    {
        let n = self.number()?;
        if n.negative || n.magnitude > u32::MAX as u64 {
            return None;
        }
        Some(n.magnitude as u32)
    }

    // One of at most `most`.
    #[tactic(auto, unfolding(crate::specs::Parsing::up_to))]
    pub fn up_to(&mut self, most: usize) -> Option<usize>
        ensures read { Reads (up_to most self.old.rest.now) result self.new.rest.now }
        ensures bound { IfSome result (λ n. n ≤ most) }
    {
        let n = self.word()? as usize;
        (n <= most).then_some(n)
    }

    // n numbers into the words of dst from `to` on.
    #[tactic(auto, using(crate::proofs::Numbers::turns), unfolding(crate::specs::Recorded::words_into, crate::specs::Recorded::word_into))]
    pub fn words(&mut self, dst: &mut [u32], to: usize, n: usize) -> Option<()>
        requires { to + n ≤ length dst.old }
        ensures { Writes (words_into n dst.old to self.old.rest.now) result dst.new self.new.rest.now }
    {
        for i in 0..n {
            dst[to + i] = self.word()?;
        }
        Some(())
    }
}
