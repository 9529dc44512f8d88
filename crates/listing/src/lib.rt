// A plan as people write it: a triple a line, its kind, value and count with blanks between. Lines of blanks only, and
// lines whose first byte that is no blank is #, are passed over. It is read byte by byte, since a comment may be of any
// length.
#![tactic(auto)]

ghost use Rattle.std.specs.Prelude.{◌≡◌, ◌<◌, replicate};
ghost use Rattle.sizes.specs.Sizes.{most_lines, triple_words, plan_words};
ghost use Rattle.listing.specs.Listing.{State, state, started, Roomy, counted, on_next_line, blank, commented, field_byte, word_of, signed, number_end, field_end, field_ended, line_closed, line_ended, comment_byte, stepped, fed, ended};

use sizes::{MOST_LINES, PLAN_WORDS, TRIPLE_WORDS};
use spelling::{Field, byte_step};
use std::error::Error;
use std::fmt;
use std::marker::Model;

// What is wrong with a line.
#[derive(Clone, Copy, Debug, PartialEq, Eq)]
pub enum Fault {
    // A field that is no number in signed 64 bits.
    NoNumber,
    // Fewer than three numbers, or more.
    Few,
    Many,
    // One triple more than a plan can have.
    Long,
}

impl fmt::Display for Fault {
    fn fmt<W: fmt::Write>(&self, f: &mut fmt::Formatter<W>) -> fmt::Result {
        f.write_str(match self {
            Fault::NoNumber => {
                "something here is no number from -9223372036854775808 to 9223372036854775807 in plain digits"
            }
            Fault::Few => "a triple is three numbers, kind, value and count, and here are fewer",
            Fault::Many => "a triple is three numbers, kind, value and count, and here are more",
            Fault::Long => "a plan has at most 2000 triples, and here is another",
        })
    }
}

impl Error for Fault {}

// How far a plan is read.
#[derive(Clone, Copy)]
pub struct Scan {
    // The line, counted from 1.
    pub line: u64,
    // The numbers that ended on this line.
    pub numbers: usize,
    // What the bytes after them spell.
    pub field: Field,
    pub comment: bool,
    // The triples of the lines before.
    pub triples: usize,
    // What ended the reading, if anything did.
    pub fault: Option<Fault>,
}

// A space, a tab or a CR.
fn is_blank(byte: u8) -> bool
    ensures { result ≡ blank byte }
{
    matches!(byte, b' ' | b'\t' | b'\r')
}

fn word_of(negative: bool, magnitude: u64) -> u64
    ensures { result ≡ word_of negative magnitude }
{
    if negative {
        0u64.wrapping_sub(magnitude)
    } else {
        magnitude
    }
}

// The number fits in signed 64 bits.
fn is_signed(negative: bool, magnitude: u64) -> bool
    ensures { result ≡ signed negative magnitude }
{
    negative || magnitude < 1 << 63
}

impl Scan {
    // Before the first byte of a plan.
    pub fn start() -> Scan
        ensures { result ≡ started }
    {
        Scan {
            line: 1,
            numbers: 0,
            field: Field::Blank,
            comment: false,
            triples: 0,
            fault: None,
        }
    }

    fn count_number(self) -> Scan
        requires { self.numbers < triple_words }
        ensures { result ≡ counted self }
    {
        Scan {
            numbers: self.numbers + 1,
            field: Field::Blank,
            ..self
        }
    }

    fn next_line(self, triples: usize) -> Scan
        ensures { result ≡ on_next_line self triples }
    {
        Scan {
            line: self.line.wrapping_add(1),
            numbers: 0,
            field: Field::Blank,
            comment: false,
            triples,
            ..self
        }
    }

    // The byte makes the line a comment: # before any field.
    fn is_comment(self, byte: u8) -> bool
        ensures { result ≡ commented self byte }
    {
        byte == b'#' && self.numbers == 0 && matches!(self.field, Field::Blank)
    }

    fn field_byte(self, byte: u8) -> Scan
        ensures { result ≡ field_byte self byte }
    {
        if self.is_comment(byte) {
            Scan {
                comment: true,
                ..self
            }
        } else {
            Scan {
                field: byte_step(self.field, byte),
                ..self
            }
        }
    }

    fn comment_byte(self, byte: u8) -> Scan
        ensures { result ≡ comment_byte self byte }
    {
        if byte == b'\n' {
            self.next_line(self.triples)
        } else {
            self
        }
    }

    fn number_end(self, word: u64) -> Result<Option<u64>, Fault>
        ensures { result ≡ number_end self.triples self.numbers word }
    {
        if TRIPLE_WORDS <= self.numbers {
            return Err(Fault::Many);
        }
        if MOST_LINES <= self.triples {
            return Err(Fault::Long);
        }
        Ok(Some(word))
    }

    // The word that the field gives, if it is not blank.
    fn field_end(self) -> Result<Option<u64>, Fault>
        ensures { result ≡ field_end self.field self.triples self.numbers }
    {
        match self.field {
            Field::Blank => Ok(None),
            Field::Number(n, m) if is_signed(n, m) => self.number_end(word_of(n, m)),
            _ => Err(Fault::NoNumber),
        }
    }
}

// A plan as far as it is read: the words of its triples, one after the other, and the line that each triple stands on.
#[derive(Drop)]
pub struct Plan {
    pub scan: Scan,
    pub words: [u64; PLAN_WORDS],
    pub lines: [u64; MOST_LINES],
}

impl Model for Plan {
    ghost Value = { State };

    ghost view = { λ p. state p.scan p.words p.lines };

    ghost invariant = { λ p. Roomy p.scan };
}

impl Plan {
    // Nothing is read.
    pub fn new() -> Plan
        ensures { result ≡ state started (replicate plan_words 0) (replicate most_lines 0) }
    {
        Plan {
            scan: Scan::start(),
            words: [0; PLAN_WORDS],
            lines: [0; MOST_LINES],
        }
    }

    // Another plan may follow; its words and lines are laid over those of the one before.
    pub fn restart(&mut self)
        ensures { self.new ≡ state started self.old.words self.old.lines }
    {
        self.scan = Scan::start();
    }

    // A number's word goes behind those before it.
    #[tactic(auto, unfolding(crate::specs::Listing::field_ended))]
    fn end_field(&mut self)
        ensures { self.new ≡ field_ended self.old }
    {
        let scan = self.scan;
        match scan.field_end() {
            Ok(None) => {}
            Ok(Some(word)) => {
                self.words[TRIPLE_WORDS * scan.triples + scan.numbers] = word;
                self.scan = scan.count_number();
            }
            Err(fault) => self.scan.fault = Some(fault),
        }
    }

    #[tactic(auto, unfolding(crate::specs::Listing::line_closed))]
    fn close_line(&mut self)
        ensures { self.new ≡ line_closed self.old }
    {
        let scan = self.scan;
        match scan.numbers {
            0 => self.scan = scan.next_line(scan.triples),
            TRIPLE_WORDS => {
                self.lines[scan.triples] = scan.line;
                self.scan = scan.next_line(scan.triples + 1);
            }
            _ => self.scan.fault = Some(Fault::Few),
        }
    }

    #[tactic(auto, unfolding(crate::specs::Listing::line_ended))]
    fn end_line(&mut self)
        ensures { self.new ≡ line_ended self.old }
    {
        self.end_field();
        if self.scan.fault.is_none() {
            self.close_line();
        }
    }

    #[tactic(auto, unfolding(crate::specs::Listing::stepped))]
    fn step(&mut self, byte: u8)
        ensures { self.new ≡ stepped self.old byte }
    {
        if self.scan.fault.is_some() {
            return;
        }
        if self.scan.comment {
            self.scan = self.scan.comment_byte(byte);
        } else if byte == b'\n' {
            self.end_line();
        } else if is_blank(byte) {
            self.end_field();
        } else {
            self.scan = self.scan.field_byte(byte);
        }
    }

    // Reads on through a block of the plan's bytes.
    pub fn feed(&mut self, block: &[u8])
        ensures { self.new ≡ fed self.old block.now }
    {
        for byte in block {
            self.step(*byte);
        }
    }

    // The plan ends here.
    #[tactic(auto, unfolding(crate::specs::Listing::ended))]
    pub fn finish(&mut self)
        ensures { self.new ≡ ended self.old }
    {
        self.step(b'\n');
    }
}
