// A plan as people write it, made a sheet, or a sentence about the first line that is wrong.
#![tactic(auto)]

ghost use Rattle.std.specs.Prelude.{◌≡◌, ◌≤◌, length};
ghost use Rattle.drafting.specs.declared.Refusal.TheVariants.{NotRead};
ghost use Rattle.drafting.specs.Drafting.{below, diagnosis, tells_triple, whole, outcome, BlockOf, ListedOf, Drafted, SameBlock};

use input::fill_from;
use judgment::Answer;
use kinds::{Sort, fields_ok, row_in, table_words, word_in};
use listing::{Fault, Plan};
use sizes::{LINE_LENGTH, SHEET_BYTES, TRIPLE_WORDS};
use spelling::Triple;
use std::error::Error;
use std::io::Read;
use std::{fmt, io};
use writing::{triple_at, write_sheet};

// Bytes that the programs read at once.
pub const BLOCK_BYTES: usize = 65536;

// What is wrong with a line of the input.
#[derive(Clone, Copy, Debug, PartialEq, Eq)]
pub enum Wrong {
    // It is no triple.
    Listing(Fault),
    // Its triple can't continue the plan: there is no such kind, its value must not be negative, a field is out of
    // range for the kind, or none of these.
    NoKind,
    Negative,
    OutOfRange,
    Misplaced,
    // It is the last, and the plan is not whole.
    Lacking,
}

impl fmt::Display for Wrong {
    fn fmt<W: fmt::Write>(&self, f: &mut fmt::Formatter<W>) -> fmt::Result {
        match self {
            Wrong::Listing(fault) => fault.fmt(f),
            Wrong::NoKind => f.write_str("there is no such kind"),
            Wrong::Negative => f.write_str("only a value of kind 22 may be negative"),
            Wrong::OutOfRange => f.write_str(
                "the value or the count is out of range for this kind",
            ),
            Wrong::Misplaced => f.write_str("the plan can't go on with this triple"),
            Wrong::Lacking => f.write_str("after this triple the plan lacks another"),
        }
    }
}

// Why there is no sheet.
#[derive(Clone, Copy, Debug, PartialEq, Eq)]
pub enum Refusal {
    NotRead,
    NoTriple,
    // The line, counted from 1, and what is wrong with it.
    At(u64, Wrong),
}

impl fmt::Display for Refusal {
    fn fmt<W: fmt::Write>(&self, f: &mut fmt::Formatter<W>) -> fmt::Result {
        match self {
            Refusal::NotRead => f.write_str("standard input was not read"),
            Refusal::NoTriple => f.write_str("no triple on standard input"),
            Refusal::At(line, wrong) => write!(f, "line {line}: {wrong}"),
        }
    }
}

impl Error for Refusal {}

impl From<io::Error> for Refusal {
    ghost from_gives = { λ _ r. r ≡ NotRead };

    fn from(_e: io::Error) -> Refusal {
        Refusal::NotRead
    }
}

// The value is negative, and not of kind 22.
fn is_below(t: Triple) -> bool
    ensures { result ≡ below t }
{
    t.negative && t.kind != 22
}

// What is wrong with a triple that can't continue the plan, by the table of kinds alone.
fn diagnose(t: Triple) -> Wrong
    ensures { result ≡ diagnosis t }
{
    let words = table_words();
    let word = word_in(&words, t.kind);
    let row = row_in(word);
    if row.sort == Sort::Nothing {
        return Wrong::NoKind;
    }
    if is_below(t) {
        return Wrong::Negative;
    }
    if fields_ok(word, t) {
        return Wrong::Misplaced;
    }
    Wrong::OutOfRange
}

// The answer tells one of the triples.
fn tells_triple(answer: Answer, triples: usize) -> bool
    ensures { result ≡ tells_triple answer triples }
{
    answer.number == 5 && 1 <= answer.line && answer.line as usize <= triples
}

// Where the whole input was scanned.
fn whole_plan(plan: &Plan, answer: Answer) -> Result<usize, Refusal>
    ensures { result ≡ whole plan.now.scan.triples plan.now.lines answer }
{
    let triples = plan.scan.triples;
    if triples == 0 {
        return Err(Refusal::NoTriple);
    }
    if answer.number == 0 {
        return Ok(LINE_LENGTH * triples);
    }
    Err(Refusal::At(plan.lines[triples - 1], Wrong::Lacking))
}

// The first line that is wrong: a triple stands before the line where the scan stopped.
#[tactic(auto, unfolding(crate::specs::Drafting::outcome))]
fn outcome_of(plan: &Plan, answer: Answer) -> Result<usize, Refusal>
    ensures { result ≡ outcome plan.now answer }
{
    if tells_triple(answer, plan.scan.triples) {
        let at = answer.line as usize - 1;
        return Err(Refusal::At(plan.lines[at], diagnose(triple_at(&plan.words, at))));
    }
    if let Some(fault) = plan.scan.fault {
        return Err(Refusal::At(plan.scan.line, Wrong::Listing(fault)));
    }
    whole_plan(plan, answer)
}

// A block more. Answers whether more is to be read: a block that is not full is the input's last, and nothing is read
// behind a fault.
fn read_block<R: Read>(reader: &mut R, block: &mut [u8], plan: &mut Plan) -> io::Result<bool>
    ensures { BlockOf plan.old block.new result plan.new }
{
    let n = fill_from(reader, block, 0)?;
    plan.feed(&block[..n]);
    Ok(n == block.len() && plan.scan.fault.is_none())
}

// No input has as many blocks as the loop has turns.
fn read_plan<R: Read>(reader: &mut R, block: &mut [u8], plan: &mut Plan) -> Result<(), Refusal>
    ensures { ListedOf result plan.old plan.new }
{
    plan.restart();
    for _ in 0..u64::MAX {
        if !read_block(reader, block, plan)? {
            plan.finish();
            return Ok(());
        }
    }
    Err(Refusal::NotRead)
}

fn put_sheet<O: Print, E: Print>(sheet: &[u8], bytes: usize, out: &O, err: &E)
    requires { bytes ≤ length sheet.now }
{
    if out.write_all(&sheet[..bytes]).is_err() {
        let _told = err.println("plan_write: the sheet was not written.");
    }
}

// What a plan is read into, a block at a time, and the sheet that is made of it.
#[derive(Drop)]
pub struct Desk<'a> {
    pub block: &'a mut [u8],
    pub plan: Plan,
    pub sheet: [u8; SHEET_BYTES],
}

impl<'a> Desk<'a> {
    // The plan that is read, made a sheet at the front of `sheet`, or what is wrong with it. Answers the bytes of the
    // sheet.
    pub fn draft<R: Read>(&mut self, reader: &mut R) -> Result<usize, Refusal>
        ensures drafted { Drafted self.old.plan self.old.sheet self.new.plan self.new.sheet result }
        ensures same { SameBlock self.old self.new }
    {
        read_plan(reader, &mut *self.block, &mut self.plan)?;
        let words = &self.plan.words[..TRIPLE_WORDS * self.plan.scan.triples];
        let answer = write_sheet(words, &mut self.sheet);
        outcome_of(&self.plan, answer)
    }

    // The same, with the sheet written to `out` or a sentence to `err`.
    pub fn draft_out<R: Read, O: Print, E: Print>(
        &mut self,
        reader: &mut R,
        out: &O,
        err: &E,
    ) -> Result<usize, Refusal>
        ensures drafted { Drafted self.old.plan self.old.sheet self.new.plan self.new.sheet result }
        ensures same { SameBlock self.old self.new }
    {
        let outcome = self.draft(reader);
        match outcome {
            Ok(bytes) => put_sheet(&self.sheet, bytes, out, err),
            Err(refusal) => {
                let _told = println!(err; "plan_write: {refusal}.");
            }
        }
        outcome
    }
}
