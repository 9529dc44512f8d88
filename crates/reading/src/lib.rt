// The sheet reader of document 01: a record of the borrowed sheet and its next line, thin, over plain functions; and
// refusals 3, 4 and 5. Whoever has a sheet and a line number calls `next_of_sheet` or `term_of_sheet`, whose contracts
// say nothing of the record.
#![tactic(auto)]

ghost use Rattle.std.specs.Prelude.{◌≡◌, ◌+◌, ◌<◌, ◌^◌};
ghost use Rattle.spelling.specs.Spelling.{line_at, lines_of, first_misspelt};
ghost use Rattle.grammar.specs.Grammar.{sub_term};
ghost use Rattle.grammar.specs.Check.{length_ok, refusal, check};

use grammar::{SheetError, read_sheet, sub_term};
use sizes::{LINE_LENGTH, SHEET_BYTES};
use spelling::{Triple, line_at};

#[derive(Clone, Copy)]
pub struct Reader<'a> {
    pub sheet: &'a [u8],
    // The next line, counted from 0.
    pub line: usize,
}

pub fn new<'a>(sheet: &'a [u8]) -> Reader<'a>
    ensures { (result.sheet ≡ sheet.entry) × (result.line ≡ 0) }
{
    Reader { sheet, line: 0 }
}

pub fn moved<'a>(r: Reader<'a>, line: usize) -> Reader<'a>
    ensures { (result.sheet ≡ r.entry.sheet) × (result.line ≡ line) }
{
    Reader {
        sheet: r.sheet,
        line,
    }
}

// What its next line says.
pub fn line<'a>(r: Reader<'a>) -> Option<Triple>
    ensures { result ≡ line_at r.entry.sheet.now r.entry.line }
{
    line_at(r.sheet, r.line)
}

// What its next line says, and the reader at the line after.
#[derive(Clone, Copy)]
pub struct Step<'a> {
    pub line: Option<Triple>,
    pub reader: Reader<'a>,
}

pub fn next<'a>(r: Reader<'a>) -> Step<'a>
    requires { r.line + 1 < 2 ^ 64 }
    ensures { (result.line ≡ line_at r.entry.sheet.now r.entry.line) × (result.reader.sheet ≡ r.entry.sheet) × (result.reader.line ≡ r.entry.line + 1) }
{
    Step {
        line: line(r),
        reader: moved(r, r.line + 1),
    }
}

// The lines of the term that starts at its next line.
pub fn term<'a>(r: Reader<'a>) -> &'a [u8]
    ensures { result.now ≡ sub_term r.entry.sheet.now r.entry.line }
{
    sub_term(r.sheet, r.line)
}

// What a line of a sheet says, and the line that the reader is at then.
#[derive(Clone, Copy)]
pub struct Lined {
    pub line: Option<Triple>,
    pub next: usize,
}

pub fn next_of_sheet(s: &[u8], i: usize) -> Lined
    requires { i + 1 < 2 ^ 64 }
    ensures { (result.line ≡ line_at s.now i) × (result.next ≡ i + 1) }
{
    let n = next(moved(new(s), i));
    Lined {
        line: n.line,
        next: n.reader.line,
    }
}

// The lines of the term that starts at a line of a sheet.
pub fn term_of_sheet(s: &[u8], at: usize) -> &[u8]
    ensures { result.now ≡ sub_term s.now at }
{
    term(moved(new(s), at))
}

// How many lines stand before the first misspelt one; all, if there is none.
pub fn first_misspelt(s: &[u8]) -> usize
    ensures { result ≡ first_misspelt (lines_of s.now) }
{
    let lines = s.len() / LINE_LENGTH;
    let mut i = 0;
    while i < lines {
        let read = next_of_sheet(s, i);
        if read.line.is_none() {
            return i;
        }
        i = read.next;
    }
    i
}

// What a sheet is refused for that the grammar refuses for e: a misspelt line anywhere comes before.
fn refused_for(s: &[u8], e: SheetError) -> SheetError
    ensures { Err result ≡ refusal s.now e }
{
    let i = first_misspelt(s);
    if i < s.len() / LINE_LENGTH {
        return SheetError::Misspelt(i + 1);
    }
    e
}

// A sheet of one to 2,000 whole lines.
fn length_ok(n: usize) -> bool
    ensures { result ≡ length_ok n }
{
    0 < n && n <= SHEET_BYTES && n % LINE_LENGTH == 0
}

// The tests of a sheet. Lines that make up a plan are spelt, so only a refused sheet is searched for a misspelt one.
pub fn check_sheet(s: &[u8]) -> Result<(), SheetError>
    ensures { result ≡ check s.now }
{
    if !length_ok(s.len()) {
        return Err(SheetError::Length);
    }
    match read_sheet(s) {
        Ok(_) => Ok(()),
        Err(e) => Err(refused_for(s, e)),
    }
}
