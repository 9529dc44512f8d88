// A plan held as triples, written as a sheet. The grammar's reader decides whether it is one.
#![tactic(auto)]

ghost use Rattle.std.specs.Prelude.{◌≡◌, true, map, ◌+◌, ◌*◌, ◌/◌, ◌≤◌, length};
ghost use Rattle.std.proofs.lemmas.List.Edits.{sets};
ghost use Rattle.sizes.specs.Sizes.{line_length, sheet_bytes, triple_words};
ghost use Rattle.writing.specs.Writing.{triple_of, triple_at, triples_of, sayable, tame, sheet_text, words_ok, Written};

use columns::write_line;
use grammar::read_sheet;
use judgment::Answer;
use sizes::{LINE_LENGTH, PLAN_WORDS, SHEET_BYTES, TRIPLE_WORDS};
use spelling::Triple;

// A value is in two's complement.
fn triple_of(kind: u64, value: u64, count: u64) -> Triple
    ensures { result ≡ triple_of kind value count }
{
    if 9223372036854775808 <= value {
        let below = 18446744073709551615 - value;
        return Triple {
            kind,
            negative: true,
            value: below + 1,
            count,
        };
    }
    Triple {
        kind,
        negative: false,
        value,
        count,
    }
}

// The triple at i, counted from 0.
pub fn triple_at(triples: &[u64], i: usize) -> Triple
    requires { triple_words * i + triple_words ≤ length triples.now }
    ensures { result ≡ triple_at triples.now i }
{
    let at = TRIPLE_WORDS * i;
    triple_of(triples[at], triples[at + 1], triples[at + 2])
}

// A line can say it.
pub fn is_sayable(t: Triple) -> bool
    ensures { result ≡ sayable t }
{
    if 1000 <= t.kind || 100000 <= t.count {
        return false;
    }
    if t.negative {
        return t.kind == 22 && 0 < t.value && t.value <= 9223372036854775808;
    }
    t.value < 9223372036854775808
}

// The triple, or in place of one that no line can say one that stands nowhere in a plan.
fn tamed(t: Triple) -> Triple
    ensures { result ≡ tame t }
{
    if is_sayable(t) {
        return t;
    }
    Triple {
        kind: 1,
        negative: false,
        value: 0,
        count: 0,
    }
}

// A line for each triple, from the front of `text` on.
fn write_lines(triples: &[u64], text: &mut [u8])
    requires { line_length * (length triples.now / triple_words) ≤ length text.old }
    ensures { text.new ≡ sets text.old 0 (sheet_text (map tame (triples_of triples.now))) }
{
    for i in 0..triples.len() / TRIPLE_WORDS {
        write_line(text, LINE_LENGTH * i, tamed(triple_at(triples, i)));
    }
}

// Puts the text at the front of `out`.
fn copy_front(text: &[u8], out: &mut [u8])
    requires { length text.now ≤ length out.old }
    ensures { out.new ≡ sets out.old 0 text.now }
{
    out[..text.len()].copy_from_slice(text);
}

fn are_words(n: usize) -> bool
    ensures { result ≡ words_ok n }
{
    0 < n && n <= PLAN_WORDS && n % TRIPLE_WORDS == 0
}

// With room for the longest sheet in `text`: `out` is written only once the verdict is known.
fn write_plan(triples: &[u64], text: &mut [u8], out: &mut [u8]) -> Answer
    requires { (words_ok (length triples.now) ≡ true) × (length text.old ≡ sheet_bytes) }
    ensures { Written triples.now out.old result out.new }
{
    let bytes = LINE_LENGTH * (triples.len() / TRIPLE_WORDS);
    write_lines(triples, text);
    match read_sheet(&text[..bytes]) {
        Ok(_) => {
            if out.len() < bytes {
                return Answer::refused(31, 0);
            }
            copy_front(&text[..bytes], out);
            Answer::refused(0, 0)
        }
        Err(e) => Answer::refused(5, e.line() as u32),
    }
}

// The sheet of a plan's triples at the front of `out`, whose other bytes are kept; a refusal writes nothing.
pub fn write_sheet(triples: &[u64], out: &mut [u8]) -> Answer
    ensures { Written triples.now out.old result out.new }
{
    if !are_words(triples.len()) {
        return Answer::refused(3, 0);
    }
    let mut text = [0u8; SHEET_BYTES];
    write_plan(triples, &mut text, out)
}
