// Numbers as text, right-justified with spaces: a field, a line of a sheet, the seven numbers of an answer.
#![tactic(auto)]

ghost use Rattle.std.specs.Prelude.{◌≡◌, ◌+◌, ◌≤◌, length};
ghost use Rattle.std.proofs.lemmas.List.Edits.{sets};
ghost use Rattle.sizes.specs.Sizes.{line_length};
ghost use Rattle.spelling.specs.Text.{last, front, field_text, line_text};
ghost use Rattle.columns.specs.Columns.{digits, width, Written, answer_text};

use judgment::Answer;
use spelling::{Field, Triple};

// The bytes of the seven numbers of any call, six each, and LF (`proofs/Sixes.antt`).
pub const ANSWER_BYTES: usize = 43;

// The last byte of a field.
fn last_byte(f: Field) -> u8
    ensures { result ≡ last f }
{
    match f {
        Field::Blank => b' ',
        Field::Minus => b'-',
        Field::Number(_, x) => b'0' + (x % 10) as u8,
        Field::Bad => 0,
    }
}

// What stands before its last byte.
fn before_last(f: Field) -> Field
    ensures { result ≡ front f }
{
    match f {
        Field::Number(negative, x) if x >= 10 => Field::Number(negative, x / 10),
        Field::Number(true, _) => Field::Minus,
        Field::Number(false, _) | Field::Blank | Field::Minus => Field::Blank,
        Field::Bad => Field::Bad,
    }
}

// The field in w columns from `at` on.
pub fn write_field(out: &mut [u8], at: usize, w: usize, f: Field)
    requires { at + w ≤ length out.old }
    ensures { out.new ≡ sets out.old at (field_text w f) }
{
    let mut rest = f;
    for i in (0..w).rev() {
        out[at + i] = last_byte(rest);
        rest = before_last(rest);
    }
}

// A line of a sheet: kind in 3 columns, value in 20, count in 5, LF.
pub fn write_line(out: &mut [u8], at: usize, t: Triple)
    requires { at + line_length ≤ length out.old }
    ensures { out.new ≡ sets out.old at (line_text t) }
{
    write_field(out, at, 3, Field::Number(false, t.kind));
    write_field(out, at + 3, 20, Field::Number(t.negative, t.value));
    write_field(out, at + 23, 5, Field::Number(false, t.count));
    out[at + 28] = b'\n';
}

// How many digits a number has; 0 has one.
pub fn digit_count(n: u32) -> usize
    ensures { result ≡ digits n }
{
    n.max(1).ilog10() as usize + 1
}

// Six columns, or more for more digits. Answers where the next one starts.
fn write_column(out: &mut [u8], at: usize, n: u32) -> usize
    requires { at + width n ≤ length out.old }
    ensures { Written out.old at n out.new result }
{
    let w = digit_count(n).max(6);
    write_field(out, at, w, Field::Number(false, n as u64));
    at + w
}

// The seven numbers and LF at the front of `out`, which has room for them. Answers how many bytes they are.
pub fn write_answer(out: &mut [u8], a: Answer) -> usize
    requires { length (answer_text a) ≤ length out.old }
    ensures { (out.new ≡ sets out.old 0 (answer_text a)) × (result ≡ length (answer_text a)) }
{
    let mut end = 0;
    for n in a.numbers() {
        end = write_column(out, end, n);
    }
    out[end] = b'\n';
    end + 1
}
