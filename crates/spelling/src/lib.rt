// How a sheet's lines are spelt: fields of decimal numbers, lines of 29 bytes.
#![tactic(auto)]

ghost use Rattle.std.specs.Prelude.{◌≡◌, false, ◌&&◌, ◌+◌, ◌*◌, ◌-◌, ◌/◌, ◌≤◌, ◌<◌, eqb, length, IfSome};
ghost use Rattle.spelling.specs.Spelling.{digit_step, other_step, step, field_from, blank, spaces_from, sign_ok, line_of, line_at};
ghost use Rattle.spelling.specs.Few.{digit_of, plain, roomy, short_field, few_at};

use sizes::LINE_LENGTH;

// What the bytes of a field read so far spell.
#[derive(Clone, Copy)]
pub enum Field {
    // Spaces only.
    Blank,
    // Spaces and a minus sign.
    Minus,
    // A number: its sign and its magnitude.
    Number(bool, u64),
    // No number.
    Bad,
}

// What a line says: its kind, its value as a sign and a magnitude, and its count.
#[derive(Clone, Copy)]
pub struct Triple {
    pub kind: u64,
    pub negative: bool,
    pub value: u64,
    pub count: u64,
}

// One digit more. A number that starts with 0 takes none, and no number passes 2^63.
fn digit_step(f: Field, d: u64) -> Field
    requires { d ≤ 9 }
    ensures { result ≡ digit_step f d }
{
    match f {
        Field::Blank => Field::Number(false, d),
        Field::Minus if d != 0 => Field::Number(true, d),
        Field::Number(n, m)
            if m != 0 && m <= 922337203685477580 && 10 * m + d <= 9223372036854775808 => {
            Field::Number(n, 10 * m + d)
        }
        _ => Field::Bad,
    }
}

// One byte more that is no digit: a space or a minus sign, before any digit.
fn other_step(f: Field, b: u8) -> Field
    ensures { result ≡ other_step f b }
{
    match (f, b) {
        (Field::Blank, b' ') => Field::Blank,
        (Field::Blank, b'-') => Field::Minus,
        _ => Field::Bad,
    }
}

// One byte more.
pub fn byte_step(f: Field, b: u8) -> Field
    ensures { result ≡ step f b }
{
    match b {
        b'0'..=b'9' => digit_step(f, (b - b'0') as u64),
        _ => other_step(f, b),
    }
}

// The 16 bytes from at are spaces. No byte ends the fold, so they are compared at once.
fn sixteen_spaces(s: &[u8], at: usize) -> bool
    requires { at + 16 ≤ length s.now }
    ensures { result ≡ blank s.now at 16 }
{
    s[at..at + 16]
        .iter()
        .fold(true, |all, b| all & (*b == b' '))
}

// How many bytes may be passed over as spaces at once: 16 or none.
fn spaces_at_once(bytes: &[u8]) -> usize
    ensures within { result ≤ length bytes.now }
    ensures rest { result + spaces_from bytes.now result (length bytes.now - result) ≡ spaces_from bytes.now 0 (length bytes.now) }
{
    if 16 <= bytes.len() && sixteen_spaces(bytes, 0) {
        16
    } else {
        0
    }
}

// How many spaces stand at the front.
fn spaces(bytes: &[u8]) -> usize
    ensures within { result ≤ length bytes.now }
    ensures count { result ≡ spaces_from bytes.now 0 (length bytes.now) }
{
    for i in spaces_at_once(bytes)..bytes.len() {
        if bytes[i] != b' ' {
            return i;
        }
    }
    bytes.len()
}

// What the bytes spell. Spaces are passed over in a loop of their own, since a field is mostly spaces.
fn field_of(bytes: &[u8]) -> Field
    ensures { result ≡ field_from bytes.now 0 (length bytes.now) Field.Blank }
{
    bytes[spaces(bytes)..]
        .iter()
        .fold(Field::Blank, |f, b| byte_step(f, *b))
}

// Only a kind 22 value may be negative, and a positive one is below 2^63.
fn sign_ok(f: Field, kind: u64) -> bool
    ensures { result ≡ sign_ok f kind }
{
    match f {
        Field::Number(true, _) => kind == 22,
        Field::Number(false, m) => m < 9223372036854775808,
        _ => false,
    }
}

#[tactic(auto, unfolding(crate::specs::Spelling::line_of))]
fn line_of(k: Field, v: Field, c: Field, e: u8) -> Option<Triple>
    ensures { result ≡ line_of k v c e }
{
    match (k, v, c) {
        (Field::Number(false, kind), Field::Number(negative, value), Field::Number(false, count))
            if sign_ok(v, kind) && e == b'\n' => {
            Some(Triple {
                kind,
                negative,
                value,
                count,
            })
        }
        _ => None,
    }
}

// The digit that a byte writes.
fn digit(b: u8) -> Option<u64>
    ensures { result ≡ digit_of b }
{
    match b {
        b'0'..=b'9' => Some((b - b'0') as u64),
        _ => None,
    }
}

// Two bytes after spaces.
fn last_two(a: u8, b: u8) -> Option<u64>
    ensures number { result ≡ plain (step (step Field.Blank a) b) }
    ensures small { IfSome result (λ n. n < 100) }
{
    let low = digit(b)?;
    match a {
        b' ' => Some(low),
        b'1'..=b'9' => Some(10 * ((a - b'0') as u64) + low),
        _ => None,
    }
}

// Two bytes after the digits of a number above 0.
fn two_more(n: u64, a: u8, b: u8) -> Option<u64>
    requires { (0 < n) × (n < 100) }
    ensures { result ≡ plain (step (step (Field.Number false n) a) b) }
{
    Some(10 * (10 * n + digit(a)?) + digit(b)?)
}

// Four bytes after spaces.
fn last_four(bytes: &[u8]) -> Option<u64>
    requires { length bytes.now ≡ 4 }
    ensures { result ≡ plain (field_from bytes.now 0 4 Field.Blank) }
{
    if bytes[1] == b' ' {
        return if bytes[0] == b' ' {
            last_two(bytes[2], bytes[3])
        } else {
            None
        };
    }
    match last_two(bytes[0], bytes[1])? {
        0 => None,
        n => two_more(n, bytes[2], bytes[3]),
    }
}

// Four bytes that are all spaces: compared as one word.
fn are_spaces(a: u8, b: u8, c: u8, d: u8) -> bool
    ensures { result ≡ (eqb a 32 && (eqb b 32 && (eqb c 32 && eqb d 32))) }
{
    u32::from_le_bytes([a, b, c, d]) == 0x20202020
}

// Five bytes, of which the first three are spaces. Most counts have one digit.
#[tactic(auto, using(crate::proofs::Few::short_is))]
fn last_five(bytes: &[u8]) -> Option<u64>
    requires { length bytes.now ≡ 5 }
    ensures { result ≡ short_field bytes.now 0 }
{
    if are_spaces(bytes[0], bytes[1], bytes[2], bytes[3]) {
        return last_two(b' ', bytes[4]);
    }
    if bytes[0] == b' ' && bytes[1] == b' ' && bytes[2] == b' ' {
        return last_two(bytes[3], bytes[4]);
    }
    None
}

// Columns 1 and 4 to 19 are spaces, and LF stands at the end.
#[tactic(auto, using(crate::proofs::Few::roomy_is))]
fn is_roomy(line: &[u8]) -> bool
    requires { length line.now ≡ 29 }
    ensures { result ≡ roomy line.now 0 }
{
    line[28] == b'\n' && sixteen_spaces(line, 3) && line[0] == b' '
}

// The line from the byte at, if its kind and count have at most two digits and its value at most four and no sign, as
// in most lines; None where it is no such line.
pub fn few_at(s: &[u8], at: usize) -> Option<Triple>
    requires { at + 29 ≤ length s.now }
    ensures { result ≡ few_at s.now at }
{
    let line = &s[at..at + 29];
    if !is_roomy(line) {
        return None;
    }
    Some(Triple {
        kind: last_two(line[1], line[2])?,
        negative: false,
        value: last_four(&line[19..23])?,
        count: last_five(&line[23..28])?,
    })
}

// The line at i, counted from 0; None where it is misspelt, as what lies past the last whole line is.
pub fn line_at(s: &[u8], i: usize) -> Option<Triple>
    ensures { result ≡ line_at s.now i }
{
    if s.len() / LINE_LENGTH <= i {
        return None;
    }
    let at = LINE_LENGTH * i;
    let k = field_of(&s[at..at + 3]);
    let v = field_of(&s[at + 3..at + 23]);
    let c = field_of(&s[at + 23..at + 28]);
    line_of(k, v, c, s[at + 28])
}
