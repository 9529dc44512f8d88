// The table by kind: which sort of part a line begins, what its fields hold, and which parts follow it (core.rs).
#![tactic(auto)]

ghost use Rattle.std.specs.Prelude.{◌≡◌, ℕ, ◌<◌, ◌≤◌, Option, Some};
ghost use Rattle.kinds.specs.declared.Sort.{Sort};
ghost use Rattle.kinds.specs.Kinds.{sort_in, sort_numbered, value_in, digits_in, row_in, row_of, word_of, most_count, value_ok, count_ok, fields_ok, is_leaf, begins_for, head_for, Tabled};

use sizes::HIGHEST_NAME;
use spelling::Triple;

// Sorts of parts, in the order of their digits in a row's word. An arm is a pattern and then a term.
#[derive(Clone, Copy, PartialEq, Eq)]
pub enum Sort {
    Nothing,
    Type,
    Term,
    Pattern,
    Arm,
    // An entry with its type, the expected type with its line, and the term with its line.
    Entry,
    Expected,
    Goal,
}

// What a sort is asked for by: itself, or its number in that order. A number above 7 is of no sort.
pub trait AsSort {
    ghost sort_of: { Self → Option Sort };

    fn as_sort(self) -> Option<Sort>
        ensures { result ≡ sort_of self };
}

impl AsSort for Sort {
    ghost sort_of = { λ x. Some x };

    fn as_sort(self) -> Option<Sort> {
        Some(self)
    }
}

impl AsSort for u64 {
    ghost sort_of = { sort_numbered };

    fn as_sort(self) -> Option<Sort> {
        if 7 < self {
            return None;
        }
        Some(sort_in(self))
    }
}

// What a value holds, in the same order.
#[derive(Clone, Copy)]
pub enum Value {
    Unused,
    Name,
    Number,
    Operator,
}

// What the table says of a kind.
#[derive(Clone, Copy)]
pub struct Row {
    // The sort of part that a line of this kind begins.
    pub sort: Sort,
    pub value: Value,
    // It has a count.
    pub counted: bool,
    // How many types follow, and then how many terms.
    pub types: u64,
    pub terms: u64,
    // What then follows as many times as the count says.
    pub each: Sort,
}

// The digits of a row's word, one for each field of Row, whatever the word is.
#[derive(Clone, Copy)]
pub struct Digits {
    pub sort: u64,
    pub value: u64,
    pub count: u64,
    pub types: u64,
    pub terms: u64,
    pub each: u64,
}

// The rows by kind, a hexadecimal digit a field, in the order of Row. A constant array is laid down anew at each use,
// so a row is one word.
const TABLE: [u32; 44] = [
    0x000000, // 0
    0x510100, // 1 data constructor
    0x510100, // 2 context variable
    0x600100, // 3 expected type
    0x700010, // 4 term
    0x000000, // 5
    0x000000, // 6
    0x000000, // 7
    0x000000, // 8
    0x000000, // 9
    0x000000, // 10
    0x110000, // 11 Var
    0x110000, // 12 Con
    0x100200, // 13 Arrow
    0x110100, // 14 Forall
    0x100200, // 15 App
    0x101001, // 16 Product
    0x000000, // 17
    0x000000, // 18
    0x000000, // 19
    0x000000, // 20
    0x210000, // 21 Var
    0x220000, // 22 LitInt
    0x210110, // 23 Lambda
    0x200020, // 24 App
    0x210010, // 25 TypeLambda
    0x211002, // 26 Constructor
    0x201014, // 27 Case
    0x230020, // 28 BinOp
    0x200030, // 29 If
    0x211002, // 30 IntrinsicCall
    0x000000, // 31
    0x000000, // 32
    0x000000, // 33
    0x000000, // 34
    0x000000, // 35
    0x000000, // 36
    0x000000, // 37
    0x000000, // 38
    0x000000, // 39
    0x000000, // 40
    0x300000, // 41 Wildcard
    0x310000, // 42 Var
    0x311003, // 43 Constructor
];

// The last of the sorts stands for each digit from its own on.
fn sort_in(digit: u64) -> Sort
    ensures { result ≡ sort_in digit }
{
    match digit {
        0 => Sort::Nothing,
        1 => Sort::Type,
        2 => Sort::Term,
        3 => Sort::Pattern,
        4 => Sort::Arm,
        5 => Sort::Entry,
        6 => Sort::Expected,
        _ => Sort::Goal,
    }
}

fn value_in(digit: u64) -> Value
    ensures { result ≡ value_in digit }
{
    match digit {
        0 => Value::Unused,
        1 => Value::Name,
        2 => Value::Number,
        _ => Value::Operator,
    }
}

pub fn unpacked(word: u32) -> Digits
    ensures { result ≡ digits_in word }
{
    Digits {
        sort: (word / 0x100000) as u64,
        value: (word / 0x10000 % 16) as u64,
        count: (word / 0x1000 % 16) as u64,
        types: (word / 0x100 % 16) as u64,
        terms: (word / 0x10 % 16) as u64,
        each: (word % 16) as u64,
    }
}

// The row whose word that is.
pub fn row_in(word: u32) -> Row
    ensures { result ≡ row_in word }
{
    let d = unpacked(word);
    Row {
        sort: sort_in(d.sort),
        value: value_in(d.value),
        counted: d.count != 0,
        types: d.types,
        terms: d.terms,
        each: sort_in(d.each),
    }
}

fn row_at(kind: u64) -> Row
    ensures { result ≡ row_of kind }
{
    row_in(word_in(&TABLE, kind))
}

// The rows by kind as words, for a caller that looks up many: it makes them once and lends them.
pub fn table_words() -> [u32; 44]
    ensures { Tabled result }
{
    TABLE
}

// The row of a kind as its word, from such words: most lines need few of its fields.
pub fn word_in(words: &[u32; 44], kind: u64) -> u32
    requires { Tabled words.now }
    ensures row { row_in result ≡ row_of kind }
    ensures word { result ≡ word_of (row_of kind) }
{
    words.get(kind as usize).copied().unwrap_or(0)
}

// No part follows a line whose row is that word.
pub fn is_leaf(word: u32) -> bool
    ensures { result ≡ is_leaf (row_in word) }
{
    word % 0x1000 == 0
}

fn value_ok(rule: Value, value: u64) -> bool
    ensures { result ≡ value_ok rule value }
{
    match rule {
        Value::Unused => value == 0,
        Value::Name => 1 <= value && value <= HIGHEST_NAME,
        Value::Number => true,
        Value::Operator => 1 <= value && value <= 6,
    }
}

fn most_count(counted: bool) -> u64
    ensures { result ≡ most_count counted }
{
    if counted { 99 } else { 0 }
}

fn count_ok(counted: bool, count: u64) -> bool
    ensures { result ≡ count_ok counted count }
{
    count <= most_count(counted)
}

// The fields of a line of that row are in range.
fn row_takes(row: Row, t: Triple) -> bool
    ensures { result ≡ fields_ok row t }
{
    value_ok(row.value, t.value) && count_ok(row.counted, t.count)
}

// The fields of a line whose row is that word are in range.
pub fn fields_ok(word: u32, t: Triple) -> bool
    ensures { result ≡ fields_ok (row_in word) t }
{
    row_takes(row_in(word), t)
}

// What must follow a line: types, then terms, then count times each.
#[derive(Clone, Copy)]
pub struct Parts {
    pub types: u64,
    pub terms: u64,
    pub each: Sort,
    pub count: u64,
}

// What must follow the line; None where no part of the sort begins with it.
#[tactic(auto, unfolding(crate::specs::Kinds::head_of, crate::specs::Kinds::begins))]
pub fn head_of<S: AsSort>(t: Triple, sort: S) -> Option<Parts>
    ensures { result ≡ head_for (S.sort_of sort) t }
{
    let sort = sort.as_sort()?;
    let row = row_at(t.kind);
    (row.sort == sort && row_takes(row, t)).then_some(Parts {
        types: row.types,
        terms: row.terms,
        each: row.each,
        count: t.count,
    })
}

// A part of the sort begins with this line.
#[tactic(auto, unfolding(crate::specs::Kinds::head_of))]
pub fn begins<S: AsSort>(t: Triple, sort: S) -> bool
    ensures { result ≡ begins_for (S.sort_of sort) t }
{
    head_of(t, sort).is_some()
}
