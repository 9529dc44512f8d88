// The grammar of a plan: readers of types, terms, arms and patterns.
#![tactic(auto)]

ghost use Rattle.std.specs.Prelude.{◌≡◌, [], ◌∷◌, ◌+◌, ◌*◌, ◌-◌, ◌/◌, ◌≤◌, ◌<◌, length, replicate};
ghost use Rattle.sizes.specs.Sizes.{line_length};
ghost use Rattle.spelling.specs.Spelling.{line_at};
ghost use Rattle.grammar.specs.Grammar.{part, entries, in_order, declared_by, arms, following, read_at, unfit, sub_term};
ghost use Rattle.grammar.specs.Check.{read_sheet, refusal_number, refusal_line};

use kinds::{Parts, Sort, begins, head_of};
use sizes::LINE_LENGTH;
use spelling::{Triple, line_at};

// Why a sheet is refused. A line is counted from 1.
#[derive(Clone, Copy)]
pub enum SheetError {
    // 3: length 0, over 58,000 or no multiple of 29.
    Length,
    // 4: the first misspelt line.
    Misspelt(usize),
    // 5: the first line that can't continue a plan, or the one that is lacking.
    Unfit(usize),
}

impl SheetError {
    // Document 01's number.
    pub fn number(self) -> u32
        ensures { result ≡ refusal_number self }
    {
        match self {
            SheetError::Length => 3,
            SheetError::Misspelt(_) => 4,
            SheetError::Unfit(_) => 5,
        }
    }

    // Its line; 0 for the length.
    pub fn line(self) -> usize
        ensures { result ≡ refusal_line self }
    {
        match self {
            SheetError::Length => 0,
            SheetError::Misspelt(line) | SheetError::Unfit(line) => line,
        }
    }
}

// One whole part of a sort. The readers' error is the line alone that is Unfit, so that two registers hold what they
// return; and those of this cycle are inlined into this one: their stack goes with the lines.
#[cycle(part)]
fn read_part(s: &[u8], at: usize, sort: Sort) -> Result<usize, usize>
    requires { at ≤ length s.now / line_length }
    ensures { unfit result ≡ read_at s.now (part sort ∷ []) at }
{
    let t = line_at(s, at).ok_or(at + 1)?;
    read_begun(s, at, t, sort)
}

// The part of a sort that begins with the line t, which stands at `at`.
#[cycle(part)]
#[inline(always)]
fn read_begun(s: &[u8], at: usize, t: Triple, sort: Sort) -> Result<usize, usize>
    requires { (at ≤ length s.now / line_length) × (line_at s.now at ≡ Some t) }
    ensures { unfit result ≡ read_at s.now (part sort ∷ []) at }
{
    let parts = head_of(t, sort).ok_or(at + 1)?;
    read_follow(s, at + 1, parts)
}

// As many parts of a sort as count says.
#[cycle(part)]
#[inline(always)]
fn read_parts(s: &[u8], at: usize, sort: Sort, count: u64) -> Result<usize, usize>
    requires { at ≤ length s.now / line_length }
    ensures { unfit result ≡ read_at s.now (replicate count (part sort)) at }
{
    let mut next = at;
    for _ in 0..count {
        next = read_part(s, next, sort)?;
    }
    Ok(next)
}

// As many arms as count says, each a pattern and a term.
#[cycle(part)]
#[inline(always)]
fn read_arms(s: &[u8], at: usize, count: u64) -> Result<usize, usize>
    requires { at ≤ length s.now / line_length }
    ensures { unfit result ≡ read_at s.now (arms count) at }
{
    let mut next = at;
    for _ in 0..count {
        let body = read_part(s, next, Sort::Pattern)?;
        next = read_part(s, body, Sort::Term)?;
    }
    Ok(next)
}

// The parts that follow a line: types, then terms, then count times each.
#[cycle(part)]
#[inline(always)]
fn read_follow(s: &[u8], at: usize, p: Parts) -> Result<usize, usize>
    requires { at ≤ length s.now / line_length }
    ensures { unfit result ≡ read_at s.now (following p.types p.terms p.each p.count) at }
{
    let terms = read_parts(s, at, Sort::Type, p.types)?;
    let rest = read_parts(s, terms, Sort::Term, p.terms)?;
    match p.each {
        Sort::Type | Sort::Term | Sort::Pattern => read_parts(s, rest, p.each, p.count),
        Sort::Arm => read_arms(s, rest, p.count),
        _ => Ok(rest),
    }
}

// What a line says that may stand where an entry of kind 1 or 2, or the expected type, is due.
#[derive(Clone, Copy)]
pub enum Declared {
    Named { kind: u64, name: u64 },
    Expected,
}

// Kind 2 comes after kind 1, and names rise within each. The entry before had kind k and the name last.
pub fn in_order(t: Triple, k: u64, last: u64) -> bool
    ensures { result ≡ in_order k last t }
{
    if t.kind == k {
        last < t.value
    } else {
        t.kind == 2
    }
}

#[tactic(auto, unfolding(crate::specs::Grammar::declared_by))]
fn declared_by(t: Triple, k: u64, last: u64) -> Option<Declared>
    ensures { result ≡ declared_by k last t }
{
    if begins(t, Sort::Entry) {
        return in_order(t, k, last).then_some(Declared::Named {
            kind: t.kind,
            name: t.value,
        });
    }
    begins(t, Sort::Expected).then_some(Declared::Expected)
}

// The rest of a plan, after an entry of kind k and the name last.
fn read_entries(s: &[u8], at: usize, k: u64, last: u64) -> Result<usize, usize>
    requires { at ≤ length s.now / line_length }
    ensures { unfit result ≡ read_at s.now (entries k last ∷ []) at }
{
    let mut next = at;
    let mut kind_before = k;
    let mut name_before = last;
    loop {
        let t = line_at(s, next).ok_or(next + 1)?;
        match declared_by(t, kind_before, name_before).ok_or(next + 1)? {
            Declared::Named { kind, name } => {
                next = read_begun(s, next, t, Sort::Entry)?;
                kind_before = kind;
                name_before = name;
            }
            Declared::Expected => {
                let goal = read_begun(s, next, t, Sort::Expected)?;
                return read_part(s, goal, Sort::Goal);
            }
        }
    }
}

// A whole plan, and no line after its term.
pub fn read_sheet(s: &[u8]) -> Result<usize, SheetError>
    ensures { result ≡ read_sheet s.now }
{
    let end = read_entries(s, 0, 1, 0).map_err(SheetError::Unfit)?;
    if end != s.len() / LINE_LENGTH {
        return Err(SheetError::Unfit(end + 1));
    }
    Ok(end)
}

// The lines of the term that starts at a line; none if no whole term starts there.
pub fn sub_term(s: &[u8], at: usize) -> &[u8]
    ensures { result.now ≡ sub_term s.now at }
{
    if s.len() / LINE_LENGTH <= at {
        return &s[..0];
    }
    match read_part(s, at, Sort::Term) {
        Ok(end) => &s[LINE_LENGTH * at..LINE_LENGTH * end],
        Err(_) => &s[..0],
    }
}
