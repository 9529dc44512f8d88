// The plan on a sheet: its lines, where a part starts, its entries, where its expected type and its term start, the
// plain mark. A sheet is read once into rows, and the rules read those. A function that looks for a part's end asks for
// rows that have their ends, as `read_plan` gives them; the others take any words. What they mean as a plan is for a
// sheet that is one.
#![tactic(auto)]

ghost use Rattle.std.specs.Prelude.{◌≡◌, ◌≢◌, true, not, cond, ◌&&◌, ◌||◌, List, [], ◌∷◌, ℕ, ◌+◌, ◌*◌, ◌-◌, ◌/◌, ◌%◌, ◌≤◌, ◌<◌, length, get_or, set, take, drop, replicate, eqb};
ghost use Rattle.std.proofs.lemmas.List.Edits.{sets};
ghost use Rattle.sizes.specs.Sizes.{line_length, most_lines};
ghost use Rattle.kinds.specs.Kinds.{a_goal, nothing, same_sort, row_of, Tabled};
ghost use Rattle.grammar.specs.Grammar.{part, entries, arms, repeated};
ghost use Rattle.grammar.specs.Check.{length_ok, check};
ghost use Rattle.nodes.specs.Nodes.{number, words, zeros};
ghost use Rattle.nodes.specs.Lists.{All};
ghost use Rattle.sheet.specs.Plan.{no_triple, triples, part_line, line_node, nodes_of, Narrow, is_entry, named, declarations, find_entry, entries_end, places_of, is_plain, is_use, plain_entries, plain_plan};
ghost use Rattle.sheet.specs.Used.{table_length, mark_name, marked, is_marked, Tells, SmallNames};
ghost use Rattle.sheet.specs.Rows.{packed, row_triple, line_count, rows, end_at, binder_at, EndsFrom, HeldFrom, first_entry, some_line, Ended, set_row, RowAsk, KindsFrom, linked, link_entry, Unlinked, Linked, unlinked_words, link_all, front_of, set_binder, put_binders, quantified, bind_type, bind_all, sheet_words};
ghost use Rattle.sheet.specs.Binders.{put_names, binder_by, TellsPlaces, UpTo, mark_type, mark_all, any_quantified, Bindable, TypeAsk};
ghost use Rattle.sheet.specs.Fit.{is_plan, forms, parts_after, WalksOver, walked, line_fits, all_fit};

use grammar::in_order;
use kinds::{Row, Sort, fields_ok, is_leaf, row_in, table_words, word_in};
use sizes::{HIGHEST_NAME, LINE_LENGTH};
use spelling::{Triple, few_at, line_at};

// What a line says where there is none.
const NO_TRIPLE: Triple = Triple {
    kind: 0,
    negative: false,
    value: 0,
    count: 0,
};

// An element for each name.
const TABLE_LENGTH: usize = HIGHEST_NAME as usize + 1;

// How many lines there are: each has a row of two words, and behind the rows two words that link the entries.
pub fn line_count(s: &[u64]) -> usize
    ensures { result ≡ length (rows s.now) }
{
    s.len() / 4
}

// A row's two words as a line.
fn row_triple(value: u64, word: u64) -> Triple
    ensures { result ≡ row_triple value word }
{
    Triple {
        kind: word % 1024,
        negative: word / 1024 % 2 == 1,
        value,
        count: word / 2048 % 131072,
    }
}

// Kind, value and count of a line; all 0 where there is none.
pub fn triple_at(s: &[u64], i: usize) -> Triple
    ensures { result ≡ get_or (rows s.now) i no_triple }
{
    if i < s.len() / 4 {
        row_triple(s[2 * i], s[2 * i + 1])
    } else {
        NO_TRIPLE
    }
}

// The line after the part that starts at line i.
fn end_at(s: &[u64], i: usize) -> usize
    requires { 2 * i + 1 < length s.now }
    ensures { result ≡ end_at s.now i }
{
    (s[2 * i + 1] / 268435456 % 4096) as usize
}

// The place of the quantifier at the front of a constructor's type that binds the Var at line i, counted from 1;
// 0 where none does.
pub fn binder_at(s: &[u64], i: usize) -> u32
    requires { 2 * i + 1 < length s.now }
    ensures { (result ≡ binder_at s.now i) × (result < 16777216) }
{
    (s[2 * i + 1] / 1099511627776) as u32
}

// The line after n whole parts that start at line `first`, or the line count if they don't end.
pub fn part_line(s: &[u64], first: usize, n: usize) -> usize
    requires { Ended s.now }
    ensures { result ≡ part_line (rows s.now) first n }
{
    let lines = line_count(s);
    let mut at = first;
    for _ in 0..n {
        if lines <= at {
            return at;
        }
        at = end_at(s, at);
    }
    at
}

fn pack(t: Triple, end: usize) -> u64
    requires { (t.kind < 1000) × (t.count < 100000) × (end ≤ most_lines + 1) }
    ensures { result ≡ packed t end }
{
    t.kind + 1024 * (u64::from(t.negative) + 2 * (t.count + 131072 * (end as u64)))
}

// No entry is linked.
fn clear_links(d: &mut [u64])
    ensures { d.new ≡ sets d.old (2 * line_count d.old) (zeros (length d.old - 2 * line_count d.old)) }
{
    let behind = 2 * (d.len() / 4);
    d[behind..].fill(0);
}

// What line i says. Most lines have few digits.
fn line_said(s: &[u8], i: usize) -> Triple
    requires { i < length s.now / line_length }
    ensures { result ≡ get_or (triples s.now) i no_triple }
{
    match few_at(s, LINE_LENGTH * i) {
        Some(t) => t,
        None => line_at(s, i).unwrap_or(NO_TRIPLE),
    }
}

// Where the parts that follow a line end, and whether the line fits in front of them. A part that doesn't fit ends too,
// and so its line is read: there is one in either case.
#[derive(Clone, Copy)]
pub struct Walked {
    pub line: usize,
    pub fits: bool,
}

// What is read of the parts that follow a line: the sheet's rows, of so many lines, and the table of kinds.
#[derive(Clone, Copy)]
struct Walk<'a> {
    sheet: &'a [u64],
    table: &'a [u32; 44],
    lines: usize,
    ghost room: { 2 * lines ≤ length sheet.now },
    ghost tabled: { Tabled table.now },
}

// Each walks over parts by their first lines, from where another one ended on; the rows from there on have been read.
impl Walk<'_> {
    // The part that starts at line i is of that sort.
    fn has_sort(self, i: usize, sort: Sort) -> bool
        requires { 2 * i + 1 < length self.sheet.now }
        ensures { result ≡ same_sort (row_of (get_or self.entry.sheet.now (2 * i + 1) 0 % 1024)).sort sort }
    {
        row_in(word_in(self.table, self.sheet[2 * i + 1] % 1024)).sort == sort
    }

    // n parts of one sort.
    fn over_sort(self, from: Walked, n: u64, sort: Sort) -> Walked
        requires { sort ≢ nothing }
        ensures { WalksOver self.entry.sheet.now self.entry.lines from (replicate n (part sort)) result }
    {
        let mut line = from.line;
        let mut fits = from.fits;
        for _ in 0..n {
            if self.lines <= line {
                return Walked { line, fits: false };
            }
            fits &= self.has_sort(line, sort);
            line = end_at(self.sheet, line);
        }
        Walked { line, fits }
    }

    // n arms.
    fn over_arms(self, from: Walked, n: u64) -> Walked
        ensures { WalksOver self.entry.sheet.now self.entry.lines from (arms n) result }
    {
        let mut walked = from;
        for _ in 0..n {
            let pattern = self.over_sort(walked, 1, Sort::Pattern);
            walked = self.over_sort(pattern, 1, Sort::Term);
        }
        walked
    }

    // What follows n times.
    fn over_each(self, from: Walked, n: u64, each: Sort) -> Walked
        ensures { WalksOver self.entry.sheet.now self.entry.lines from (repeated each n) result }
    {
        match each {
            Sort::Type | Sort::Term | Sort::Pattern => self.over_sort(from, n, each),
            Sort::Arm => self.over_arms(from, n),
            _ => from,
        }
    }

    // All that follows a line of that row with the count n.
    fn over_parts(self, from: Walked, n: u64, row: Row) -> Walked
        ensures { WalksOver self.entry.sheet.now self.entry.lines from (parts_after row n) result }
    {
        let types = self.over_sort(from, row.types, Sort::Type);
        let terms = self.over_sort(types, row.terms, Sort::Term);
        self.over_each(terms, n, row.each)
    }

    // All that follows line i, which says t. The line fits if its fields are in range and each part starts with a line
    // of the sort that is due there.
    fn over_line(self, i: usize, t: Triple) -> Walked
        requires { i < self.lines }
        ensures { (ls : List Triple) → HeldFrom ls self.entry.sheet.now self.entry.lines (i + 1) → result ≡ walked ls i t }
    {
        let word = word_in(self.table, t.kind);
        let here = Walked {
            line: i + 1,
            fits: fields_ok(word, t),
        };
        if is_leaf(word) {
            return here;
        }
        self.over_parts(here, t.count, row_in(word))
    }
}

// Reads line i to its row. Its parts end where its own end stands; those after it have been read. Gives whether the
// line fits in front of them.
fn read_line(d: &mut [u64], table: &[u32; 44], s: &[u8], i: usize) -> bool
    requires { RowAsk d.old s.now i × Tabled table.now }
    ensures { (d.new ≡ set_row d.old i (get_or (triples s.now) i no_triple) (part_line (triples s.now) i 1)) × (result ≡ line_fits (get_or (triples s.now) i no_triple) (drop (i + 1) (triples s.now))) }
{
    let t = line_said(s, i);
    let walk = Walk {
        sheet: d,
        table,
        lines: s.len() / LINE_LENGTH,
    };
    let parts = walk.over_line(i, t);
    d[2 * i] = t.value;
    d[2 * i + 1] = pack(t, parts.line);
    parts.fits
}

// Reads all lines, the last one first. Gives whether every line fits in front of those after it.
fn read_lines(d: &mut [u64], table: &[u32; 44], s: &[u8]) -> bool
    requires { (length d.old ≡ 4 * length (triples s.now)) × (length (triples s.now) ≤ most_lines) × Unlinked d.old × Tabled table.now }
    ensures { (rows d.new ≡ triples s.now) × EndsFrom (rows d.new) d.new 0 × Unlinked d.new × (d.new ≡ unlinked_words (triples s.now)) × (result ≡ all_fit (triples s.now)) }
{
    let mut fits = true;
    for i in (0..s.len() / LINE_LENGTH).rev() {
        fits &= read_line(d, table, s, i);
    }
    fits
}

// The line of kind 4 and the term, with which the sheet ends.
fn goal_ok(d: &[u64], at: usize) -> bool
    requires { EndsFrom (rows d.now) d.now 0 × (all_fit (rows d.now) ≡ true) }
    ensures { result ≡ forms (drop at (rows d.now)) (part a_goal ∷ []) }
{
    triple_at(d, at).kind == 4 && end_at(d, at) == line_count(d)
}

// An entry: its own line, where its type starts, and the line after it.
#[derive(Clone, Copy)]
struct Entry {
    head: Triple,
    line: usize,
    end: usize,
}

// The entry at line `at`, if one is there.
fn entry_at(s: &[u64], at: usize) -> Option<Entry>
    requires { EndsFrom (rows s.now) s.now at }
    ensures { result ≡ first_entry (declarations (drop at (rows s.now)) 0 at) }
{
    let head = triple_at(s, at);
    if is_entry(head) {
        Some(Entry {
            head,
            line: at + 1,
            end: end_at(s, at),
        })
    } else {
        None
    }
}

// The entries from line `at` on.
#[derive(Clone, Copy)]
struct Entries<'a> {
    sheet: &'a [u64],
    at: usize,
    ghost ends: { EndsFrom (rows sheet.now) sheet.now at },
}

impl Iterator for Entries<'_> {
    ghost use Rattle.std.specs.Iterator.{YieldsFirst, item_count};
    ghost use Rattle.sheet.specs.Entries.{entries_left};

    type Item = Entry;

    ghost next_gives = { YieldsFirst entries_left };

    ghost remaining = { item_count entries_left };

    fn next(&mut self) -> Option<Entry> {
        let entry = entry_at(self.sheet, self.at)?;
        self.at = entry.end;
        Some(entry)
    }
}

// The plan's own lines come in their order: entries, the expected type's, the goal's. All lines fit in front of those
// after them.
fn top_ok(d: &[u64]) -> bool
    requires { EndsFrom (rows d.now) d.now 0 × (all_fit (rows d.now) ≡ true) }
    ensures { result ≡ forms (rows d.now) (entries 1 0 ∷ []) }
{
    let mut at = 0;
    let mut kind: u64 = 1;
    let mut last: u64 = 0;
    while let Some(entry) = entry_at(d, at) {
        if !in_order(entry.head, kind, last) {
            return false;
        }
        kind = entry.head.kind;
        last = entry.head.value;
        at = entry.end;
    }
    triple_at(d, at).kind == 3 && goal_ok(d, end_at(d, at))
}

// Reads a sheet once, to rows, and tells whether it is a plan: every word is fixed, those of the links too.
pub fn read_plan(d: &mut [u64], s: &[u8]) -> bool
    requires { (length d.old ≡ 4 * (length s.now / line_length)) × (length_ok (length s.now) ≡ true) }
    ensures { (result ≡ is_plan (check s.now)) × (d.new ≡ cond result (sheet_words (triples s.now)) (unlinked_words (triples s.now))) × (result ≡ true → (rows d.new ≡ triples s.now) × Ended d.new) }
{
    clear_links(d);
    let table = table_words();
    if read_lines(d, &table, s) && top_ok(d) {
        link_entries(d);
        bind_entries(d);
        return true;
    }
    false
}

// Where the type of an entry stands: its first line, and how many lines it has.
#[derive(Clone, Copy)]
pub struct Extent {
    pub line: usize,
    pub count: usize,
}

fn is_entry(t: Triple) -> bool
    ensures { result ≡ is_entry t }
{
    matches!(t.kind, 1 | 2)
}

fn is_named(t: Triple, kind: u64, name: u64) -> bool
    ensures { result ≡ named kind name t }
{
    t.kind == kind && t.value == name
}

// Names with the same remainder by the line count share a slot.
fn slot_of(name: u64, lines: usize) -> usize
    requires { 0 < lines }
    ensures { (result ≡ name % lines) × (result < lines) }
{
    (name % (lines as u64)) as usize
}

// The line after the linked entry of that kind and name, if one is linked. A word of the links holds 0 for none.
fn linked_line(s: &[u64], kind: u64, name: u64) -> Option<usize>
    ensures { result ≡ some_line (linked s.now kind name) }
{
    let lines = s.len() / 4;
    if lines == 0 {
        return None;
    }
    let mut at = s[2 * lines + slot_of(name, lines)] as usize;
    for _ in 0..lines {
        if at == 0 || lines < at {
            return None;
        }
        let line = at - 1;
        if is_named(triple_at(s, line), kind, name) {
            return Some(at);
        }
        at = s[3 * lines + line] as usize;
    }
    None
}

// Links the entry at line `at`, unless one of its kind and name is linked.
#[tactic(auto, using(crate::proofs::RowLaws::row_counts))]
fn link_entry(d: &mut [u64], at: usize)
    requires { at < length (rows d.old) }
    ensures { d.new ≡ link_entry d.old at }
{
    let t = triple_at(d, at);
    if linked_line(d, t.kind, t.value).is_none() {
        let lines = d.len() / 4;
        let slot = slot_of(t.value, lines);
        d[3 * lines + at] = d[2 * lines + slot];
        d[2 * lines + slot] = (at + 1) as u64;
    }
}

// Links every entry, so that one is found by a look or two and not by going through them.
fn link_entries(d: &mut [u64])
    requires { EndsFrom (rows d.old) d.old 0 × Unlinked d.old }
    ensures { (rows d.new ≡ rows d.old) × Linked d.new × (d.new ≡ link_all d.old (declarations (rows d.old) 0 0)) }
{
    let mut at = 0;
    while let Some(entry) = entry_at(d, at) {
        link_entry(d, at);
        at = entry.end;
    }
}

// A line number for each name: the line after the last quantifier that bound it, 0 for none.
fn set_name(last: &mut [u16; TABLE_LENGTH], name: u64, line: u16)
    ensures { last.new ≡ set last.old name line }
{
    if name <= HIGHEST_NAME {
        last[name as usize] = line;
    }
}

// The names that the quantifiers at the front of a type bind; the type is the lines from `first` up to `end`.
fn mark_front(last: &mut [u16; TABLE_LENGTH], s: &[u64], first: usize, end: usize)
    requires { end < 65536 }
    ensures { last.new ≡ put_names last.old first (front_of (take (end - first) (drop first (rows s.now)))) }
{
    for i in first..end {
        let t = triple_at(s, i);
        if t.kind != 14 {
            return;
        }
        set_name(last, t.value, (i + 1) as u16);
    }
}

// Which quantifier at the front of a type that starts at line `first` binds a line of it, counted from 1; 0 for none.
fn binder_of(last: &[u16; TABLE_LENGTH], first: usize, t: Triple) -> usize
    ensures { (result ≡ binder_by last.now first t) × (result < 65536) }
{
    if t.kind == 11 && t.value <= HIGHEST_NAME {
        usize::from(last[t.value as usize]).saturating_sub(first)
    } else {
        0
    }
}

// Writes the binder of line i of such a type above the line's end.
#[tactic(auto, using(crate::proofs::RowLaws::row_counts))]
fn set_binder(d: &mut [u64], last: &[u16; TABLE_LENGTH], first: usize, i: usize)
    requires { i < length (rows d.old) }
    ensures { d.new ≡ set_binder d.old i (binder_by last.now first (get_or (rows d.old) i no_triple)) }
{
    let binder = binder_of(last, first, triple_at(d, i));
    d[2 * i + 1] = d[2 * i + 1] % 1099511627776 + 1099511627776 * (binder as u64);
}

// Those of all its lines, up to `end`.
fn set_binders(d: &mut [u64], last: &[u16; TABLE_LENGTH], first: usize, end: usize)
    requires { end ≤ length (rows d.old) }
    ensures { (xs : List ℕ) → TellsPlaces last.now first xs → d.new ≡ put_binders d.old first xs (take (end - first) (drop first (rows d.old))) }
{
    for i in first..end {
        set_binder(d, last, first, i);
    }
}

// An entry is a constructor, and its type begins with a quantifier.
fn is_quantified(s: &[u64], entry: Entry) -> bool
    ensures { result ≡ quantified (rows s.now) entry.head entry.line }
{
    entry.head.kind == 1 && triple_at(s, entry.line).kind == 14
}

// The binders of one entry's type. What older types bound stands in the table by lines before this one's, and needs no
// clearing.
fn bind_type(d: &mut [u64], last: &mut [u16; TABLE_LENGTH], entry: Entry)
    requires { TypeAsk d.old last.old entry.line entry.end }
    ensures { (d.new ≡ bind_type (rows d.old) d.old entry.head entry.line (entry.end - entry.line)) × (last.new ≡ mark_type (rows d.old) last.old entry.head entry.line (entry.end - entry.line)) }
{
    if is_quantified(d, entry) {
        mark_front(last, d, entry.line, entry.end);
        set_binders(d, last, entry.line, entry.end);
    }
}

// Those of every entry's.
fn bind_types(d: &mut [u64], last: &mut [u16; TABLE_LENGTH])
    requires { Bindable d.old × UpTo last.old 0 }
    ensures { (d.new ≡ bind_all (rows d.old) d.old (declarations (rows d.old) 0 0)) × (last.new ≡ mark_all (rows d.old) last.old (declarations (rows d.old) 0 0)) }
{
    let mut at = 0;
    while let Some(entry) = entry_at(d, at) {
        bind_type(d, last, entry);
        at = entry.end;
    }
}

fn any_quantified(s: &[u64]) -> bool
    requires { EndsFrom (rows s.now) s.now 0 }
    ensures { result ≡ any_quantified (rows s.now) (declarations (rows s.now) 0 0) }
{
    let mut entries = Entries { sheet: s, at: 0 };
    entries.any(|entry| is_quantified(s, entry))
}

// Writes the binders of the constructors' types. Most plans have none, and then no table is made.
fn bind_entries(d: &mut [u64])
    requires { Bindable d.old }
    ensures { (rows d.new ≡ rows d.old) × Ended d.new × (d.new ≡ bind_all (rows d.old) d.old (declarations (rows d.old) 0 0)) }
{
    if any_quantified(d) {
        let mut last = [0u16; TABLE_LENGTH];
        bind_types(d, &mut last);
    }
}

// The type of the entry of kind `kind`, 1 or 2, and that name.
pub fn find_entry(s: &[u64], kind: u64, name: u64) -> Option<Extent>
    requires { Ended s.now }
    ensures { result ≡ find_entry kind name (rows s.now) }
{
    let line = linked_line(s, kind, name)?;
    Some(Extent {
        line,
        count: part_line(s, line, 1) - line,
    })
}

// The line after the entries.
fn entries_end(s: &[u64]) -> usize
    requires { Ended s.now }
    ensures { result ≡ entries_end (rows s.now) }
{
    let entries = Entries { sheet: s, at: 0 };
    entries.last().map_or(0, |entry| entry.end)
}

// The lines at which the expected type and the term start.
#[derive(Clone, Copy)]
pub struct Places {
    pub expected: usize,
    pub term: usize,
}

pub fn find_places(s: &[u64]) -> Places
    requires { Ended s.now }
    ensures { result ≡ places_of (rows s.now) }
{
    let expected = entries_end(s) + 1;
    let term = part_line(s, expected, 1) + 1;
    Places { expected, term }
}

// A line of this kind may stand in what is plain.
fn is_plain_kind(kind: u64) -> bool
    ensures { result ≡ not (eqb kind 14 || eqb kind 25) }
{
    !matches!(kind, 14 | 25)
}

// No line from `first` up to `end` has kind 14 or 25.
fn plain_lines(s: &[u64], first: usize, end: usize) -> bool
    ensures { result ≡ is_plain (take (end - first) (drop first (rows s.now))) }
{
    (first..end).all(|i| is_plain_kind(triple_at(s, i).kind))
}

// A line of this kind uses the name on it: a variable, a constructor or a pattern's constructor.
fn is_use(kind: u64) -> bool
    ensures { result ≡ is_use kind }
{
    matches!(kind, 21 | 26 | 43)
}

// Marks the name that a line uses, if it uses one.
fn mark_name(used: &mut [u8; TABLE_LENGTH], t: Triple)
    ensures { used.new ≡ mark_name t used.old }
{
    if is_use(t.kind) && t.value <= HIGHEST_NAME {
        used[t.value as usize] = 1;
    }
}

// Marks those of the lines from `first` on.
fn mark_names(used: &mut [u8; TABLE_LENGTH], s: &[u64], first: usize)
    ensures { used.new ≡ marked (drop first (rows s.now)) used.old }
{
    for i in first..line_count(s) {
        mark_name(used, triple_at(s, i));
    }
}

fn is_marked(used: &[u8; TABLE_LENGTH], name: u64) -> bool
    ensures { result ≡ is_marked used.now name }
{
    name <= HIGHEST_NAME && used[name as usize] == 1
}

// An entry is plain, or its name is not marked.
fn plain_entry(used: &[u8; TABLE_LENGTH], s: &[u64], entry: Entry) -> bool
    ensures { result ≡ (not (is_marked used.now entry.head.value) || is_plain (take (entry.end - entry.line) (drop entry.line (rows s.now)))) }
{
    !is_marked(used, entry.head.value) || plain_lines(s, entry.line, entry.end)
}

// Every entry whose name is marked is plain.
fn plain_entries(used: &[u8; TABLE_LENGTH], s: &[u64]) -> bool
    requires { Ended s.now }
    ensures { (term : List Triple) → Tells used.now term → result ≡ plain_entries term (rows s.now) (declarations (rows s.now) 0 0) }
{
    let mut entries = Entries { sheet: s, at: 0 };
    entries.all(|entry| plain_entry(used, s, entry))
}

// The entries whose names the term, from line `term` on, uses are plain. The names are marked first, so that each line
// is read a fixed number of times.
fn plain_catalogue(s: &[u64], term: usize) -> bool
    requires { Ended s.now × SmallNames (drop term (rows s.now)) }
    ensures { result ≡ plain_entries (drop term (rows s.now)) (rows s.now) (declarations (rows s.now) 0 0) }
{
    let mut used = [0u8; TABLE_LENGTH];
    mark_names(&mut used, s, term);
    plain_entries(&used, s)
}

// The plain mark. Most plans have no line of kind 14 or 25 at all.
pub fn is_plain(s: &[u64]) -> bool
    requires { Ended s.now × SmallNames (drop (places_of (rows s.now)).term (rows s.now)) }
    ensures { result ≡ plain_plan (rows s.now) }
{
    let lines = line_count(s);
    if plain_lines(s, 0, lines) {
        return true;
    }
    let p = find_places(s);
    plain_lines(s, p.expected, part_line(s, p.expected, 1))
        && plain_lines(s, p.term, lines)
        && plain_catalogue(s, p.term)
}

// A line's number as a node: a Product's is its count.
pub fn node_number(t: Triple) -> u64
    ensures { result ≡ number (line_node t) }
{
    if t.kind == 16 { t.count } else { t.value }
}

// Copies a type of n lines from line `first` on, as nodes, to word `at` of dst.
#[tactic(auto, using(crate::proofs::RowLaws::row_counts))]
pub fn copy_type(dst: &mut [u32], at: usize, s: &[u64], first: usize, n: usize)
    requires { (at + 2 * n ≤ length dst.old) × (first + n ≤ length (rows s.now)) × All Narrow (take n (drop first (rows s.now))) }
    ensures { dst.new ≡ sets dst.old at (words (nodes_of (take n (drop first (rows s.now))))) }
{
    for i in 0..n {
        let t = triple_at(s, first + i);
        dst[at + 2 * i] = t.kind as u32;
        dst[at + 2 * i + 1] = node_number(t) as u32;
    }
}
