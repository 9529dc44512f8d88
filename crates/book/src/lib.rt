// The solution book (worklist.rs, `solved_evars`): the solutions of unknowns as words of a lent buffer, and what
// follows them: writing out (`zonk`) and comparing.
#![tactic(auto)]

ghost use Rattle.std.specs.Prelude.{◌≡◌, ◌≢◌, [], ◌+◌, ◌*◌, ◌≤◌, ◌<◌, length};
ghost use Rattle.std.proofs.lemmas.List.Edits.{sets};
ghost use Rattle.sizes.specs.Sizes.{most_numbers, book_size};
ghost use Rattle.nodes.specs.Lists.{All};
ghost use Rattle.nodes.specs.Nodes.{nodes_at};
ghost use Rattle.judgment.specs.Solutions.{write_out};
ghost use Rattle.judgment.specs.Levels.{own_levels};
ghost use Rattle.judgment.specs.Result.{book_words};
ghost use Rattle.book.specs.Book.{level_of, levelled, lowered_node, lowered, Listed, levels_written, sols, fitting, given, grown, SolveAsk, place_of, WriteAsk, wrote, written_to};
ghost use Rattle.book.specs.Compared.{next, node_met, alike_at, skipped, first_met, compared, apart_at, Sides, MeetAsk, FirstAsk, NextAsk};

use core_types::{is_node, node_parts};
use nodes::{Place, clear_words, copy_nodes, wide};
use sizes::{BOOK_BASE, BOOK_SIZE, BOOK_STRIDE, MOST_NODES, MOST_NUMBERS};

// How many nodes the solutions have.
#[derive(Clone, Copy)]
pub struct Book {
    pub nodes: usize,
}

impl Book {
    pub const NUMBERS: usize = MOST_NUMBERS;

    pub const NODES: usize = MOST_NODES;

    pub fn new() -> Book
        ensures { result ≡ record { nodes = 0 } }
    {
        Book { nodes: 0 }
    }

    // A solution of n nodes does not pass the limit.
    pub fn fits(self, n: usize) -> bool
        ensures { result ≡ fitting self n }
    {
        n <= Book::NODES && self.nodes <= Book::NODES - n
    }
}

// What is still to be compared: the words at which the two sides go on, how many types from there, and how many nodes
// these may have when written out.
#[derive(Clone, Copy)]
pub struct Rest {
    pub left: usize,
    pub right: usize,
    pub parts: usize,
    pub budget: usize,
}

impl Rest {
    pub fn new(left: usize, right: usize, parts: usize, budget: usize) -> Rest
        ensures { result ≡ record { left = left; right = right; parts = parts; budget = budget } }
    {
        Rest {
            left,
            right,
            parts,
            budget,
        }
    }
}

// Why a comparison ends early: a node differs, or there are more nodes than the budget and none that differs.
#[derive(Clone, Copy)]
pub enum Unlike {
    Differ,
    Over,
}

// Gives unknown k the n nodes at word `from` of src.
pub fn solve(book: &mut [u32], b: Book, k: u32, src: &[u32], from: usize, n: usize) -> Book
    requires { SolveAsk book.old b k src.now from n }
    ensures { (book.new ≡ given book.old b k (nodes_at src.now from n)) × (result ≡ grown b n) }
{
    let at = BOOK_BASE + 2 * b.nodes;
    let pair = BOOK_STRIDE * wide(k);
    book[pair] = at as u32;
    book[pair + 1] = n as u32;
    copy_nodes(book, at, src, from, n);
    Book { nodes: b.nodes + n }
}

// The level of number k.
pub fn level(book: &[u32], k: u32) -> u32
    requires { (book_size ≤ length book.now) × (k < most_numbers) }
    ensures { result ≡ level_of book.now k }
{
    book[BOOK_STRIDE * wide(k) + 2].checked_sub(1).unwrap_or(k)
}

// Gives number k the level m.
pub fn set_level(book: &mut [u32], k: u32, m: u32)
    requires { (book_size ≤ length book.old) × (k < most_numbers) × (m < most_numbers) }
    ensures { book.new ≡ levelled book.old k m }
{
    book[BOOK_STRIDE * wide(k) + 2] = m + 1;
}

// The level m at most for a node, if it is an unknown.
fn lower_node(book: &mut [u32], m: u32, kind: u32, number: u32)
    requires { (book_size ≤ length book.old) × (m < most_numbers) × (kind ≡ 17 → number < most_numbers) }
    ensures { book.new ≡ lowered_node m kind number book.old }
{
    if kind == 17 && m < level(book, number) {
        set_level(book, number, m);
    }
}

// The level m at most for every unknown among the n nodes at word `from` of src.
pub fn lower(book: &mut [u32], m: u32, src: &[u32], from: usize, n: usize)
    requires { (book_size ≤ length book.old) × (m < most_numbers) × (from + 2 * n ≤ length src.now) × All Listed (nodes_at src.now from n) }
    ensures { book.new ≡ lowered m (nodes_at src.now from n) book.old }
{
    for i in 0..n {
        let at = from + 2 * i;
        lower_node(book, m, src[at], src[at + 1]);
    }
}

// Writes the levels of the numbers below n as a caller reads them.
pub fn write_levels(book: &mut [u32], n: u32)
    requires { (book_size ≤ length book.old) × (n ≤ most_numbers) }
    ensures { book.new ≡ levels_written book.old n }
{
    for k in 0..n {
        book[BOOK_STRIDE * wide(k) + 2] = level(book, k);
    }
}

// Where the solution of unknown k stands, if it has one. Whatever follows a chain goes on by this, its numbers in 16
// bits.
#[tactic(auto, unfolding(crate::specs::Book::place_of))]
fn link(book: &[u32], k: u16) -> Option<Place>
    requires { (book_size ≤ length book.now) × (k < most_numbers) }
    ensures { result ≡ place_of book.now 17 k }
{
    let pair = BOOK_STRIDE * usize::from(k);
    let start = wide(book[pair]);
    if start < BOOK_BASE {
        return None;
    }
    let count = wide(book[pair + 1]);
    Some(Place { start, count })
}

// Where the solution of a node stands, if it is a solved unknown.
#[tactic(auto, unfolding(crate::specs::Book::place_of))]
pub fn find(book: &[u32], kind: u32, number: u32) -> Option<Place>
    requires { book_size ≤ length book.now }
    ensures { result ≡ place_of book.now kind number }
{
    if kind != 17 || Book::NUMBERS <= wide(number) {
        return None;
    }
    link(book, number as u16)
}

// Writes out the `left` nodes at word `at` of src, from node n of out on and up to node `end`, following each solved
// unknown into its solution.
pub fn write_out(
    src: &[u32],
    at: usize,
    left: usize,
    book: &[u32],
    out: &mut [u32],
    n: usize,
    end: usize,
) -> Option<usize>
    requires { WriteAsk src.now at left book.now out.old n end }
    ensures { (result ≡ wrote (write_out (sols book.now) (nodes_at src.now at left)) n end) × (out.new ≡ written_to (write_out (sols book.now) (nodes_at src.now at left)) n end out.old) }
{
    let mut m = n;
    for i in 0..left {
        let p = at + 2 * i;
        let kind = src[p];
        let number = src[p + 1];
        match find(book, kind, number) {
            Some(q) => m = write_out(book, q.start, q.count, book, out, m, end)?,
            None => {
                if end <= m {
                    return None;
                }
                let two = 2 * m;
                out[two] = kind;
                out[two + 1] = number;
                m += 1;
            }
        }
    }
    Some(m)
}

// A node further on both sides.
fn next_node(l: &[u32], c: Rest) -> Rest
    requires { NextAsk l.now c }
    ensures { result ≡ next l.now c }
{
    let x = c.left;
    let more = wide(node_parts(l[x], l[x + 1]));
    Rest::new(x + 2, c.right + 2, c.parts - 1 + more, c.budget - 1)
}

// There are first nodes, within the budget; they are the same and no unknowns.
fn alike(l: &[u32], r: &[u32], c: Rest) -> bool
    requires { c.parts ≢ 0 → (c.left + 2 ≤ length l.now) × (c.right + 2 ≤ length r.now) }
    ensures { result ≡ alike_at l.now r.now c }
{
    let x = c.left;
    let y = c.right;
    c.parts != 0 && c.budget != 0 && l[x] != 17 && is_node(l[x], l[x + 1], r[y], r[y + 1])
}

// Goes past such nodes: a loop of its own, since most nodes of most types are no unknowns.
fn skip_same(l: &[u32], r: &[u32], c: Rest) -> Rest
    requires { Sides l.now r.now c }
    ensures { result ≡ skipped c.budget l.now r.now c }
{
    let mut d = c;
    while alike(l, r, d) {
        d = next_node(l, d);
    }
    d
}

// Compares the first nodes, neither of which is a solved unknown.
fn same_node(l: &[u32], r: &[u32], c: Rest) -> Result<Rest, Unlike>
    requires { FirstAsk l.now r.now c }
    ensures { result ≡ node_met l.now r.now c }
{
    let x = c.left;
    let y = c.right;
    if !is_node(l[x], l[x + 1], r[y], r[y + 1]) {
        Err(Unlike::Differ)
    } else if c.budget == 0 {
        Err(Unlike::Over)
    } else {
        Ok(next_node(l, c))
    }
}

// Compares the first nodes or, where one of them is a solved unknown, its solution with the type against it.
#[cycle(same_first_same_parts)]
fn same_first(l: &[u32], r: &[u32], book: &[u32], c: Rest) -> Result<Rest, Unlike>
    requires { MeetAsk l.now r.now book.now c × FirstAsk l.now r.now c }
    ensures { result ≡ first_met l.now r.now book.now c }
{
    let x = c.left;
    let y = c.right;
    let parts = c.parts - 1;
    if let Some(p) = find(book, l[x], l[x + 1]) {
        let of_left = Rest {
            left: p.start,
            parts: 1,
            ..c
        };
        let d = same_parts(book, r, book, of_left)?;
        return Ok(Rest {
            left: x + 2,
            parts,
            ..d
        });
    }
    if let Some(q) = find(book, r[y], r[y + 1]) {
        let of_right = Rest {
            right: q.start,
            parts: 1,
            ..c
        };
        let d = same_parts(l, book, book, of_right)?;
        return Ok(Rest {
            right: y + 2,
            parts,
            ..d
        });
    }
    same_node(l, r, c)
}

// Compares types of l with types of r as they are when written out, following each solved unknown into its solution.
#[cycle(same_first_same_parts)]
fn same_parts(l: &[u32], r: &[u32], book: &[u32], c: Rest) -> Result<Rest, Unlike>
    requires { MeetAsk l.now r.now book.now c }
    ensures { result ≡ compared l.now r.now book.now c }
{
    let mut d = skip_same(l, r, c);
    while 0 < d.parts {
        d = skip_same(l, r, same_first(l, r, book, d)?);
    }
    Ok(d)
}

// The first nodes tell two types apart: there are some, none is a solved unknown, and they are not the same.
fn apart(l: &[u32], r: &[u32], book: &[u32], c: Rest) -> bool
    requires { (c.parts ≢ 0 → (c.left + 2 ≤ length l.now) × (c.right + 2 ≤ length r.now)) × (book_size ≤ length book.now) }
    ensures { result ≡ apart_at l.now r.now book.now c }
{
    let p = c.left;
    let q = c.right;
    c.parts != 0
        && find(book, l[p], l[p + 1]).is_none()
        && find(book, r[q], r[q + 1]).is_none()
        && !is_node(l[p], l[p + 1], r[q], r[q + 1])
}

// The same comparison; most types differ in a node that no solution stands for, and need no call of a recursive
// function.
pub fn compare(l: &[u32], r: &[u32], book: &[u32], c: Rest) -> Result<Rest, Unlike>
    requires { MeetAsk l.now r.now book.now c }
    ensures { result ≡ compared l.now r.now book.now c }
{
    let d = skip_same(l, r, c);
    if apart(l, r, book, d) {
        return Err(Unlike::Differ);
    }
    same_parts(l, r, book, d)
}

// Empties the book.
pub fn clear_book(book: &mut [u32])
    requires { book_size ≤ length book.old }
    ensures { book.new ≡ sets book.old 0 (book_words [] own_levels 0) }
{
    clear_words(book, 0, BOOK_SIZE);
}
