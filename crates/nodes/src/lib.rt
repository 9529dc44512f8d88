// Types as nodes of two words: a kind, and a name, number or count (core.rs, `CoreType`).
#![tactic(auto)]

ghost use Rattle.std.specs.Prelude.{◌≡◌, ◌+◌, ◌*◌, ◌≤◌, length};
ghost use Rattle.std.proofs.lemmas.List.Edits.{sets};
ghost use Rattle.nodes.specs.Nodes.{words, nodes_at, zeros};

// Where the nodes of a type stand: the word at which they start, and how many they are.
#[derive(Clone, Copy)]
pub struct Place {
    pub start: usize,
    pub count: usize,
}

// Copies n nodes from word `from` of src to word `at` of dst.
pub fn copy_nodes(dst: &mut [u32], at: usize, src: &[u32], from: usize, n: usize)
    requires { (at + 2 * n ≤ length dst.old) × (from + 2 * n ≤ length src.now) }
    ensures { dst.new ≡ sets dst.old at (words (nodes_at src.now from n)) }
{
    for i in 0..n {
        let d = at + 2 * i;
        let s = from + 2 * i;
        dst[d] = src[s];
        dst[d + 1] = src[s + 1];
    }
}

// Moves the n nodes at word `from` to the front.
pub fn move_to_front(t: &mut [u32], from: usize, n: usize)
    requires { from + 2 * n ≤ length t.old }
    ensures { t.new ≡ sets t.old 0 (words (nodes_at t.old from n)) }
{
    for i in 0..n {
        let d = 2 * i;
        let s = from + d;
        t[d] = t[s];
        t[d + 1] = t[s + 1];
    }
}

// Copies the four nodes at word `from` to word `to`. All are read before one is written, so they are moved as wide words.
fn move_four(t: &mut [u32], to: usize, from: usize)
    requires { (from + 8 ≤ length t.old) × (to + 8 ≤ length t.old) }
    ensures { t.new ≡ sets t.old to (words (nodes_at t.old from 4)) }
{
    let k1 = t[from];
    let v1 = t[from + 1];
    let k2 = t[from + 2];
    let v2 = t[from + 3];
    let k3 = t[from + 4];
    let v3 = t[from + 5];
    let k4 = t[from + 6];
    let v4 = t[from + 7];
    t[to] = k1;
    t[to + 1] = v1;
    t[to + 2] = k2;
    t[to + 3] = v2;
    t[to + 4] = k3;
    t[to + 5] = v3;
    t[to + 6] = k4;
    t[to + 7] = v4;
}

// Moves the n nodes at word `from` up to word `to`, one by one, the last first.
fn move_each(t: &mut [u32], to: usize, from: usize, n: usize)
    requires { (from ≤ to) × (to + 2 * n ≤ length t.old) }
    ensures { t.new ≡ sets t.old to (words (nodes_at t.old from n)) }
{
    for i in (0..n).rev() {
        let s = from + 2 * i;
        let d = to + 2 * i;
        let kind = t[s];
        let number = t[s + 1];
        t[d] = kind;
        t[d + 1] = number;
    }
}

// The same by fours, as far as they go. Most types are short, and a call of memmove takes longer than such a loop.
pub fn move_up(t: &mut [u32], to: usize, from: usize, n: usize)
    requires { (from ≤ to) × (to + 2 * n ≤ length t.old) }
    ensures { t.new ≡ sets t.old to (words (nodes_at t.old from n)) }
{
    let mut left = n;
    while 4 <= left {
        left -= 4;
        move_four(t, to + 2 * left, from + 2 * left);
    }
    move_each(t, to, from, left);
}

// Puts 0 into n words from word `at` on.
pub fn clear_words(dst: &mut [u32], at: usize, n: usize)
    requires { at + n ≤ length dst.old }
    ensures { dst.new ≡ sets dst.old at (zeros n) }
{
    dst[at..at + n].fill(0);
}

// A word as a number of the machine's size. A read through it asks only for the index.
pub fn wide(x: u32) -> usize
    ensures { result ≡ x }
{
    x as usize
}
