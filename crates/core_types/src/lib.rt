// Types on words: what the rules ask of them, and the two substitutions (worklist.rs).
#![tactic(auto)]

ghost use Rattle.std.specs.Prelude.{◌≡◌, ℕ, ◌+◌, ◌*◌, ◌-◌, ◌≤◌, ◌<◌, length, get_or};
ghost use Rattle.std.proofs.lemmas.List.Edits.{sets};
ghost use Rattle.sizes.specs.Sizes.{most_nodes};
ghost use Rattle.nodes.specs.Nodes.{node, node_parts};
ghost use Rattle.judgment.specs.Types.{is_node as node_is, first, occurs as occurs_in, is_monotype, substitute as substituted};
ghost use Rattle.judgment.specs.Levels.{is_above, none_above};
ghost use Rattle.nodes.specs.Nodes.{words, nodes_at};
ghost use Rattle.core_types.specs.Walk.{IsAnyNode, nodes_before, substituting};

use nodes::wide;

// A node is of this kind and number.
pub fn is_node(kind: u32, number: u32, k: u32, v: u32) -> bool
    ensures { result ≡ node_is kind number (node k v) }
{
    kind == k && number == v
}

// How many types follow a node.
pub fn node_parts(kind: u32, number: u32) -> u32
    ensures { result ≡ node_parts (node kind number) }
{
    match kind {
        13 | 15 => 2,
        14 => 1,
        16 => number,
        _ => 0,
    }
}

// One of the n nodes at word `at` of t is so.
#[tactic(auto, unfolding(crate::specs::Walk::IsAnyNode))]
fn any_node<F: Fn(u32, u32) -> bool>(t: &[u32], at: usize, n: usize, is_so: F) -> bool
    requires tells { F.IsAlwaysCallable is_so }
    requires within { at + 2 * n ≤ length t.now }
    ensures { IsAnyNode (F.post is_so) t.now at n result }
{
    for i in 0..n {
        let p = at + 2 * i;
        if is_so(t[p], t[p + 1]) {
            return true;
        }
    }
    false
}

// The unknown k occurs in the n nodes at word `at` of t.
pub fn occurs_check(t: &[u32], at: usize, n: usize, k: u32) -> bool
    requires { at + 2 * n ≤ length t.now }
    ensures { result ≡ occurs_in k (nodes_at t.now at n) }
{
    any_node(t, at, n, |kind, number| is_node(17, k, kind, number))
}

// No quantifier stands in the n nodes at word `at` of t.
pub fn is_monotype(t: &[u32], at: usize, n: usize) -> bool
    requires { at + 2 * n ≤ length t.now }
    ensures { result ≡ is_monotype (nodes_at t.now at n) }
{
    !any_node(t, at, n, |kind, _| kind == 14)
}

// A node is a universal numbered above m.
fn is_above(kind: u32, number: u32, m: u32) -> bool
    ensures { result ≡ is_above m (node kind number) }
{
    kind == 18 && m < number
}

// No universal numbered above m stands in the n nodes at word `at` of t.
pub fn none_above(t: &[u32], at: usize, n: usize, m: u32) -> bool
    requires { at + 2 * n ≤ length t.now }
    ensures { result ≡ none_above m (nodes_at t.now at n) }
{
    !any_node(t, at, n, |kind, number| is_above(kind, number, m))
}

// How many of the n nodes at word `at` of src the first type has.
pub fn first_part(src: &[u32], at: usize, n: usize) -> usize
    requires { (at + 2 * n ≤ length src.now) × (n ≤ most_nodes) }
    ensures { result ≡ length (first (nodes_at src.now at n)) }
{
    let mut pending: usize = 1;
    for i in 0..n {
        if pending == 0 {
            return i;
        }
        let p = at + 2 * i;
        pending = pending - 1 + wide(node_parts(src[p], src[p + 1]));
    }
    n
}

// How many of the n nodes at word `at` of t stand before the first of this number.
fn nodes_before(t: &[u32], at: usize, n: usize, number: u32) -> usize
    requires { at + 2 * n ≤ length t.now }
    ensures { result ≡ nodes_before number (nodes_at t.now at n) }
{
    for i in 0..n {
        if t[at + 2 * i + 1] == number {
            return i;
        }
    }
    n
}

// A substitution at a node that has the name: the answer is how many nodes are done, with the body that a Forall hides.
fn substitute_node(t: &mut [u32], p: usize, left: usize, kind: u32, number: u32) -> usize
    requires { (p + 2 * left ≤ length t.old) × (0 < left) × (left ≤ most_nodes) }
    ensures { (0 < result) × (result ≤ left) × ((name : ℕ) → get_or t.old (p + 1) 0 ≡ name → substituting name (node kind number) t.old p left 0 ≡ substituting name (node kind number) t.new (p + 2 * result) (left - result) 0) }
{
    match t[p] {
        11 => {
            t[p] = kind;
            t[p + 1] = number;
            1
        }
        14 => 1 + first_part(t, p + 2, left - 1),
        _ => 1,
    }
}

// Puts a node for each free variable `name` of the n nodes at word `at`, in place. It leaves the body of a Forall of
// that name alone.
pub fn substitute_type(t: &mut [u32], at: usize, n: usize, name: u32, kind: u32, number: u32)
    requires { (at + 2 * n ≤ length t.old) × (n ≤ most_nodes) }
    ensures { t.new ≡ sets t.old at (words (substituted name (node kind number) (nodes_at t.old at n))) }
{
    let mut i = nodes_before(t, at, n, name);
    while i < n {
        i += substitute_node(t, at + 2 * i, n - i, kind, number);
        i += nodes_before(t, at + 2 * i, n - i, name);
    }
}
