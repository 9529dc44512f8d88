// A data constructor's type, opened: a fresh unknown for each quantifier at its front (worklist.rs:
// `instantiate_constructor_type`), and the rule for a Constructor.
#![tactic(auto)]

ghost use Rattle.std.specs.Prelude.{◌≡◌, ℕ, ◌+◌, ◌*◌, ◌≤◌, ◌<◌, length, take, drop};
ghost use Rattle.std.proofs.lemmas.List.Edits.{sets};
ghost use Rattle.sizes.specs.Sizes.{most_numbers};
ghost use Rattle.nodes.specs.Nodes.{kind, number, words, nodes_at};
ghost use Rattle.sheet.specs.Plan.{nodes_of};
ghost use Rattle.sheet.specs.Rows.{rows, Bound};
ghost use Rattle.judgment.specs.Types.{front_names};
ghost use Rattle.judgment.specs.Rules.{Env, constructor};
ghost use Rattle.board.specs.Board.{Stacked};
ghost use Rattle.operations.specs.State.{Bookable, PerformsOnBoard};
ghost use Rattle.nodes.specs.Lists.{All};
ghost use Rattle.sheet.specs.Plan.{Narrow};
ghost use Rattle.constructors.specs.Opening.{Named, OpenAsk, opened_of, Opens, open_node, open_lines};

use operations::{Run, fresh_evar, is_going, push_sub, push_tvar};
use sheet::{binder_at, node_number, triple_at};
use spelling::Triple;

// Makes n unknowns, each with its TVar pushed.
fn open_names(board: &mut [u32], c: Run, n: usize) -> Run
    requires { Stacked board.old c.counters.board }
    ensures { Named board.old c n board.new result }
{
    let mut run = c;
    for _ in 0..n {
        if !is_going(run.halt) {
            return run;
        }
        let a = run.counters.fresh;
        let made = fresh_evar(run);
        run = push_tvar(board, made, 17, a);
    }
    run
}

// How many quantifiers stand at the front of the type of n lines from line `first` on.
fn front_count(s: &[u64], first: usize, n: usize) -> usize
    requires { first + n ≤ length (rows s.now) }
    ensures { result ≡ length (front_names (nodes_of (take n (drop first (rows s.now))))) }
{
    for i in 0..n {
        if triple_at(s, first + i).kind != 14 {
            return i;
        }
    }
    n
}

// The run, and how many quantifiers stand in front of the type that is left.
#[derive(Clone, Copy)]
pub struct Opened {
    pub run: Run,
    pub names: usize,
}

// Opens the quantifiers at the front of the type of n lines from line `first` on.
pub fn instantiate_constructor_type(
    board: &mut [u32],
    c: Run,
    s: &[u64],
    first: usize,
    n: usize,
) -> Opened
    requires { OpenAsk board.old c (rows s.now) first n }
    ensures { Opens board.old c (nodes_of (take n (drop first (rows s.now)))) board.new result }
{
    let names = front_count(s, first, n);
    let run = open_names(board, c, names);
    Opened { run, names }
}

// A node's two words.
#[derive(Clone, Copy)]
pub struct NodeWords {
    pub kind: u32,
    pub number: u32,
}

// A line as a node: the unknown of its binder, if one binds it.
fn open_node(t: Triple, binder: u32, base: u32) -> NodeWords
    requires { (t.kind < 1024) × (t.count < 131072) × Narrow t × (binder < 16777216) × (base ≤ most_numbers) }
    ensures { result ≡ record { kind = kind (open_node base binder t); number = number (open_node base binder t) } }
{
    if binder == 0 {
        NodeWords {
            kind: t.kind as u32,
            number: node_number(t) as u32,
        }
    } else {
        NodeWords {
            kind: 17,
            number: base + (binder - 1),
        }
    }
}

// Copies n lines of a constructor's type, from line `line` on, to the front of `out`: the unknowns from `base` on stand
// for the names that the quantifiers at the type's front bind.
pub fn apply_type_substitutions(out: &mut [u32], s: &[u64], line: usize, n: usize, base: u32)
    requires { (2 * n ≤ length out.old) × (base ≤ most_numbers) × (line + n ≤ length (rows s.now)) × All Narrow (take n (drop line (rows s.now))) }
    ensures { out.new ≡ sets out.old 0 (words (open_lines s.now base line n)) }
{
    for i in 0..n {
        let at = line + i;
        let q = open_node(triple_at(s, at), binder_at(s, at), base);
        out[2 * i] = q.kind;
        out[2 * i + 1] = q.number;
    }
}

// The rule for a Constructor whose type stands at those lines: opened, in `out`, it must be below t.
pub fn infer_constructor(
    board: &mut [u32],
    c: Run,
    s: &[u64],
    first: usize,
    n: usize,
    out: &mut [u32],
    t: &[u32],
    ta: usize,
    tn: usize,
) -> Run
    requires { OpenAsk board.old c (rows s.now) first n × Bound (rows s.now) s.now first n × (2 * n ≤ length out.old) × (ta + 2 * tn ≤ length t.now) × Bookable board.old c }
    ensures { ((E : Env) (x : ℕ) → PerformsOnBoard board.old c (λ ls. constructor E x (nodes_at t.now ta tn) (Some (nodes_of (take n (drop first (rows s.now)))))) board.new result) × (out.new ≡ sets out.old 0 (words (opened_of (nodes_of (take n (drop first (rows s.now)))) c.counters.fresh))) }
{
    let Opened { run, names } = instantiate_constructor_type(board, c, s, first, n);
    let left = n - names;
    apply_type_substitutions(out, s, first + names, left, c.counters.fresh);
    push_sub(board, run, out, 0, left, t, ta, tn)
}
