// Types by reference: a part of a constructor's type on the sheet, its quantifiers opened from a fresh number on.
#![tactic(auto)]

ghost use Rattle.std.specs.Prelude.{◌≡◌, ◌+◌, ◌*◌, ◌-◌, ◌≤◌, ◌<◌, length, take, drop};
ghost use Rattle.nodes.specs.Nodes.{nodes_at};
ghost use Rattle.nodes.specs.Parts.{Whole};
ghost use Rattle.nodes.specs.Lists.{All};
ghost use Rattle.kinds.specs.Kinds.{parts_of};
ghost use Rattle.sheet.specs.Plan.{line_node, nodes_of};
ghost use Rattle.sheet.specs.Rows.{rows, Ended};
ghost use Rattle.references.specs.Signatures.{arrow_head, result as result_part, ending_of};
ghost use Rattle.references.specs.References.{type_of, instance_out, TypeLine, Good, Frame, Halved};

use constructors::apply_type_substitutions;
use sheet::{part_line, triple_at};
use spelling::Triple;

// `count` nodes from node `at` on of the type of so many lines from line `first` on, the unknowns from `base` on put
// for its quantifiers. Of no lines: the unknown `base`.
#[derive(Clone, Copy)]
pub struct TypeRef {
    pub first: usize,
    pub lines: usize,
    pub at: usize,
    pub count: usize,
    pub base: usize,
}

fn is_arrow(t: Triple) -> bool
    ensures { result ≡ arrow_head (line_node t) }
{
    t.kind == 13 && t.value == 0
}

// How many Arrows stand at the front of a type, and at which of its nodes the result starts.
#[derive(Clone, Copy)]
pub struct Ending {
    pub arity: usize,
    pub start: usize,
}

// Counts the parameters of the type of n lines from line `first` on, and finds its result.
pub fn signature(s: &[u64], first: usize, n: usize) -> Ending
    requires { Ended s.now × (first + n ≤ length (rows s.now)) × All TypeLine (take n (drop first (rows s.now))) × Whole parts_of (take n (drop first (rows s.now))) 1 }
    ensures { (result.start ≤ n) × (nodes_of (take (n - result.start) (drop (first + result.start) (rows s.now))) ≡ result_part n (nodes_of (take n (drop first (rows s.now))))) × (result ≡ ending_of n (nodes_of (take n (drop first (rows s.now))))) }
{
    let mut arity = 0;
    let mut i = 0;
    while i < n && is_arrow(triple_at(s, first + i)) {
        i = part_line(s, first + i + 1, 1) - first;
        arity += 1;
    }
    Ending { arity, start: i }
}

// Writes the type that is meant to the front of `out`.
pub fn instance(out: &mut [u32], s: &[u64], r: TypeRef)
    requires { Good (rows s.now) r × Ended s.now × (2 * r.count ≤ length out.old) }
    ensures { (nodes_at out.new 0 r.count ≡ type_of (rows s.now) r) × (out.new ≡ instance_out (rows s.now) r out.old) }
{
    let base = r.base as u32;
    if r.lines == 0 {
        out[0] = 17;
        out[1] = base;
    } else {
        apply_type_substitutions(out, s, r.first + r.at, r.count, base);
    }
}

// How many nodes the first parameter has, and whether others follow it.
#[derive(Clone, Copy)]
pub struct Split {
    pub count: usize,
    pub more: bool,
}

// Takes apart the parameters that a reference stands for.
pub fn split_frame(s: &[u64], r: TypeRef) -> Split
    requires { Frame (rows s.now) r × (0 < r.lines) × Ended s.now }
    ensures { Halved (rows s.now) r result }
{
    let first = r.first + r.at + 1;
    let end = part_line(s, first, 1);
    Split {
        count: end - first,
        more: is_arrow(triple_at(s, end)),
    }
}
