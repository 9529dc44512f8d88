// Patterns, line by line (worklist.rs: `check_pattern`). Types are references; nodes are made only for a Sub.
#![tactic(auto)]

ghost use Rattle.std.specs.Prelude.{◌≡◌, List, ℕ, ◌+◌, ◌*◌, ◌≤◌, ◌<◌, length, get_or};
ghost use Rattle.sizes.specs.Sizes.{most_nodes};
ghost use Rattle.spelling.specs.declared.Triple.{Triple};
ghost use Rattle.sheet.specs.Plan.{no_triple, find_entry};
ghost use Rattle.sheet.specs.Rows.{rows, Ended};
ghost use Rattle.references.specs.References.{type_of, instance_out};
ghost use Rattle.operations.specs.State.{Bookable};
ghost use Rattle.patterns.specs.Turns.{Ready};
ghost use Rattle.patterns.specs.Readings.{Arity, PartsAsk, Parting, Adds, NameAsk, Naming, LineAsk, Lining, CheckAsk, Checking};
ghost use Rattle.patterns.specs.Rooms.{rooms, arity_run, parts_answer, result_out, frame_words, frame_depth, constructor_rooms, line_rooms, pattern_rooms, Leaves};

use constructors::{Opened, apply_type_substitutions, instantiate_constructor_type};
use judgment::TypeError;
use nodes::wide;
use operations::{Run, is_going, push_sub, refuse};
use references::{Ending, TypeRef, instance, signature};
use sheet::{Extent, find_entry, triple_at};
use spelling::Triple;
use tables::{Upcoming, insert, next, put};

// Refuses, unless the counts agree.
fn check_arity(c: Run, arity: usize, count: usize) -> Run
    requires { (arity ≤ most_nodes) × (count < 131072) }
    ensures { ((ls : List Triple) (b : List ℕ) → Ready b c → Arity ls b c arity count result) × (result ≡ arity_run c arity count) }
{
    if count == arity {
        c
    } else {
        refuse(c, TypeError::ArityMismatch(arity as u32, count as u32))
    }
}

// The run, how many nodes the constructor's opened type has, and how many parameters.
#[derive(Clone, Copy)]
pub struct Parts {
    pub run: Run,
    pub nodes: usize,
    pub arity: usize,
}

// A pattern of the constructor whose type has n lines from line `first` on: its result must be below `want`, and then
// the counts must agree. l and r are scratch.
fn pattern_parts(
    board: &mut [u32],
    c: Run,
    s: &[u64],
    first: usize,
    n: usize,
    count: usize,
    want: TypeRef,
    l: &mut [u32],
    r: &mut [u32],
) -> Parts
    requires { PartsAsk board.old c (rows s.now) first n count want l.old r.old × Ended s.now }
    ensures { Parting board.old c (rows s.now) first n count (type_of (rows s.now) want) board.new result × (result ≡ parts_answer (rows s.now) first n count want c) × (l.new ≡ result_out (rows s.now) first n c.counters.fresh l.old) × (r.new ≡ instance_out (rows s.now) want r.old) }
{
    instance(r, s, want);
    let Opened { run: opened, names } = instantiate_constructor_type(board, c, s, first, n);
    let nodes = n - names;
    let Ending { arity, start } = signature(s, first + names, nodes);
    let ln = nodes - start;
    apply_type_substitutions(l, s, first + (names + start), ln, c.counters.fresh);
    let pushed = push_sub(board, opened, l, 0, ln, r, 0, want.count);
    let run = check_arity(pushed, arity, count);
    Parts { run, nodes, arity }
}

// A frame for the parameters of r, if it has any: the answer is how many frames there are then.
fn add_frame(w: &mut [usize], n: usize, r: TypeRef, arity: usize) -> usize
    requires { 6 * n + 6 ≤ length w.old }
    ensures { Adds w.old n r arity w.new result × (w.new ≡ frame_words w.old n r arity) × (result ≡ frame_depth n arity) }
{
    if 0 < arity {
        put(w, n, 0, r);
        n + 1
    } else {
        n
    }
}

#[derive(Clone, Copy)]
pub struct Named {
    pub run: Run,
    pub depth: usize,
}

// A constructor pattern: the name is looked up, and its parameters are to come.
fn constructor_line(
    board: &mut [u32],
    c: Run,
    s: &[u64],
    name: u64,
    count: u64,
    want: TypeRef,
    w: &mut [usize],
    n: usize,
    l: &mut [u32],
    r: &mut [u32],
) -> Named
    requires { NameAsk board.old c (rows s.now) name count want w.old n l.old r.old × Ended s.now }
    ensures { Naming board.old c (rows s.now) name count (type_of (rows s.now) want) w.old n board.new w.new result × ((v : List ℕ) (j : ℕ) → rooms result.run w.new result.depth v j l.new r.new ≡ constructor_rooms (rows s.now) name count want (rooms c w.old n v j l.old r.old) (find_entry 1 name (rows s.now))) }
{
    let Some(Extent { line, count: lines }) = find_entry(s, 1, name) else {
        return Named {
            run: refuse(c, TypeError::UnboundDataConstructor(name as u32)),
            depth: n,
        };
    };
    let base = wide(c.counters.fresh);
    let Parts { run, nodes, arity } = pattern_parts(
        board,
        c,
        s,
        line,
        lines,
        count as usize,
        want,
        l,
        r,
    );
    let body = TypeRef {
        first: line,
        lines,
        at: lines - nodes,
        count: nodes,
        base,
    };
    let depth = add_frame(w, n, body, arity);
    Named { run, depth }
}

// The run, how many frames are left, and how many names are bound.
#[derive(Clone, Copy)]
pub struct Lined {
    pub run: Run,
    pub depth: usize,
    pub bound: usize,
}

// The line p of a pattern, against the n frames in w, with the j bindings in v.
fn pattern_line(
    board: &mut [u32],
    c: Run,
    s: &[u64],
    p: usize,
    w: &mut [usize],
    n: usize,
    v: &mut [usize],
    j: usize,
    l: &mut [u32],
    r: &mut [u32],
) -> Lined
    requires { LineAsk board.old c (rows s.now) p w.old n v.old j l.old r.old × Ended s.now }
    ensures { Lining board.old c (rows s.now) p w.old n v.old j board.new w.new v.new result × (rooms result.run w.new result.depth v.new result.bound l.new r.new ≡ line_rooms (rows s.now) (get_or (rows s.now) p no_triple) (rooms c w.old n v.old j l.old r.old)) }
{
    let Triple {
        kind,
        value,
        count,
        ..
    } = triple_at(s, p);
    let Upcoming { want, depth } = next(s, w, n);
    match kind {
        42 => Lined {
            run: c,
            depth,
            bound: insert(v, j, value as usize, want),
        },
        43 => {
            let Named { run, depth } = constructor_line(
                board, c, s, value, count, want, w, depth, l, r,
            );
            Lined {
                run,
                depth,
                bound: j,
            }
        }
        _ => Lined {
            run: c,
            depth,
            bound: j,
        },
    }
}

// The run, and how many rows of the table are bindings.
#[derive(Clone, Copy)]
pub struct Checked {
    pub run: Run,
    pub bound: usize,
}

// The `lines` lines of a pattern from line `first` on, against the unknown u. The bindings stand in v; w, l and r are
// scratch.
pub fn check_pattern(
    board: &mut [u32],
    c: Run,
    s: &[u64],
    first: usize,
    lines: usize,
    u: u32,
    w: &mut [usize],
    v: &mut [usize],
    l: &mut [u32],
    r: &mut [u32],
) -> Checked
    requires { CheckAsk board.old c (rows s.now) first lines u w.old v.old l.old r.old × Ended s.now × Bookable board.old c }
    ensures { Checking board.old c (rows s.now) first lines u board.new v.new result × Leaves (pattern_rooms (rows s.now) first lines u c w.old v.old l.old r.old) w.new v.new l.new r.new result }
{
    let base = wide(u);
    put(
        w,
        0,
        0,
        TypeRef {
            first: 0,
            lines: 0,
            at: 0,
            count: 1,
            base,
        },
    );
    let mut run = c;
    let mut n: usize = 1;
    let mut j: usize = 0;
    for i in 0..lines {
        if n == 0 || !is_going(run.halt) {
            break;
        }
        Lined {
            run,
            depth: n,
            bound: j,
        } = pattern_line(board, run, s, first + i, w, n, v, j, l, r);
    }
    Checked { run, bound: j }
}
