// Tables of references to types: the stack of frames, and the bindings of a pattern.
#![tactic(auto)]

ghost use Rattle.std.specs.Prelude.{◌≡◌, List, ◌++◌, ◌+◌, ◌*◌, ◌-◌, ◌≤◌, ◌<◌, length, is_ok};
ghost use Rattle.std.proofs.lemmas.List.Edits.{sets};
ghost use Rattle.nodes.specs.Nodes.{Ty};
ghost use Rattle.spelling.specs.declared.Triple.{Triple};
ghost use Rattle.sheet.specs.Rows.{rows, Ended};
ghost use Rattle.judgment.specs.Rules.{insert as inserted};
ghost use Rattle.tables.specs.Rows.{name_at, ref_at, row, Frames, Taken, bindings_at, place_from, named, row_of, lifted, Inserts};

use references::{Split, TypeRef, split_frame};

// The reference of row i.
pub fn get(w: &[usize], i: usize) -> TypeRef
    requires { 6 * i + 6 ≤ length w.now }
    ensures { result ≡ ref_at w.now i }
{
    let p = 6 * i;
    TypeRef {
        first: w[p + 1],
        lines: w[p + 2],
        at: w[p + 3],
        count: w[p + 4],
        base: w[p + 5],
    }
}

// Row i becomes this name and reference.
pub fn put(w: &mut [usize], i: usize, name: usize, r: TypeRef)
    requires { 6 * i + 6 ≤ length w.old }
    ensures { w.new ≡ sets w.old (6 * i) (row name r) }
{
    let p = 6 * i;
    w[p] = name;
    w[p + 1] = r.first;
    w[p + 2] = r.lines;
    w[p + 3] = r.at;
    w[p + 4] = r.count;
    w[p + 5] = r.base;
}

// Looks for a name among n rows in the order of their names: the row of that name, or else the row where it belongs.
fn locate(w: &[usize], n: usize, name: usize) -> Result<usize, usize>
    requires { 6 * n ≤ length w.now }
    ensures within { row_of result ≤ n }
    ensures above { row_of result < n → name ≤ name_at w.now (row_of result) }
    ensures bindings { (ls : List Triple) (t : Ty) → inserted name t (bindings_at ls w.now 0 n) ≡ bindings_at ls w.now 0 (row_of result) ++ inserted name t (bindings_at ls w.now (row_of result) (n - row_of result)) }
    ensures place { row_of result ≡ place_from w.now name 0 n }
    ensures found { is_ok result ≡ named w.now (row_of result) n name }
{
    for j in 0..n {
        let x = w[6 * j];
        if name <= x {
            return if name == x { Ok(j) } else { Err(j) };
        }
    }
    Err(n)
}

// Moves the rows from j up to n one row up.
fn shift(w: &mut [usize], j: usize, n: usize)
    requires { (j ≤ n) × (6 * n + 6 ≤ length w.old) }
    ensures { w.new ≡ lifted w.old j n }
{
    for i in (j..n).rev() {
        let name = w[6 * i];
        let r = get(w, i);
        put(w, i + 1, name, r);
    }
}

// Binds a name among the n bindings: the answer is how many there are then.
pub fn insert(w: &mut [usize], n: usize, name: usize, r: TypeRef) -> usize
    requires { 6 * n + 6 ≤ length w.old }
    ensures { Inserts w.old n name r w.new result }
{
    match locate(w, n, name) {
        Ok(j) => {
            put(w, j, name, r);
            n
        }
        Err(j) => {
            shift(w, j, n);
            put(w, j, name, r);
            n + 1
        }
    }
}

// The type that the next pattern must have, and how many frames are left.
#[derive(Clone, Copy)]
pub struct Upcoming {
    pub want: TypeRef,
    pub depth: usize,
}

// Takes the first pending type off the stack of frames.
pub fn next(s: &[u64], w: &mut [usize], depth: usize) -> Upcoming
    requires { Frames (rows s.now) w.old depth × (0 < depth) × (6 * depth ≤ length w.old) × Ended s.now }
    ensures { Taken (rows s.now) w.old depth w.new result }
{
    let i = depth - 1;
    let top = get(w, i);
    if top.lines == 0 {
        return Upcoming {
            want: top,
            depth: i,
        };
    }
    let Split { count, more } = split_frame(s, top);
    let at = top.at + 1;
    let want = TypeRef { at, count, ..top };
    if !more {
        return Upcoming { want, depth: i };
    }
    let others = TypeRef {
        at: at + count,
        count: top.count - 1 - count,
        ..top
    };
    put(w, i, 0, others);
    Upcoming { want, depth }
}
