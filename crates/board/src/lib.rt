// The board (worklist.rs, `Worklist`): entries and their types as words of a lent buffer, newest last.
#![tactic(auto)]

ghost use Rattle.std.specs.Prelude.{◌≡◌, List, ◌+◌, ◌*◌, ◌≤◌, ◌<◌, leb, length};
ghost use Rattle.std.proofs.lemmas.List.Edits.{sets};
ghost use Rattle.sizes.specs.Sizes.{most_entries, most_nodes, board_size};
ghost use Rattle.nodes.specs.Nodes.{nodes_at};
ghost use Rattle.spelling.specs.declared.Triple.{Triple};
ghost use Rattle.judgment.specs.Board.{has_t_var, before as is_before};
ghost use Rattle.judgment.specs.Result.{board_words};
ghost use Rattle.board.specs.Board.{entries_of, Stacked, fitting, fitting_three, headed, laid, grown, LayAsk, PushAsk, top_of, var_place};

use core_types::is_node;
use nodes::{Place, clear_words, copy_nodes, wide};
use sizes::{BOARD_BASE, BOARD_SIZE, BOARD_STRIDE, MOST_ENTRIES, MOST_NODES};

// How many entries stand on the board, and how many nodes their types have.
#[derive(Clone, Copy)]
pub struct Board {
    pub entries: usize,
    pub nodes: usize,
}

impl Board {
    pub const ENTRIES: usize = MOST_ENTRIES;

    pub const NODES: usize = MOST_NODES;

    pub fn new() -> Board
        ensures { result ≡ record { entries = 0; nodes = 0 } }
    {
        Board {
            entries: 0,
            nodes: 0,
        }
    }

    // One more entry, of n nodes, passes neither limit.
    pub fn fits(self, n: usize) -> bool
        ensures { result ≡ fitting self n }
    {
        self.entries < Board::ENTRIES && self.has_room(n)
    }

    // Three more entries, of n nodes together, pass neither limit.
    pub fn fits_three(self, n: usize) -> bool
        ensures { result ≡ fitting_three self n }
    {
        self.entries < Board::ENTRIES - 2 && self.has_room(n)
    }

    // n more nodes do not pass their limit.
    fn has_room(self, n: usize) -> bool
        ensures { result ≡ leb (self.nodes + n) most_nodes }
    {
        n <= Board::NODES && self.nodes <= Board::NODES - n
    }
}

// The newest entry: what it is, the word at which its types stand one after the other, their nodes, and the board
// without it.
#[derive(Clone, Copy)]
pub struct Top {
    pub kind: u32,
    pub number: u32,
    pub at: usize,
    pub left: usize,
    pub right: usize,
    pub rest: Board,
}

// Counts an entry whose types, ln and rn nodes, stand already where those of the next entry do.
pub fn lay(board: &mut [u32], b: Board, kind: u32, number: u32, ln: usize, rn: usize) -> Board
    requires { LayAsk board.old b ln rn }
    ensures { (board.new ≡ headed board.old b kind number ln rn) × (result ≡ grown b (ln + rn)) }
{
    let slot = BOARD_STRIDE * b.entries;
    board[slot..slot + 4].copy_from_slice(&[kind, number, ln as u32, rn as u32]);
    Board {
        entries: b.entries + 1,
        nodes: b.nodes + (ln + rn),
    }
}

// Lays an entry on the board whose types are ln nodes at word la of l and rn nodes at word ra of r.
pub fn push(
    board: &mut [u32],
    b: Board,
    kind: u32,
    number: u32,
    l: &[u32],
    la: usize,
    ln: usize,
    r: &[u32],
    ra: usize,
    rn: usize,
) -> Board
    requires { PushAsk board.old b l.now la ln r.now ra rn }
    ensures { (board.new ≡ laid board.old b kind number (nodes_at l.now la ln) (nodes_at r.now ra rn)) × (result ≡ grown b (ln + rn)) }
{
    let lo = BOARD_BASE + 2 * b.nodes;
    let mid = lo + 2 * ln;
    let more = lay(board, b, kind, number, ln, rn);
    copy_nodes(board, lo, l, la, ln);
    copy_nodes(board, mid, r, ra, rn);
    more
}

// Takes the newest entry. Its words stay until the next push.
pub fn pop(board: &[u32], b: Board) -> Top
    requires { Stacked board.now b × (0 < b.entries) }
    ensures { result ≡ top_of board.now b }
{
    let i = b.entries - 1;
    let slot = BOARD_STRIDE * i;
    let left = wide(board[slot + 2]);
    let right = wide(board[slot + 3]);
    let n = b.nodes - (left + right);
    Top {
        kind: board[slot],
        number: board[slot + 1],
        at: BOARD_BASE + 2 * n,
        left,
        right,
        rest: Board {
            entries: i,
            nodes: n,
        },
    }
}

// Where the type of the newest Var of that name stands.
pub fn find_var(board: &[u32], b: Board, name: u32) -> Option<Place>
    requires { Stacked board.now b }
    ensures { result ≡ var_place name board.now b.entries }
{
    let mut start = BOARD_BASE + 2 * b.nodes;
    for i in (0..b.entries).rev() {
        let slot = BOARD_STRIDE * i;
        let count = wide(board[slot + 2]);
        start -= 2 * (count + wide(board[slot + 3]));
        if is_node(2, name, board[slot], board[slot + 1]) {
            return Some(Place { start, count });
        }
    }
    None
}

// A TVar of unknown k stands among the first n entries.
fn has_tvar(board: &[u32], n: usize, k: u32) -> bool
    requires { (n ≤ most_entries) × (board_size ≤ length board.now) }
    ensures { (ls : List Triple) → result ≡ has_t_var k (entries_of ls board.now n) }
{
    for i in (0..n).rev() {
        let slot = BOARD_STRIDE * i;
        if is_node(17, k, board[slot], board[slot + 1]) {
            return true;
        }
    }
    false
}

// The newest TVar of unknown x is older than the newest one of unknown y.
pub fn before(board: &[u32], b: Board, x: u32, y: u32) -> bool
    requires { Stacked board.now b }
    ensures { (ls : List Triple) → result ≡ is_before x y (entries_of ls board.now b.entries) }
{
    for i in (0..b.entries).rev() {
        let slot = BOARD_STRIDE * i;
        let kind = board[slot];
        let number = board[slot + 1];
        if is_node(17, x, kind, number) {
            return false;
        }
        if is_node(17, y, kind, number) {
            return has_tvar(board, i, x);
        }
    }
    false
}

// Puts 0 into every word of the board.
pub fn clear_board(board: &mut [u32])
    requires { board_size ≤ length board.old }
    ensures { board.new ≡ sets board.old 0 board_words }
{
    clear_words(board, 0, BOARD_SIZE);
}
