// The limits and the sizes of sheet and buffers; specs/Sizes.antt has definitions of the same names.

#![tactic(auto)]

// Lines of a sheet, and the bytes of one and of all.
pub const MOST_LINES: usize = 2000;

pub const LINE_LENGTH: usize = 29;

pub const SHEET_BYTES: usize = LINE_LENGTH * MOST_LINES;

// Words of what a line says, kind, value and count, and those of all lines.
pub const TRIPLE_WORDS: usize = 3;

pub const PLAN_WORDS: usize = TRIPLE_WORDS * MOST_LINES;

// Names are 1 to this.
pub const HIGHEST_NAME: u64 = 9999;

// The highest ceiling.
pub const HIGHEST_CEILING: u32 = 10000;

// Entries on the board.
pub const MOST_ENTRIES: usize = 512;

// Type nodes on the board, those of all solutions, and so those of one type.
pub const MOST_NODES: usize = 4096;

// Fresh numbers.
pub const MOST_NUMBERS: usize = 1000;

// Nodes of one written-out type: the limit that a caller may pick at most, and document 01's, which the programs pick.
pub const HIGHEST_LIMIT: usize = MOST_NODES;

pub const USUAL_LIMIT: u32 = 1024;

// Words of a type, two a node.
pub const TYPE_WORDS: usize = 2 * MOST_NODES;

// The board: so many words an entry, and the nodes from the base on.
pub const BOARD_STRIDE: usize = 8;

pub const BOARD_BASE: usize = BOARD_STRIDE * MOST_ENTRIES;

pub const BOARD_SIZE: usize = BOARD_BASE + TYPE_WORDS;

// The book: so many words a number, and the nodes from the base on.
pub const BOOK_STRIDE: usize = 3;

pub const BOOK_BASE: usize = BOOK_STRIDE * MOST_NUMBERS;

pub const BOOK_SIZE: usize = BOOK_BASE + TYPE_WORDS;

// The report: so many words a node of the limit, two written-out types of two words a node; and the programs' report.
pub const REPORT_STRIDE: usize = 4;

pub const USUAL_REPORT: usize = REPORT_STRIDE * (USUAL_LIMIT as usize);
