// Names, numbers and types as text, written into a buffer one after another.
#![tactic(auto)]

ghost use Rattle.std.specs.Prelude.{◌≡◌, ◌≤◌, length};
ghost use Rattle.wording.specs.Texts.{bytes};
ghost use Rattle.wording.specs.Spelt.{separator, weak, in_parentheses};

use columns::{digit_count, write_field};
use nodes::wide;
use spelling::Field;

// The kinds of nodes.
const VARIABLE: u32 = 11;

const CONSTRUCTOR: u32 = 12;

const ARROW: u32 = 13;

const FORALL: u32 = 14;

const APPLICATION: u32 = 15;

const PRODUCT: u32 = 16;

const UNKNOWN: u32 = 17;

const UNIVERSAL: u32 = 18;

// Where a type stands in another one.
#[derive(Clone, Copy)]
pub enum Place {
    // By itself, or the body of a Forall.
    Alone,
    // Before an arrow, or a Product's first part.
    Before,
    // After an arrow.
    Result,
    // Any other part of a Product.
    Part,
    // In a type application.
    Applied,
    Argument,
}

fn separator(p: Place) -> &'static [u8]
    ensures { result.now ≡ bytes (separator p) }
{
    match p {
        Place::Alone | Place::Before | Place::Applied => b"",
        Place::Result => " → ".as_bytes(),
        Place::Part => " × ".as_bytes(),
        Place::Argument => b" ",
    }
}

// An arrow or a quantifier.
fn is_weak(kind: u32) -> bool
    ensures { result ≡ weak kind }
{
    matches!(kind, ARROW | FORALL)
}

fn in_parentheses(kind: u32, p: Place) -> bool
    ensures { result ≡ in_parentheses kind p }
{
    match p {
        Place::Alone | Place::Result => false,
        Place::Before | Place::Part | Place::Applied => is_weak(kind),
        Place::Argument => is_weak(kind) || kind == APPLICATION,
    }
}

// A buffer, and where the next text goes. What would pass its end is left out.
#[derive(Drop)]
pub struct Text<'a> {
    pub out: &'a mut [u8],
    pub at: usize,
    ghost in_range: { at ≤ length out.now },
}

impl<'a> Text<'a> {
    ghost use Rattle.std.specs.Prelude.{◌≡◌, cond, [], ◌∷◌, ◌≤◌, ◌<◌, length};
    ghost use Rattle.wording.specs.Texts.{number_text, name_text};
    ghost use Rattle.wording.specs.Spelt.{quantifier, leaf, product, parts, bare, type, type_text, reported};
    ghost use Rattle.wording.specs.declared.Place.TheVariants.{Before};
    ghost use Rattle.wording.specs.Put.{Put, Reached};

    // At the front of a buffer.
    pub fn new(out: &'a mut [u8]) -> Text<'a>
        ensures same_reference { result.out.ghost_name ≡ out.entry.ghost_name }
        ensures front { (result.out.now ≡ out.old) × (result.at ≡ 0) }
    {
        Text { out, at: 0 }
    }

    pub fn put(&mut self, text: &[u8])
        ensures { Put self.old text.now self.new }
    {
        let n = text.len().min(self.out.len() - self.at);
        self.out[self.at..self.at + n].copy_from_slice(&text[..n]);
        self.at += n;
    }

    // One of two texts.
    pub fn put_either(&mut self, first: bool, one: &[u8], other: &[u8])
        ensures { Put self.old (cond first one.now other.now) self.new }
    {
        self.put(if first { one } else { other });
    }

    pub fn put_number(&mut self, n: u32)
        ensures { Put self.old (number_text n) self.new }
    {
        let mut room = [0u8; 10];
        let w = digit_count(n);
        write_field(&mut room, 0, w, Field::Number(false, n as u64));
        self.put(&room[..w]);
    }

    #[tactic(auto, unfolding(crate::specs::Texts::name_text))]
    pub fn put_name(&mut self, n: u32)
        ensures { Put self.old (name_text n) self.new }
    {
        match n {
            1 => self.put(b"Int"),
            2 => self.put(b"Bool"),
            3 => self.put(b"Unit"),
            4 => self.put(b"printInt"),
            _ => {
                self.put(b"n");
                self.put_number(n);
            }
        }
    }

    fn put_quantifier(&mut self, name: u32)
        ensures { Put self.old (quantifier name) self.new }
    {
        self.put("∀".as_bytes());
        self.put_name(name);
        self.put(b". ");
    }

    // A node without parts.
    #[tactic(auto, unfolding(crate::specs::Spelt::leaf))]
    fn put_leaf(&mut self, kind: u32, value: u32)
        ensures { Put self.old (leaf kind value) self.new }
    {
        match kind {
            VARIABLE | CONSTRUCTOR => self.put_name(value),
            UNKNOWN => {
                self.put(b"^");
                self.put_number(value);
            }
            UNIVERSAL => {
                self.put(b"!");
                self.put_number(value);
            }
            _ => {}
        }
    }

    // The type at a place that the first of the nodes begin, two words each. Answers the words after it.
    #[cycle(write_type)]
    fn write_type<'r>(&mut self, nodes: &'r [u32], p: Place) -> &'r [u32]
        ensures reached { Reached (type p ∷ []) self.old nodes.now self.new result.now }
        ensures on { 2 ≤ length nodes.now → length result.now < length nodes.now }
    {
        let [kind, value, rest @ ..] = nodes else {
            return nodes;
        };
        let parentheses = in_parentheses(*kind, p);
        self.put(separator(p));
        self.put_either(parentheses, b"(", b"");
        let after = self.write_node(rest, *kind, *value);
        self.put_either(parentheses, b")", b"");
        after
    }

    // A node without parentheses, with the types that follow it.
    #[cycle(write_type)]
    fn write_node<'r>(&mut self, nodes: &'r [u32], kind: u32, value: u32) -> &'r [u32]
        ensures { Reached (bare kind value) self.old nodes.now self.new result.now }
    {
        match kind {
            ARROW => self.write_pair(nodes, Place::Before, Place::Result),
            FORALL => {
                self.put_quantifier(value);
                self.write_type(nodes, Place::Alone)
            }
            APPLICATION => self.write_pair(nodes, Place::Applied, Place::Argument),
            PRODUCT => self.write_product(nodes, value),
            _ => {
                self.put_leaf(kind, value);
                nodes
            }
        }
    }

    #[cycle(write_type)]
    fn write_pair<'r>(&mut self, nodes: &'r [u32], p: Place, q: Place) -> &'r [u32]
        ensures { Reached (type p ∷ type q ∷ []) self.old nodes.now self.new result.now }
    {
        let rest = self.write_type(nodes, p);
        self.write_type(rest, q)
    }

    #[cycle(write_type)]
    fn write_product<'r>(&mut self, nodes: &'r [u32], count: u32) -> &'r [u32]
        ensures { Reached (product count) self.old nodes.now self.new result.now }
    {
        self.put(b"(");
        let rest = self.write_parts(nodes, count);
        self.put_either(count == 1, " ×".as_bytes(), b"");
        self.put(b")");
        rest
    }

    // As many parts as count says.
    #[cycle(write_type)]
    fn write_parts<'r>(&mut self, nodes: &'r [u32], count: u32) -> &'r [u32]
        ensures { Reached (parts Before count) self.old nodes.now self.new result.now }
    {
        let mut rest = nodes;
        for k in 0..count {
            if rest.len() < 2 {
                return rest;
            }
            let p = if k == 0 { Place::Before } else { Place::Part };
            rest = self.write_type(rest, p);
        }
        rest
    }

    // The type that n nodes of a report are, from node `from` on.
    pub fn put_type(&mut self, report: &[u32], from: u32, n: u32)
        ensures { Put self.old (type_text (reported report.now from n)) self.new }
    {
        let start = (2 * wide(from)).min(report.len());
        let end = (2 * (wide(from) + wide(n))).min(report.len());
        let _rest = self.write_type(&report[start..end], Place::Alone);
    }
}
