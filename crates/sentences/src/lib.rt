// A sentence or two for an answer: what it means, in words.
#![tactic(auto)]

ghost use Rattle.std.specs.Prelude.{cond, ◌++◌, eqb};
ghost use Rattle.wording.specs.Texts.{bytes, number_text, name_text, Wrote};
ghost use Rattle.wording.specs.Put.{Put};
ghost use Rattle.sentences.specs.Explained.{counts, not_function, subtyping, instantiation, of_call, of_limit, of_plan, explained};

use judgment::Answer;
use wording::Text;

// What is said where there are more things or fewer than there should be: before the number that should be there, and
// after it, of one or of many.
#[derive(Clone, Copy)]
struct Mismatch {
    before: &'static [u8],
    one: &'static [u8],
    many: &'static [u8],
}

const ARITY: Mismatch = Mismatch {
    before: b"The plan is refused: a pattern should have ",
    one: b" part and has ",
    many: b" parts and has ",
};

const INTRINSIC_ARITY: Mismatch = Mismatch {
    before: b"The plan is refused: printInt takes ",
    one: b" argument and has ",
    many: b" arguments and has ",
};

// A text, a name, a text.
fn put_named(text: &mut Text, before: &[u8], name: u32, after: &[u8])
    ensures { Put text.old (before.now ++ (name_text name ++ after.now)) text.new }
{
    text.put(before);
    text.put_name(name);
    text.put(after);
}

// A text, a number, a text.
fn put_numbered(text: &mut Text, before: &[u8], n: u32, after: &[u8])
    ensures { Put text.old (before.now ++ (number_text n ++ after.now)) text.new }
{
    text.put(before);
    text.put_number(n);
    text.put(after);
}

// A number, and what is said of one or of many.
fn put_counted(text: &mut Text, n: u32, one: &[u8], many: &[u8])
    ensures { Put text.old (number_text n ++ cond (eqb n 1) one.now many.now) text.new }
{
    text.put_number(n);
    text.put_either(n == 1, one, many);
}

// A run's end and its counts.
fn put_ended(text: &mut Text, before: &[u8], a: Answer)
    ensures { Put text.old (before.now ++ counts a.taken a.fresh) text.new }
{
    text.put(before);
    put_counted(
        text,
        a.taken,
        b" entry was taken and ",
        b" entries were taken and ",
    );
    put_counted(
        text,
        a.fresh,
        b" fresh number was given.\n",
        b" fresh numbers were given.\n",
    );
}

// How many should be there, and how many are.
fn put_mismatch(text: &mut Text, said: Mismatch, wanted: u32, had: u32)
    ensures { Put text.old (said.before.now ++ ((number_text wanted ++ cond (eqb wanted 1) said.one.now said.many.now) ++ (number_text had ++ bytes ".\n"))) text.new }
{
    text.put(said.before);
    put_counted(text, wanted, said.one, said.many);
    text.put_number(had);
    text.put(b".\n");
}

fn put_not_function(text: &mut Text, report: &[u32], n: u32)
    ensures { Put text.old (not_function report.now n) text.new }
{
    text.put(b"The plan is refused: a term is applied to an argument, but its type is ");
    text.put_type(report, 0, n);
    text.put(b", which is no function type.\n");
}

fn put_subtyping(text: &mut Text, report: &[u32], left: u32, right: u32)
    ensures { Put text.old (subtyping report.now left right) text.new }
{
    text.put(b"The plan is refused: the type ");
    text.put_type(report, 0, left);
    text.put(b" does not fit the type ");
    text.put_type(report, left, right);
    text.put(b".\n");
}

fn put_instantiation(text: &mut Text, report: &[u32], unknown: u32, n: u32)
    ensures { Put text.old (instantiation report.now unknown n) text.new }
{
    put_numbered(
        text,
        b"The plan is refused: the unknown ^",
        unknown,
        b" can't stand for the type ",
    );
    text.put_type(report, 0, n);
    text.put(b".\n");
}

fn put_call(text: &mut Text, number: u32)
    ensures { Put text.old (of_call number) text.new }
{
    match number {
        32 => text.put(
            b"The plan was not checked: the limit for a type written out is 0 or above 4,096.\n",
        ),
        _ => put_numbered(text, b"The result ", number, b" has no meaning here.\n"),
    }
}

#[tactic(auto, unfolding(crate::specs::Explained::of_limit))]
fn put_limit(text: &mut Text, a: Answer)
    ensures { Put text.old (of_limit a) text.new }
{
    match a.number {
        21 => put_ended(
            text,
            b"The plan is not decided: the ceiling was reached, and an entry remains. ",
            a,
        ),
        22 => put_ended(
            text,
            b"The plan is not decided: the board would pass 512 entries or 4,096 type nodes. ",
            a,
        ),
        23 => put_ended(
            text,
            b"The plan is not decided: a type written out would have more nodes than the limit. ",
            a,
        ),
        24 => put_ended(
            text,
            b"The plan is not decided: a 1,001st fresh number would be needed. ",
            a,
        ),
        25 => put_ended(
            text,
            b"The plan is not decided: the solutions would pass 4,096 nodes. ",
            a,
        ),
        39 => put_ended(
            text,
            b"The plan is refused by the strict call: a solution has a fresh universal that is out of its unknown's scope. ",
            a,
        ),
        _ => put_call(text, a.number),
    }
}

#[tactic(auto, unfolding(crate::specs::Explained::of_plan))]
fn put_plan(text: &mut Text, a: Answer, report: &[u32])
    ensures { Put text.old (of_plan a report.now) text.new }
{
    match a.number {
        11 => put_named(
            text,
            b"The plan is refused: the variable ",
            a.detail1,
            b" is bound nowhere.\n",
        ),
        12 => put_named(
            text,
            b"The plan is refused: the data constructor ",
            a.detail1,
            b" is not declared.\n",
        ),
        13 => put_not_function(text, report, a.detail1),
        14 => put_mismatch(text, ARITY, a.detail1, a.detail2),
        15 => put_subtyping(text, report, a.detail1, a.detail2),
        16 => text.put(
            b"The plan is refused: an unknown would have two solutions that can't be made equal.\n",
        ),
        17 => put_instantiation(text, report, a.detail1, a.detail2),
        18 => put_mismatch(text, INTRINSIC_ARITY, a.detail1, a.detail2),
        19 => put_named(
            text,
            b"The plan is refused: the intrinsic ",
            a.detail1,
            b" is not known.\n",
        ),
        _ => put_limit(text, a),
    }
}

#[tactic(auto, unfolding(crate::specs::Explained::explained))]
fn put_answer(text: &mut Text, a: Answer, report: &[u32])
    ensures { Put text.old (explained a report.now) text.new }
{
    match a.number {
        0 => put_ended(text, b"The plan is accepted: all its parts fit. ", a),
        1 => text.put(b"The plan was not checked: the ceiling is above 10,000.\n"),
        2 => text.put(b"The plan was not checked: a buffer is too short.\n"),
        3 => text.put(
            b"The sheet is refused: it is empty, has more than 2,000 lines or ends inside a line. A line is 29 bytes with its line feed.\n",
        ),
        4 => put_numbered(
            text,
            b"The sheet is refused at line ",
            a.line,
            b": a field is blank, misspelt or too large, or has a minus sign that is not allowed, or the line feed is missing.\n",
        ),
        5 => put_numbered(
            text,
            b"The sheet is refused at line ",
            a.line,
            b": the plan can't go on with this line, or the line is lacking.\n",
        ),
        _ => put_plan(text, a, report),
    }
}

// What an answer and its report mean, at the front of `out`. Answers how many bytes that is; what would pass the end is
// left out.
pub fn explain(out: &mut [u8], a: Answer, report: &[u32]) -> usize
    ensures { Wrote out.old 0 (explained a report.now) out.new result }
{
    let mut text = Text::new(out);
    put_answer(&mut text, a, report);
    text.at
}
