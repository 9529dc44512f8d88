// What is told of a sheet: the seven numbers of its plan, checked with the ceiling 10,000 and the limit 1,024, as 43
// bytes of text.
#![tactic(auto)]

ghost use Rattle.std.specs.Prelude.{◌≡◌, length};
ghost use Rattle.telling.specs.Told.{lent, SameLent, Told, ToldOf};

use checker::check_type;
use columns::{ANSWER_BYTES, write_answer};
use input::fill_from;
use sizes::{HIGHEST_CEILING, SHEET_BYTES, USUAL_LIMIT};
use std::io;
use std::io::Read;

// What a check is lent, and the text that it leaves.
#[derive(Drop)]
pub struct Desk<'a> {
    pub board: &'a mut [u32],
    pub book: &'a mut [u32],
    pub report: &'a mut [u32],
    pub text: [u8; ANSWER_BYTES],
}

impl<'a> Desk<'a> {
    pub fn tell(&mut self, sheet: &[u8])
        ensures told { Told sheet.now (lent self.old) self.new.text (lent self.new) }
        ensures same { SameLent self.old self.new }
    {
        let answer = check_type(
            sheet,
            HIGHEST_CEILING,
            USUAL_LIMIT,
            &mut *self.board,
            &mut *self.book,
            &mut *self.report,
        );
        let _bytes = write_answer(&mut self.text, answer);
    }

    // Of a sheet that is read into a buffer. One that fills a buffer longer than any sheet is told 3 as it stands.
    pub fn tell_from<R: Read>(&mut self, reader: &mut R, sheet: &mut [u8]) -> io::Result<usize>
        ensures bytes { length sheet.new ≡ length sheet.old }
        ensures told { ToldOf result sheet.new (lent self.old) self.old.text self.new.text (lent self.new) }
        ensures same { SameLent self.old self.new }
    {
        let n = fill_from(reader, sheet, 0)?;
        self.tell(&sheet[..n]);
        Ok(n)
    }

    // The same with a buffer one byte longer than any sheet, and written to standard output behind a label.
    pub fn tell_out<P: Print + Eprint, R: Read>(
        &mut self,
        rt: &P,
        reader: &mut R,
        label: &[u8],
        sheet: &mut [u8; SHEET_BYTES + 1],
    ) -> io::Result<usize>
        ensures bytes { length sheet.new ≡ length sheet.old }
        ensures told { ToldOf result sheet.new (lent self.old) self.old.text self.new.text (lent self.new) }
        ensures same { SameLent self.old self.new }
    {
        let n = self.tell_from(reader, sheet)?;
        write_out(rt, label, &self.text);
        Ok(n)
    }
}

fn write_out<P: Print + Eprint>(rt: &P, label: &[u8], text: &[u8; ANSWER_BYTES]) {
    let _label = rt.write_all(label);
    if rt.write_all(text).is_err() {
        let _told = rt.eprintln("plan_check: the answer was not written");
    }
}
