// Input into a buffer: bytes, a read that failed told apart from the end of the input, and the arguments of a program.
#![tactic(auto)]

ghost use Rattle.std.specs.Prelude.{◌≤◌, length};
ghost use Rattle.std.specs.Fn.{CalledAt};
ghost use Rattle.input.specs.Filled.{Filled};
ghost use Rattle.input.specs.Handed.{Handed};

use std::env::FillError;
use std::io::Read;
use std::rt::Env;
use std::{io, str};

// Bytes of the longest name of a file that is read.
const NAME_BYTES: usize = 4096;

// Reads into the bytes from `at` on, until the buffer is full, the input ends or a read fails. Answers where the bytes
// in the buffer end.
pub fn fill_from<R: Read>(reader: &mut R, buf: &mut [u8], at: usize) -> io::Result<usize>
    requires { at ≤ length buf.old }
    ensures { Filled at result buf.old buf.new }
{
    let mut end = at;
    while end < buf.len() {
        let n = reader.read(&mut buf[end..])?;
        if n == 0 {
            break;
        }
        end += n;
    }
    Ok(end)
}

// The same from standard input.
pub fn fill(rt: &HostRuntime, buf: &mut [u8], at: usize) -> io::Result<usize>
    requires { at ≤ length buf.old }
    ensures { Filled at result buf.old buf.new }
{
    fill_from(&mut rt.stdin(), buf, at)
}

// Hands each argument of the program to `each`, as the name of a file, and answers how many it handed. Of one that is
// no text, or too long, it says so on standard error.
pub fn each_file<P: Env + Eprint, F: FnMut(&str)>(rt: &P, program: &str, each: &mut F) -> usize
    requires { F.IsAlwaysCallable each.old }
    ensures handed { Handed (CalledAt F.FnMut) each.old each.new result }
    ensures callable { F.IsAlwaysCallable each.new }
{
    let mut buf = [0u8; NAME_BYTES];
    let mut names = 0;
    for at in 1..usize::MAX {
        match rt.arg(at, &mut buf) {
            Ok(bytes) => match str::from_utf8(&buf[..bytes]) {
                Ok(name) => {
                    each(name);
                    names += 1;
                }
                Err(_) => {
                    let _told = eprintln!(rt; "{program}: the name of a file is no text");
                }
            },
            Err(FillError::TooLong) => {
                let _told = eprintln!(rt; "{program}: the name of a file is too long");
            }
            Err(FillError::NotPresent) => break,
        }
    }
    names
}
