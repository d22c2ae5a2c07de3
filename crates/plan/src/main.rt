// The program: a street sheet on standard input, its equal plan on standard output. Everything that matters stands in `printed`; here
// the bytes only come in and go out. One byte more than a sheet may have is asked for, so that a sheet that is too long is seen to be.
#![tactic(auto)]

ghost use Rattle.road.specs.Limits.{max_signals};
ghost use Rattle.printed.specs.Way.{Answers};

use arrayvec::ArrayVec;
use sheet::Sheet;
use std::io::{self, Read};
use street::Street;

// The most bytes that are read.
const MAX_INPUT: usize = Sheet::MAX_BYTES + 1;

// Writes the text that answers a sheet. No contract can tell what is written; so that the text answers the bytes beside it is asked for
// here, at the one place where the program writes. A text that is lost, or a part of it, is told on standard error, where the program says
// nothing else; its exit status is 0 even then.
fn send(rt: &(impl Print + Eprint), sheet: &[u8], text: &[u8])
    requires { Answers sheet.now max_signals text.now }
{
    if rt.write_all(text).is_err() {
        let _ = eprintln!(rt; "plan: the answer could not be written");
    }
}

// A read that fails counts as the end of the input: what was read before it stands.
fn main(rt: HostRuntime) {
    let mut input = ArrayVec::<u8, MAX_INPUT>::new();
    let _ = io::copy(&mut rt.stdin().take(MAX_INPUT as u64), &mut input);
    let sheet = input.as_slice();
    let answer = printed::equal_text(sheet, Street::MAX_SIGNALS);
    send(&rt, sheet, answer.text());
}
