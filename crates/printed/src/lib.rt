// The printed plan: an answer's text as bytes (01, 'The printed plan'). Each step writes some bytes of it into a lent list, from a place
// on, and answers the next place.
#![tactic(auto)]

ghost use Rattle.std.specs.Prelude.{◌+◌, ◌≤◌, ◌≡◌, length, take};
ghost use Rattle.road.specs.Limits.{max_signals};
ghost use Rattle.sheet.specs.Reading.{lists_of};
ghost use Rattle.sheet.specs.Steps.Held.{Held};
ghost use Rattle.decimal.specs.Steps.{Writes};
ghost use Rattle.printed.specs.Text.{max_text, plan_line, offset_lines, refusal_line, text_of, printed_of, Prints};
ghost use Rattle.printed.specs.Way.{lent_of, plan_text, PrintsAnswer};

use decimal::{LINE_END, SPACE, copy, write_ended, write_signed};
use plans::{Plan, Request};
use sheet::Sheet;
use street::{Refusal, Street};

// The printed bytes and how many they are; the rest of `bytes` is 0.
#[derive(Clone, Copy)]
pub struct Printed {
    pub bytes: [u8; Printed::MAX_BYTES],
    pub count: usize,
}

impl Printed {
    // Room for every text: a plan's first line takes at most 106 bytes, each of its offsets 11, and a refusal 50 (proofs/Sizes.antt).
    pub const MAX_BYTES: usize = 512;

    // The bytes that were printed.
    pub fn text(&self) -> &[u8]
        requires { self.now.count ≤ length self.now.bytes }
        ensures { result.now ≡ take self.now.count self.now.bytes }
    {
        &self.bytes[..self.count]
    }
}

// The limit of the code is that of the definition. The body is empty: the contract is all there is to this.
fn limits()
    ensures { Printed.MAX_BYTES ≡ max_text }
{}

// A plan's first line.
fn plan_line(bytes: &mut [u8], at: usize, plan: Plan) -> usize
    requires { at + length (plan_line plan) ≤ length bytes.old }
    ensures { Writes at (plan_line plan) bytes.old bytes.new result }
{
    let c = write_ended(bytes, at, plan.reference, SPACE);
    let b = write_signed(bytes, c, plan.b, SPACE);
    let outbound = write_ended(bytes, b, plan.outbound, SPACE);
    let inbound = write_ended(bytes, outbound, plan.inbound, SPACE);
    write_ended(bytes, inbound, plan.rounded, LINE_END)
}

// A line for each offset.
fn offset_lines(bytes: &mut [u8], at: usize, offsets: &[u32]) -> usize
    requires { at + length (offset_lines offsets.now) ≤ length bytes.old }
    ensures { Writes at (offset_lines offsets.now) bytes.old bytes.new result }
{
    let mut next = at;
    for offset in offsets {
        next = write_ended(bytes, next, *offset, LINE_END);
    }
    next
}

// A refusal's line, from the list's start.
fn refusal_line(bytes: &mut [u8], refusal: Refusal) -> usize
    requires { length (refusal_line refusal) ≤ length bytes.old }
    ensures { Writes 0 (refusal_line refusal) bytes.old bytes.new result }
{
    let word = copy(b"refused ", bytes);
    let coded = write_ended(bytes, word, refusal.code.into(), SPACE);
    write_ended(bytes, coded, refusal.place, LINE_END)
}

// An answer's lines, from the list's start.
fn answer_lines(bytes: &mut [u8], answer: Result<Plan, Refusal>, offsets: &[u32]) -> usize
    requires { length (text_of answer offsets.now) ≤ length bytes.old }
    ensures { Writes 0 (text_of answer offsets.now) bytes.old bytes.new result }
{
    match answer {
        Ok(plan) => {
            let next = plan_line(bytes, 0, plan);
            offset_lines(bytes, next, offsets)
        }
        Err(refusal) => refusal_line(bytes, refusal),
    }
}

// How many entries a list of some room has here: 32 are enough for every street.
pub fn lent(room: usize) -> usize
    ensures { result ≡ lent_of room }
{
    room.min(Street::MAX_SIGNALS)
}

// The text of any call's answer with the offsets that it left, of which 32 at most are printed.
pub fn answer_text(answer: Result<Plan, Refusal>, offsets: &[u32]) -> Printed
    ensures { Prints (text_of answer (take max_signals offsets.now)) result }
{
    let mut bytes = [0; Printed::MAX_BYTES];
    let count = answer_lines(&mut bytes, answer, &offsets[..lent(offsets.len())]);
    Printed { bytes, count }
}

// A sheet's numbers, planned and printed.
fn planned(sheet: &Sheet, room: usize) -> Printed
    requires { Held sheet.now }
    ensures { Prints (plan_text (lists_of sheet.now) room) result }
{
    let mut offsets = [0; Street::MAX_SIGNALS];
    let answer = plans::plan_for(Request::Equal, &sheet.lists(), &mut offsets[..lent(room)]);
    answer_text(answer, &offsets[..sheet.signals])
}

// The whole way: from a sheet's bytes to the printed bytes of its equal plan, over a lent list of `room` entries that are 0.
pub fn equal_text(bytes: &[u8], room: usize) -> Printed
    ensures { PrintsAnswer bytes.now room result }
{
    match sheet::read(bytes) {
        Ok(sheet) => planned(&sheet, room),
        Err(refusal) => answer_text(Err(refusal), &[]),
    }
}
