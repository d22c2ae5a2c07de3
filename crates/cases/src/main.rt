// A program for tests: many requests on standard input, the reply to each on standard output with an empty line after it. Requests are
// separated by a byte 0, and each is a request line and then a sheet's bytes, or a survey's rows. A request that is not served is a `bad request`.
#![tactic(auto)]

ghost use Rattle.std.specs.Prelude.{◌≤◌};
ghost use Rattle.lines.specs.Steps.{max_room};

use arrayvec::ArrayVec;
use lines::{Asked, Call};
use plans::{Plan, Request};
use std::io::{self, Read};
use street::{Lists, Refusal, Street};
use survey::Row;

// The most bytes that one run takes.
const MAX_INPUT: usize = 65_536;

// As many are read, so that too many are seen to be.
const MAX_READ: usize = MAX_INPUT + 1;

// The reply to a request that is not served.
const BAD_REQUEST: &[u8] = b"bad request\n";

// Tells on standard error, where the program says nothing else, that a part of a reply was lost.
fn noted(rt: &impl Eprint, written: io::Result<()>) {
    if written.is_err() {
        let _ = eprintln!(rt; "cases: a reply could not be written");
    }
}

// Writes bytes of a reply.
fn put(rt: &(impl Print + Eprint), bytes: &[u8]) {
    noted(rt, rt.write_all(bytes));
}

// Writes an answer's text, with the offsets or the seconds that it left.
fn show(rt: &(impl Print + Eprint), answer: Result<Plan, Refusal>, list: &[u32]) {
    put(rt, printed::answer_text(answer, list).text());
}

// Writes two numbers with a space between them and an end behind.
fn show_pair(rt: &(impl Print + Eprint), first: u32, second: u32, end: &[u8]) {
    noted(rt, rt.print(first));
    put(rt, b" ");
    noted(rt, rt.print(second));
    put(rt, end);
}

// The measure of some offsets on a street.
fn measured(rt: &(impl Print + Eprint), street: &Lists, offsets: &[u32]) -> Result<(), Refusal> {
    let found = bands::measure(street, offsets)?;
    show_pair(rt, found.outbound.width, found.outbound.start, b" ");
    show_pair(rt, found.inbound.width, found.inbound.start, b"\n");
    Ok(())
}

// The plan that a call makes on a street, over a lent list of some room.
fn planned<F: FnOnce(&Lists, &mut [u32]) -> Result<Plan, Refusal>>(
    rt: &(impl Print + Eprint),
    street: &Lists,
    room: usize,
    call: F,
) -> Result<Plan, Refusal>
    requires { F.IsAlwaysCallable call }
{
    let mut list = [0; Street::MAX_SIGNALS];
    let plan = call(street, &mut list[..printed::lent(room)])?;
    show(rt, Ok(plan), &list[..printed::lent(street.reds.len())]);
    Ok(plan)
}

// A plan in halves, and where it was asked for by volumes a line behind it: the largest volumes that its widths take.
fn in_halves(
    rt: &(impl Print + Eprint),
    street: &Lists,
    request: Request,
    room: usize,
) -> Result<(), Refusal> {
    let plan = planned(rt, street, room, |street, list| {
        plans::plan_for(request, street, list)
    })?;
    if let Request::Volumes(_, _, headway) = request {
        let carried = plans::with_volumes(Ok(plan), street.cycle, headway)?;
        show_pair(rt, carried.outbound, carried.inbound, b"\n");
    }
    Ok(())
}

// A plan in whole seconds.
fn in_seconds(
    rt: &(impl Print + Eprint),
    street: &Lists,
    request: Request,
    room: usize,
) -> Result<(), Refusal> {
    planned(rt, street, room, |street, list| {
        cabinets::plan_for(request, street, list)
    })?;
    Ok(())
}

// A sheet's own bytes, written anew from its numbers into a list of some room.
fn rewritten(rt: &(impl Print + Eprint), street: &Lists, room: usize) -> Result<(), Refusal>
    requires { room ≤ max_room }
{
    let mut bytes = [0; Asked::MAX_BYTES];
    let count = writer::write(street, &mut bytes[..room])?;
    put(rt, &bytes[..count]);
    Ok(())
}

// How many rows stand in some bytes, or none where a line is no row's. They are left in the list, and those past its end are only counted.
fn rows_in(bytes: &[u8], list: &mut [Row]) -> Option<usize> {
    let mut count = 0;
    let mut rest = bytes;
    while !rest.is_empty() {
        let (line, below) = lines::first_row(rest)?;
        if let Some(row) = list.get_mut(count) {
            *row = Row::of_bits(
                line.kind as u32,
                line.position,
                line.outbound,
                line.inbound,
                line.red,
            );
        }
        count += 1;
        rest = below;
    }
    Some(count)
}

// The equal plan of some rows. One row more is kept than a street can have, so that too many are seen to be.
fn surveyed(
    rt: &(impl Print + Eprint),
    bytes: &[u8],
    cycle: u32,
    room: usize,
) -> Result<(), Refusal> {
    let mut rows = [Row::of_bits(0, 0, 0, 0, 0); Street::MAX_SIGNALS + 1];
    let Some(count) = rows_in(bytes, &mut rows) else {
        put(rt, BAD_REQUEST);
        return Ok(());
    };
    let mut offsets = [0; Street::MAX_SIGNALS];
    let kept = count.min(rows.len());
    let list = &mut offsets[..printed::lent(room)];
    let plan = survey::plan_for(Request::Equal, cycle, &rows[..kept], list)?;
    show(rt, Ok(plan), &offsets[..printed::lent(count)]);
    Ok(())
}

// Writes what is asked for: the plan of rows, or of a sheet that the reader passes a plan in halves or in seconds, a measure or the sheet's
// own bytes.
fn served(rt: &(impl Print + Eprint), asked: Asked<'_>) -> Result<(), Refusal> {
    let Asked { call, room, below } = asked;
    match call {
        Call::Plan(request) => in_halves(rt, &sheet::read(below)?.lists(), request, room),
        Call::Seconds(request) => in_seconds(rt, &sheet::read(below)?.lists(), request, room),
        Call::Measure(offsets) => measured(rt, &sheet::read(below)?.lists(), offsets.as_slice()),
        Call::Write => rewritten(rt, &sheet::read(below)?.lists(), room),
        Call::Survey(cycle) => surveyed(rt, below, cycle, room),
    }
}

// The reply to a case, with its empty line.
fn reply(rt: &(impl Print + Eprint), case: &[u8]) {
    match lines::request(case) {
        Some(asked) => {
            if let Err(f) = served(rt, asked) {
                show(rt, Err(f), &[]);
            }
        }
        None => put(rt, BAD_REQUEST),
    }
    put(rt, b"\n");
}

// The reply to each case, which ends at the next byte 0, or with the input.
fn run(rt: &(impl Print + Eprint), input: &[u8]) {
    for case in input.split_inclusive(|byte| *byte == 0) {
        reply(rt, case.strip_suffix(&[0]).unwrap_or(case));
    }
}

// A read that fails counts as the end of the input.
fn main(rt: HostRuntime) {
    let mut input = ArrayVec::<u8, MAX_READ>::new();
    let _ = io::copy(&mut rt.stdin().take(MAX_READ as u64), &mut input);
    if input.is_full() {
        put(&rt, b"too long\n");
        return;
    }
    run(&rt, input.as_slice());
}
