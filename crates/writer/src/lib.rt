// The sheet writer: from a street's numbers to the bytes of its sheet, in a list that the caller lends (02, 2026-01). The sheet is
// made in a buffer of its own and handed over once every check has passed, so that a refusal has written nothing.
#![tactic(auto)]

ghost use Rattle.std.specs.Prelude.{◌≡◌, ◌+◌, ◌≤◌, length, Ok};
ghost use Rattle.road.specs.Limits.{max_signals};
ghost use Rattle.street.specs.Lists.{signals};
ghost use Rattle.street.specs.Checks.{plan_checks, room_check, written};
ghost use Rattle.street.specs.Verdicts.{answered};
ghost use Rattle.decimal.specs.Steps.{Writes};
ghost use Rattle.sheet.specs.Form.{pair_lines, text};
ghost use Rattle.writer.specs.Writing.{WritesSheet};
ghost use Rattle.writer.specs.RoundTrips.{max_sheet};
ghost use Rattle.writer.specs.Steps.{section_text};

use decimal::{LINE_END, SPACE, copy, write_ended};
use street::{Lists, Refusal, checks};

// Room for the sheet of every street that passes the checks, of which the longest has 32 signals and the most digits that the limits
// allow (proofs/Sizes.antt).
pub const MAX_BYTES: usize = 833;

// The limit of the code is that of the definition. The body is empty: the contract is all there is to this.
fn limits()
    ensures { MAX_BYTES ≡ max_sheet }
{}

// A line for each pair of two columns, whether of signals or of links, from a place on.
fn pair_lines(bytes: &mut [u8], at: usize, left: &[u32], right: &[u32]) -> usize
    requires { at + length (pair_lines left.now right.now) ≤ length bytes.old }
    ensures { Writes at (pair_lines left.now right.now) bytes.old bytes.new result }
{
    let mut next = at;
    for (left, right) in left.iter().zip(right) {
        let second = write_ended(bytes, next, *left, SPACE);
        next = write_ended(bytes, second, *right, LINE_END);
    }
    next
}

// A section of two columns: its count, and its lines.
fn section(bytes: &mut [u8], at: usize, left: &[u32], right: &[u32]) -> usize
    requires { (at + length (section_text left.now right.now) ≤ length bytes.old) × (length left.now ≤ max_signals) }
    ensures { Writes at (section_text left.now right.now) bytes.old bytes.new result }
{
    let lines = write_ended(bytes, at, left.len() as u32, LINE_END);
    pair_lines(bytes, lines, left, right)
}

// The three sections of a street that passed, from the list's start. A signal's line has its distance before its red, a link's its
// outbound speed before its inbound one.
fn sections(bytes: &mut [u8], street: &Lists) -> usize
    requires { (plan_checks street.now (signals street.now) ≡ Ok tt) × (max_sheet ≤ length bytes.old) }
    ensures { Writes 0 (text street.now) bytes.old bytes.new result }
{
    let first = write_ended(bytes, 0, 1, LINE_END);
    let signals = write_ended(bytes, first, street.cycle, LINE_END);
    let links = section(bytes, signals, street.distances, street.reds);
    section(bytes, links, street.outbound, street.inbound)
}

// Hands a sheet over, where the lent list has room for it.
fn handed(sheet: &[u8], bytes: &mut [u8]) -> Result<usize, Refusal>
    ensures reply { result ≡ answered (room_check (length sheet.now) (length bytes.old)) (length sheet.now) }
    ensures after { bytes.new ≡ written (room_check (length sheet.now) (length bytes.old)) sheet.now bytes.old }
{
    checks::room(sheet.len(), bytes.len())?;
    Ok(copy(sheet, bytes))
}

// The library's call: the sheet of a street in the first bytes of the lent list, and how many it has; or the first fault of the checks,
// which leaves the list as it was. With nothing else lent, room for the street's own signals is no question.
pub fn write(street: &Lists, bytes: &mut [u8]) -> Result<usize, Refusal>
    ensures { WritesSheet street.now bytes.old bytes.new result }
{
    checks::judged(street, street.reds.len())?;
    let mut sheet = [0; MAX_BYTES];
    let count = sections(&mut sheet, street);
    handed(&sheet[..count], bytes)
}
