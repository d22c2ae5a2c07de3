// The sheet reader: from a sheet's bytes to the numbers of a street, or the refusal that they earn (01, 'The street sheet').
// A number is read up to the byte that ends it, a section is its count and its lines, and the first fault decides.
#![tactic(auto)]

ghost use Rattle.std.specs.Prelude.{◌≡◌, ◌≤◌, ◌⊎◌, IfSome, MatchOption, MatchResult, Ok, Err, option_map};
ghost use Rattle.road.specs.Limits.{max_signals};
ghost use Rattle.road.specs.Steps.{Zeros};
ghost use Rattle.sheet.specs.Form.{max_bytes};
ghost use Rattle.street.specs.Verdicts.{answered};
ghost use Rattle.sheet.specs.Reading.{lists_of, no_sheet, sheet_beside, Reads};
ghost use Rattle.sheet.specs.Steps.Held.{Held};
ghost use Rattle.sheet.specs.Steps.Numbers.{digit_of, number, more};
ghost use Rattle.sheet.specs.Steps.Sections.{pair, pairs, in_arrays, result_map, judged_count, section, cycle_section, InArrays};
ghost use Rattle.sheet.specs.Steps.Parsed.{reading_of};

use decimal::{LINE_END, SPACE};
use street::{Code, Lists, Refusal, Street};

// The numbers of a sheet, not yet judged: `signals` signals and one link fewer. Entries from those counts on are 0.
#[derive(Clone, Copy)]
pub struct Sheet {
    pub signals: usize,
    pub cycle: u32,
    pub reds: [u32; Street::MAX_SIGNALS],
    pub distances: [u32; Street::MAX_SIGNALS],
    pub outbound: [u32; Street::MAX_SIGNALS],
    pub inbound: [u32; Street::MAX_SIGNALS],
}

impl Sheet {
    // A longer sheet is refused before anything of it is read.
    pub const MAX_BYTES: usize = 2_048;
    // Numbers that are all 0, as they stand before a sheet is read and beside a refusal.
    pub const NONE: Sheet = Sheet {
        signals: 0,
        cycle: 0,
        reds: [0; Street::MAX_SIGNALS],
        distances: [0; Street::MAX_SIGNALS],
        outbound: [0; Street::MAX_SIGNALS],
        inbound: [0; Street::MAX_SIGNALS],
    };

    // The lists that the arrays hold, as a caller hands them on.
    pub fn lists(&self) -> Lists<'_>
        requires { Held self.now }
        ensures { result ≡ lists_of self.now }
    {
        let links = self.signals - 1;
        Lists {
            cycle: self.cycle,
            reds: &self.reds[..self.signals],
            distances: &self.distances[..self.signals],
            outbound: &self.outbound[..links],
            inbound: &self.inbound[..links],
        }
    }
}

// The limit of the code is that of the definition, and so are its zeros. The body is empty: the contract is all there is to this.
fn limits()
    ensures bytes { Sheet.MAX_BYTES ≡ max_bytes }
    ensures zeros { Sheet.NONE ≡ no_sheet }
{}

// The value of a byte that is a digit.
#[tactic(auto, unfolding(crate::specs::Steps::Numbers::digit_of))]
fn digit(byte: u8) -> Option<u32>
    ensures value { result ≡ digit_of byte }
    ensures small { IfSome result (λ d. d ≤ 9) }
{
    match byte {
        48..=57 => Some((byte - 48) as u32),
        _ => None,
    }
}

// The rest of a number of which some digits are read, up to the byte that has to end it: its value and the bytes behind that byte. A
// digit after a value of 0 would make that a leading zero, and one after more than 9,999,999 would be the ninth.
#[tactic(auto, unfolding(crate::specs::Steps::Numbers::more))]
fn digits(bytes: &[u8], first: u32, end: u8) -> Option<(u32, &[u8])>
    requires { (end ≡ 32) ⊎ (end ≡ 10) }
    ensures { option_map (λ t. (t.0, t.1.now)) result ≡ more end first bytes.now }
{
    let mut value = first;
    let mut rest = bytes;
    while let Some((byte, behind)) = rest.split_first() {
        match *byte {
            48..=57 => {
                if value == 0 || value > 9_999_999 {
                    return None;
                }
                value = 10 * value + (*byte - 48) as u32;
                rest = behind;
            }
            32 if end == SPACE => return Some((value, behind)),
            10 if end == LINE_END => return Some((value, behind)),
            _ => return None,
        }
    }
    None
}

// The number at the start of some bytes, and those behind the byte that has to end it.
#[tactic(auto, unfolding(crate::specs::Steps::Numbers::number))]
fn number(bytes: &[u8], end: u8) -> Option<(u32, &[u8])>
    requires { (end ≡ 32) ⊎ (end ≡ 10) }
    ensures { option_map (λ t. (t.0, t.1.now)) result ≡ number end bytes.now }
{
    let Some((first, rest)) = bytes.split_first() else {
        return None;
    };
    digits(rest, digit(*first)?, end)
}

// A section's count, judged as soon as its line is read.
#[tactic(auto, unfolding(crate::specs::Steps::Sections::judged_count))]
fn count(bytes: &[u8], least: usize, most: usize) -> Result<(usize, &[u8]), Code>
    ensures { result_map (λ t. (t.0, t.1.now)) result ≡ judged_count least most bytes.now }
{
    let Some((count, rest)) = number(bytes, LINE_END) else {
        return Err(Code::Sheet);
    };
    let lines = count as usize;
    if lines < least || lines > most {
        return Err(Code::Count);
    }
    Ok((lines, rest))
}

// A line of two numbers with one space between them, and the bytes behind it.
#[tactic(auto, unfolding(crate::specs::Steps::Sections::pair))]
fn pair(bytes: &[u8]) -> Option<(u32, u32, &[u8])>
    ensures { option_map (λ t. (t.0, t.1, t.2.now)) result ≡ pair bytes.now }
{
    let Some((x, rest)) = number(bytes, SPACE) else {
        return None;
    };
    let Some((y, rest)) = number(rest, LINE_END) else {
        return None;
    };
    Some((x, y, rest))
}

// The two columns of `count` lines, whether of signals or of links, into two arrays that come in all 0; and the bytes behind the lines.
fn columns<'a>(
    bytes: &'a [u8],
    count: usize,
    left: &mut [u32; Street::MAX_SIGNALS],
    right: &mut [u32; Street::MAX_SIGNALS],
) -> Option<&'a [u8]>
    requires { (count ≤ max_signals) × Zeros left.old × Zeros right.old }
    ensures { MatchOption result (pairs count bytes.now ≡ None)
        (λ rest. option_map in_arrays (pairs count bytes.now) ≡ Some (left.new, right.new, rest.now)) }
{
    let mut rest = bytes;
    for i in 0..count {
        let (x, y, below) = pair(rest)?;
        left[i] = x;
        right[i] = y;
        rest = below;
    }
    Some(rest)
}

// A section: its count, judged as soon as its line is read, and then its two columns, into two arrays that come in all 0. Answered are the
// count and the bytes behind the section.
fn section<'a>(
    bytes: &'a [u8],
    least: usize,
    most: usize,
    left: &mut [u32; Street::MAX_SIGNALS],
    right: &mut [u32; Street::MAX_SIGNALS],
) -> Result<(usize, &'a [u8]), Code>
    requires { (most ≤ max_signals) × Zeros left.old × Zeros right.old }
    ensures { MatchResult result
        (λ t. InArrays (section least most bytes.now) least most t.0 left.new right.new t.1.now)
        (λ code. section least most bytes.now ≡ Err code) }
{
    let (count, rest) = count(bytes, least, most)?;
    let rest = columns(rest, count, left, right).ok_or(Code::Sheet)?;
    Ok((count, rest))
}

// The first section: its count, which is 1, and the cycle.
#[tactic(auto, unfolding(crate::specs::Steps::Sections::cycle_section))]
fn cycle(bytes: &[u8]) -> Option<(u32, &[u8])>
    ensures { option_map (λ t. (t.0, t.1.now)) result ≡ cycle_section bytes.now }
{
    let Some((count, rest)) = number(bytes, LINE_END) else {
        return None;
    };
    if count != 1 {
        return None;
    }
    number(rest, LINE_END)
}

// A fault of a sheet, of which no place is named.
fn fault(code: Code) -> Refusal
    ensures { result ≡ record { code = code; place = 0 } }
{
    Refusal { code, place: 0 }
}

// Reads the numbers of a sheet, section by section, where zeros stand; or answers the refusal of the first fault, and leaves what was read
// before it. A signal's line has its distance before its red, a link's its outbound speed before its inbound one.
fn parse(bytes: &[u8], sheet: &mut Sheet) -> Result<(), Refusal>
    requires { Zeros sheet.old.reds × Zeros sheet.old.distances × Zeros sheet.old.outbound × Zeros sheet.old.inbound }
    ensures { MatchResult result (λ _. reading_of bytes.now ≡ Ok sheet.new) (λ refusal. reading_of bytes.now ≡ Err refusal) }
{
    if bytes.len() > Sheet::MAX_BYTES {
        return Err(fault(Code::Sheet));
    }
    let (cycle, rest) = cycle(bytes).ok_or(fault(Code::Sheet))?;
    let (signals, rest) = section(
        rest,
        Street::MIN_SIGNALS,
        Street::MAX_SIGNALS,
        &mut sheet.distances,
        &mut sheet.reds,
    )
    .map_err(|code| fault(code))?;
    let links = signals - 1;
    let (_, rest) = section(rest, links, links, &mut sheet.outbound, &mut sheet.inbound).map_err(
        |code| fault(code),
    )?;
    if !rest.is_empty() {
        return Err(fault(Code::Sheet));
    }
    sheet.signals = signals;
    sheet.cycle = cycle;
    Ok(())
}

// The numbers of a sheet, where four arrays of zeros stood; or the refusal of its first fault, which has code 1 or 2 and place 0, and zeros
// again. So a caller has the numbers where they are to be, and none is copied.
pub fn fill(bytes: &[u8], sheet: &mut Sheet) -> Result<(), Refusal>
    requires { Zeros sheet.old.reds × Zeros sheet.old.distances × Zeros sheet.old.outbound × Zeros sheet.old.inbound }
    ensures reading { Reads bytes.now (answered result sheet.new) }
    ensures beside { sheet.new ≡ sheet_beside (answered result sheet.new) }
{
    let verdict = parse(bytes, sheet);
    if verdict.is_err() {
        *sheet = Sheet::NONE;
    }
    verdict
}

// The same with the numbers in the reply.
pub fn read(bytes: &[u8]) -> Result<Sheet, Refusal>
    ensures { Reads bytes.now result }
{
    let mut sheet = Sheet::NONE;
    parse(bytes, &mut sheet)?;
    Ok(sheet)
}
