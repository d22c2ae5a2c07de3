// A request line: what it asks for, how long a list is lent, of offsets or of bytes, and what stands below it; and the lines of a survey's
// rows. What reads a part of a text answers with what it read and the rest behind it, or with none where no such part stands there.
#![tactic(auto)]

ghost use Rattle.std.specs.Prelude.{◌≤◌, ◌<◌, length, IfSome};
ghost use Rattle.lines.specs.Steps.{max_entries, max_room, entries_of, IsRest};

use list::Listed;
use street::Street;
use widths::Request;

mod list;

// The offsets that a line names.
pub type Offsets = Listed;

// What a line asks for: a plan, a plan in whole seconds, the measure of its numbers as offsets, the sheet's own bytes, or the plan of rows
// at a cycle.
#[derive(Clone, Copy)]
pub enum Call {
    Plan(Request),
    Seconds(Request),
    Measure(Offsets),
    Write,
    Survey(u32),
}

// What the line of a case asks for, how many entries are lent, and what stands below the line, a sheet's bytes or a survey's rows.
#[derive(Clone, Copy)]
pub struct Asked<'a> {
    pub call: Call,
    pub room: usize,
    pub below: &'a [u8],
    ghost room_fits: { room ≤ max_room },
    ghost count_fits: { entries_of call ≤ max_entries },
}

impl Asked<'_> {
    // The longest lent list of offsets that a line may name, and the most of its numbers that are kept.
    pub const MAX_ENTRIES: usize = 64;
    // The longest lent list of bytes that a line may name.
    pub const MAX_BYTES: usize = 4_096;
}

// How the position of a row's signal is given, from the origin or from the signal of the row before, with the numbers that C has for them.
#[derive(Clone, Copy)]
pub enum Kind {
    Chainage = 0,
    Gap = 1,
}

impl Kind {
    // The kind that the word at the start names.
    fn read(bytes: &[u8]) -> Option<(Kind, &[u8])>
        ensures rest { IfSome result (λ r. IsRest bytes.now r.1.now) }
        ensures length { IfSome result (λ r. length r.1.now ≤ length bytes.now) }
    {
        let (word, rest) = word(bytes)?;
        match word {
            b"chainage" => Some((Kind::Chainage, rest)),
            b"gap" => Some((Kind::Gap, rest)),
            _ => None,
        }
    }
}

// A row of a survey from its line: the kind of its position, the bits of its position and of its two speeds, and its red.
#[derive(Clone, Copy)]
pub struct RowLine {
    pub kind: Kind,
    pub position: u64,
    pub outbound: u64,
    pub inbound: u64,
    pub red: u32,
}

// What is lent for a line: how many entries where it names no number, and the most that it may name.
#[derive(Clone, Copy)]
struct Lent {
    usual: usize,
    most: usize,
    ghost usual_fits: { usual ≤ max_room },
    ghost most_fits: { most ≤ max_room },
}

impl Lent {
    // A list for offsets or seconds.
    const OFFSETS: Lent = Lent {
        usual: Street::MAX_SIGNALS,
        most: Asked::MAX_ENTRIES,
    };
    // A list of bytes.
    const BYTES: Lent = Lent {
        usual: Asked::MAX_BYTES,
        most: Asked::MAX_BYTES,
    };

    // How many entries are lent: the number that the line names, up to the most, and the usual one where it names none.
    fn room(self, bytes: &[u8]) -> Option<(usize, &[u8])>
        ensures room { IfSome result (λ r. r.0 ≤ max_room) }
        ensures rest { IfSome result (λ r. IsRest bytes.now r.1.now) }
        ensures length { IfSome result (λ r. length r.1.now ≤ length bytes.now) }
    {
        let Some(named) = bytes.strip_prefix(b" room ") else {
            return Some((self.usual, bytes));
        };
        let (number, rest) = digits(named)?;
        let room = number as usize;
        if room > self.most {
            return None;
        }
        Some((room, rest))
    }

    // A request whose line ends here, after the number of entries where it names one.
    fn asked(self, call: Call, bytes: &[u8]) -> Option<Asked<'_>>
        requires { entries_of call ≤ max_entries }
        ensures below { IfSome result (λ a. IsRest bytes.now a.below.now) }
        ensures length { IfSome result (λ a. length a.below.now ≤ length bytes.now) }
    {
        let (room, rest) = self.room(bytes)?;
        let below = rest.strip_prefix(b"\n")?;
        Some(Asked { call, room, below })
    }
}

// The word at the start, up to a space or the line's end.
fn word(bytes: &[u8]) -> Option<(&[u8], &[u8])>
    ensures rest { IfSome result (λ r. IsRest bytes.now r.1.now) }
    ensures length { IfSome result (λ r. length r.1.now ≤ length bytes.now) }
{
    let end = bytes.iter().position(|byte| matches!(*byte, b' ' | b'\n'))?;
    Some(bytes.split_at(end))
}

// The digit at the start.
fn digit(bytes: &[u8]) -> Option<(u32, &[u8])>
    ensures rest { IfSome result (λ r. IsRest bytes.now r.1.now) }
    ensures length { IfSome result (λ r. length r.1.now < length bytes.now) }
{
    let (byte, rest) = bytes.split_first()?;
    match *byte {
        b'0'..=b'9' => Some((u32::from(*byte - b'0'), rest)),
        _ => None,
    }
}

// The digits at the start, as many as there are, if they make a number below two to the 32.
fn digits(bytes: &[u8]) -> Option<(u32, &[u8])>
    ensures rest { IfSome result (λ r. IsRest bytes.now r.1.now) }
    ensures length { IfSome result (λ r. length r.1.now ≤ length bytes.now) }
{
    let (mut value, mut rest) = digit(bytes)?;
    while let Some((next, after)) = digit(rest) {
        value = value.checked_mul(10)?.checked_add(next)?;
        rest = after;
    }
    Some((value, rest))
}

// A number after one space.
fn number(bytes: &[u8]) -> Option<(u32, &[u8])>
    ensures rest { IfSome result (λ r. IsRest bytes.now r.1.now) }
    ensures length { IfSome result (λ r. length r.1.now < length bytes.now) }
{
    digits(bytes.strip_prefix(b" ")?)
}

// Numbers, each after one space, as many as there are. Those past the most that are kept are passed over.
fn numbers(bytes: &[u8]) -> (Offsets, &[u8])
    ensures count { result.0.count ≤ max_entries }
    ensures rest { IsRest bytes.now result.1.now }
    ensures length { length result.1.now ≤ length bytes.now }
{
    let mut entries = [0; Asked::MAX_ENTRIES];
    let mut count = 0;
    let mut rest = bytes;
    while let Some((value, after)) = number(rest) {
        if count < Asked::MAX_ENTRIES {
            entries[count] = value;
            count += 1;
        }
        rest = after;
    }
    (Listed { entries, count }, rest)
}

// The plan that the word at the start asks for, with the numbers that belong to it.
fn plan(bytes: &[u8]) -> Option<(Request, &[u8])>
    ensures rest { IfSome result (λ r. IsRest bytes.now r.1.now) }
    ensures length { IfSome result (λ r. length r.1.now ≤ length bytes.now) }
{
    let (word, rest) = word(bytes)?;
    match word {
        b"equal" => Some((Request::Equal, rest)),
        b"outbound" => {
            let (width, rest) = number(rest)?;
            Some((Request::Outbound(width), rest))
        }
        b"inbound" => {
            let (width, rest) = number(rest)?;
            Some((Request::Inbound(width), rest))
        }
        b"platoons" => {
            let (outbound, rest) = number(rest)?;
            let (inbound, rest) = number(rest)?;
            Some((Request::Platoons(outbound, inbound), rest))
        }
        b"volumes" => {
            let (outbound, rest) = number(rest)?;
            let (inbound, rest) = number(rest)?;
            let (headway, rest) = number(rest)?;
            Some((Request::Volumes(outbound, inbound, headway), rest))
        }
        _ => None,
    }
}

// The request of a case, or none where its line is not served.
pub fn request(case: &[u8]) -> Option<Asked<'_>>
    ensures below { IfSome result (λ a. IsRest case.now a.below.now) }
    ensures length { IfSome result (λ a. length a.below.now ≤ length case.now) }
{
    let (word, rest) = word(case)?;
    match word {
        b"measure" => {
            let (offsets, rest) = numbers(rest);
            let below = rest.strip_prefix(b"\n")?;
            Some(Asked {
                call: Call::Measure(offsets),
                room: 0,
                below,
            })
        }
        b"write" => Lent::BYTES.asked(Call::Write, rest),
        b"survey" => {
            let (cycle, rest) = number(rest)?;
            Lent::OFFSETS.asked(Call::Survey(cycle), rest)
        }
        b"seconds" => {
            let (request, rest) = plan(rest.strip_prefix(b" ")?)?;
            Lent::OFFSETS.asked(Call::Seconds(request), rest)
        }
        _ => {
            let (request, rest) = plan(case)?;
            Lent::OFFSETS.asked(Call::Plan(request), rest)
        }
    }
}

// What a hexadecimal digit stands for, its letters being small ones.
fn hex_digit(byte: u8) -> Option<u8>
    ensures { IfSome result (λ d. d ≤ 15) }
{
    match byte {
        b'0'..=b'9' => Some(byte - b'0'),
        b'a'..=b'f' => Some(byte - b'a' + 10),
        _ => None,
    }
}

// The bits of a float after one space: 16 hexadecimal digits, or the word for a NaN.
fn pattern(bytes: &[u8]) -> Option<(u64, &[u8])>
    ensures rest { IfSome result (λ r. IsRest bytes.now r.1.now) }
    ensures length { IfSome result (λ r. length r.1.now < length bytes.now) }
{
    if let Some(rest) = bytes.strip_prefix(b" nan") {
        return Some((0x7ff8_0000_0000_0000, rest));
    }
    let (digits, rest) = bytes.strip_prefix(b" ")?.split_first_chunk::<16>()?;
    let mut bits: u64 = 0;
    for digit in digits {
        bits = bits << 4 | u64::from(hex_digit(*digit)?);
    }
    Some((bits, rest))
}

// The row whose line stands at the start, and what stands below the line.
pub fn first_row(bytes: &[u8]) -> Option<(RowLine, &[u8])>
    ensures rest { IfSome result (λ r. IsRest bytes.now r.1.now) }
    ensures length { IfSome result (λ r. length r.1.now < length bytes.now) }
{
    let (kind, rest) = Kind::read(bytes)?;
    let (position, rest) = pattern(rest)?;
    let (outbound, rest) = pattern(rest)?;
    let (inbound, rest) = pattern(rest)?;
    let (red, rest) = number(rest)?;
    let below = rest.strip_prefix(b"\n")?;
    let line = RowLine {
        kind,
        position,
        outbound,
        inbound,
        red,
    };
    Some((line, below))
}
