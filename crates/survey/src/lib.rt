// The field crew's survey: from an instrument's rows to the numbers of a street as they would be typed by hand, and to their plan (02,
// 2026-04).
#![tactic(auto)]

ghost use Rattle.std.specs.Prelude.{◌≡◌, ℕ, ◌+◌, ◌≤◌, ◌<◌, length, IfSome};
ghost use Rattle.std.specs.Float.{binary64};
ghost use Rattle.std.specs.Float.Ieee.{of_bits};
ghost use Rattle.road.specs.Limits.{max_signals};
ghost use Rattle.survey.specs.Rows.{row_count_check};
ghost use Rattle.survey.specs.Typing.{thousandths, survey_reading, in_rows, position_of, row_of, in_lists, lengths_check, lists_reading};
ghost use Rattle.street.specs.declared.Code.TheVariants.{Survey};
ghost use Rattle.survey.specs.Plans.{Surveyed};
ghost use Rattle.survey.specs.Steps.{max_eighths, Small, placed_at, judged_as, standing, rows_reading};

use eighths::{from_bits, in_eighths};
use plans::{Plan, Request};
use sheet::Sheet;
use street::{Code, Refusal, Street, refused};

// Where a row's signal stands, in metres: from the origin, or from the signal of the row before.
#[derive(Clone, Copy, Debug, PartialEq)]
pub enum Position {
    Chainage(f64),
    Gap(f64),
}

// A row: its signal's position, the two speeds of the link that ends there, in metres a second, and the red that the crew typed, in ticks.
#[derive(Clone, Copy, Debug, PartialEq)]
pub struct Row {
    pub position: Position,
    pub outbound: f64,
    pub inbound: f64,
    pub red: u32,
}

impl Position {
    // A position by its kind as C has it, 0 for a chainage and 1 for a gap. One of another kind is outside the rules whatever its number
    // is, and becomes a chainage that is so too: one that is not a number.
    fn of_kind(kind: u32, x: f64) -> Position
        ensures { result ≡ position_of kind x }
    {
        match kind {
            0 => Position::Chainage(x),
            1 => Position::Gap(x),
            _ => Position::Chainage(f64::NAN),
        }
    }
}

impl Row {
    // The largest running distance, 20,000 metres, in eighths.
    pub const MAX_EIGHTHS: u32 = 160_000;
    // An eighth of a metre in millimetres, and of a metre a second in millimetres a second.
    pub const EIGHTH: u32 = 125;

    // A row by the kind of its position and its three floats.
    pub fn new(kind: u32, x: f64, outbound: f64, inbound: f64, red: u32) -> Row
        ensures { result ≡ row_of kind x outbound inbound red }
    {
        Row {
            position: Position::of_kind(kind, x),
            outbound,
            inbound,
            red,
        }
    }

    // A row by the kind of its position and the bits of its three floats.
    pub fn of_bits(kind: u32, x: u64, outbound: u64, inbound: u64, red: u32) -> Row
        ensures { result ≡ row_of kind (of_bits binary64 x) (of_bits binary64 outbound) (of_bits binary64 inbound) red }
    {
        Row::new(
            kind,
            from_bits(x),
            from_bits(outbound),
            from_bits(inbound),
            red,
        )
    }
}

// The numbers of the code are those of the definitions. The body is empty: the contract is all there is to this.
fn limits()
    ensures { (Row.MAX_EIGHTHS ≡ max_eighths) × (Row.EIGHTH ≡ thousandths 1) }
{}

// A number of eighths, in thousandths: metres become millimetres, and metres a second millimetres a second.
fn thousandths(eighths: u32) -> u32
    requires { eighths ≤ max_eighths }
    ensures { result ≡ thousandths eighths }
{
    Row::EIGHTH * eighths
}

// What a row comes to, in eighths: the running distance of its signal, and the speeds of the link that ends there.
#[derive(Clone, Copy, Debug, PartialEq, Eq)]
struct Judged {
    distance: u32,
    outbound: u32,
    inbound: u32,
}

// The running distance at a position, from the one before it.
#[tactic(auto, using(eighths::proofs::Meaning::eighths_small), unfolding(crate::specs::Steps::placed_at))]
fn placed(before: u32, position: Position) -> Option<u32>
    requires { before ≤ max_eighths }
    ensures value { result ≡ placed_at before position }
    ensures near { IfSome result (λ d. d ≤ max_eighths) }
{
    match position {
        Position::Chainage(x) => in_eighths(x),
        Position::Gap(x) => {
            let distance = before + in_eighths(x)?;
            if distance > Row::MAX_EIGHTHS {
                return None;
            }
            Some(distance)
        }
    }
}

// A row after one whose running distance is known, unless it is bad. A call for each row would cost more than the row.
#[inline(always)]
#[tactic(auto, using(eighths::proofs::Meaning::eighths_small), unfolding(crate::specs::Steps::judged_as))]
fn judge(before: u32, row: Row) -> Option<Judged>
    requires { before ≤ max_eighths }
    ensures value { result ≡ judged_as before row }
    ensures small { IfSome result Small }
{
    Some(Judged {
        distance: placed(before, row.position)?,
        outbound: in_eighths(row.outbound)?,
        inbound: in_eighths(row.inbound)?,
    })
}

// The first row: a gap counts from the origin, and no link ends here, so that both speeds must be zero.
fn first(row: Row) -> Option<Judged>
    ensures value { result ≡ standing (judged_as 0 row) }
    ensures small { IfSome result Small }
{
    let read = judge(0, row)?;
    if read.outbound > 0 || read.inbound > 0 {
        return None;
    }
    Some(read)
}

// The refusal of a bad row, by its index.
fn bad(index: usize) -> Refusal
    requires { index < max_signals }
    ensures { result ≡ record { code = Survey; place = index + 1 } }
{
    Refusal {
        code: Code::Survey,
        place: (index + 1) as u32,
    }
}

// The numbers of rows, of which there are as many as there may be; or the refusal of the first bad one.
fn typed(cycle: u32, rows: &[Row]) -> Result<Sheet, Refusal>
    requires { (1 ≤ length rows.now) × (length rows.now ≤ max_signals) }
    ensures { result ≡ rows_reading cycle (length rows.now) (in_rows rows.now) }
{
    let mut reds = [0; Street::MAX_SIGNALS];
    let mut distances = [0; Street::MAX_SIGNALS];
    let mut outbound = [0; Street::MAX_SIGNALS];
    let mut inbound = [0; Street::MAX_SIGNALS];
    let start = first(rows[0]).ok_or(bad(0))?;
    reds[0] = rows[0].red;
    distances[0] = thousandths(start.distance);
    let mut before = start.distance;
    for link in 0..rows.len() - 1 {
        let i = link + 1;
        let read = judge(before, rows[i]).ok_or(bad(i))?;
        reds[i] = rows[i].red;
        distances[i] = thousandths(read.distance);
        outbound[link] = thousandths(read.outbound);
        inbound[link] = thousandths(read.inbound);
        before = read.distance;
    }
    Ok(Sheet {
        signals: rows.len(),
        cycle,
        reds,
        distances,
        outbound,
        inbound,
    })
}

// How many rows there may be.
#[tactic(auto, unfolding(crate::specs::Rows::row_count_check))]
fn row_count(count: usize) -> Result<(), Refusal>
    ensures { result ≡ row_count_check count }
{
    if count < Street::MIN_SIGNALS || count > Street::MAX_SIGNALS {
        return refused(Code::Count, 0);
    }
    Ok(())
}

// The library's call: the numbers of a street from its rows, as they would be typed by hand, or the refusal of a wrong count or of the
// first bad row.
pub fn read(cycle: u32, rows: &[Row]) -> Result<Sheet, Refusal>
    ensures { result ≡ survey_reading cycle (length rows.now) (in_rows rows.now) }
{
    row_count(rows.len())?;
    typed(cycle, rows)
}

// Whether four lists are as long as that of the reds.
#[tactic(auto, unfolding(crate::specs::Typing::lengths_check))]
fn lengths(
    count: usize,
    kinds: usize,
    positions: usize,
    outbound: usize,
    inbound: usize,
) -> Result<(), Refusal>
    ensures { result ≡ lengths_check count kinds positions outbound inbound }
{
    if kinds != count || positions != count || outbound != count || inbound != count {
        return refused(Code::Count, 0);
    }
    Ok(())
}

// The rows that stand in five lists of one length, at most 32.
fn gathered(
    kinds: &[u32],
    positions: &[f64],
    outbound: &[f64],
    inbound: &[f64],
    reds: &[u32],
) -> [Row; Street::MAX_SIGNALS]
    requires { (length reds.now ≤ max_signals) × (length kinds.now ≡ length reds.now) × (length positions.now ≡ length reds.now) × (length outbound.now ≡ length reds.now) × (length inbound.now ≡ length reds.now) }
    ensures room { length result ≡ max_signals }
    ensures rows { (j : ℕ) → j < length reds.now → in_rows result j ≡ in_lists kinds.now positions.now outbound.now inbound.now reds.now j }
{
    let mut rows = [Row::new(0, 0.0, 0.0, 0.0, 0); Street::MAX_SIGNALS];
    for i in 0..reds.len() {
        rows[i] = Row::new(kinds[i], positions[i], outbound[i], inbound[i], reds[i]);
    }
    rows
}

// The same from five lists, an entry for each row: kinds of positions, positions, outbound and inbound speeds, and reds.
pub fn read_lists(
    cycle: u32,
    kinds: &[u32],
    positions: &[f64],
    outbound: &[f64],
    inbound: &[f64],
    reds: &[u32],
) -> Result<Sheet, Refusal>
    ensures { result ≡ lists_reading cycle kinds.now positions.now outbound.now inbound.now reds.now }
{
    let count = reds.len();
    lengths(
        count,
        kinds.len(),
        positions.len(),
        outbound.len(),
        inbound.len(),
    )?;
    row_count(count)?;
    let rows = gathered(kinds, positions, outbound, inbound, reds);
    typed(cycle, &rows[..count])
}

// The plan of a request on the rows' street: the refusal that the rows earn, which leaves the lent list as it was, or else the library's own
// answer to the numbers as they would be typed by hand.
pub fn plan_for(
    request: Request,
    cycle: u32,
    rows: &[Row],
    offsets: &mut [u32],
) -> Result<Plan, Refusal>
    ensures { Surveyed request cycle (length rows.now) (in_rows rows.now) offsets.old offsets.new result }
{
    let sheet = read(cycle, rows)?;
    plans::plan_for(request, &sheet.lists(), offsets)
}
