// The C boundary: each public call as a C function over numbers and lists, for include/corbatan.h. A list is a pointer and a count to C,
// and a reply one of the structs of `flat`.
#![tactic(auto)]

ghost use Rattle.std.specs.Prelude.{◌≡◌};
ghost use Rattle.street.specs.Lists.{typed};
ghost use Rattle.widths.specs.declared.Request.TheVariants.{Equal, Outbound, Inbound, Platoons, Volumes};
ghost use Rattle.bands.specs.Measure.{measurement_of};
ghost use Rattle.survey.specs.Typing.{lists_reading};
ghost use Rattle.flat.specs.Flat.{flat_measure, flat_reading};
ghost use Rattle.exports.specs.Calls.{FlatRequested, FlatSeconds, FlatCarries, FlatReads, FlatWrites, FlatPrints};

use flat::{
    CorbatanMeasure, CorbatanPlan, CorbatanSheet, CorbatanText, CorbatanVolumes, CorbatanWriting,
};
use plans::Request;
use sheet::Sheet;
use street::{Lists, Street};

// The equal plan.
#[unsafe(no_mangle)]
pub extern "C" fn corbatan_equal(
    cycle: u32,
    reds: &[u32],
    distances: &[u32],
    outbound: &[u32],
    inbound: &[u32],
    offsets: &mut [u32],
) -> CorbatanPlan
    ensures { FlatRequested Equal (typed cycle reds.now distances.now outbound.now inbound.now) offsets.old offsets.new result }
{
    let street = Lists::new(cycle, reds, distances, outbound, inbound);
    CorbatanPlan::from(plans::plan_for(Request::Equal, &street, offsets))
}

// The plan with a requested outbound width in halves.
#[unsafe(no_mangle)]
pub extern "C" fn corbatan_outbound(
    cycle: u32,
    reds: &[u32],
    distances: &[u32],
    outbound: &[u32],
    inbound: &[u32],
    width: u32,
    offsets: &mut [u32],
) -> CorbatanPlan
    ensures { FlatRequested (Outbound width) (typed cycle reds.now distances.now outbound.now inbound.now) offsets.old offsets.new result }
{
    let street = Lists::new(cycle, reds, distances, outbound, inbound);
    CorbatanPlan::from(plans::plan_for(Request::Outbound(width), &street, offsets))
}

// The plan with a requested inbound width in halves.
#[unsafe(no_mangle)]
pub extern "C" fn corbatan_inbound(
    cycle: u32,
    reds: &[u32],
    distances: &[u32],
    outbound: &[u32],
    inbound: &[u32],
    width: u32,
    offsets: &mut [u32],
) -> CorbatanPlan
    ensures { FlatRequested (Inbound width) (typed cycle reds.now distances.now outbound.now inbound.now) offsets.old offsets.new result }
{
    let street = Lists::new(cycle, reds, distances, outbound, inbound);
    CorbatanPlan::from(plans::plan_for(Request::Inbound(width), &street, offsets))
}

// The plan from the lengths of two platoons in halves.
#[unsafe(no_mangle)]
pub extern "C" fn corbatan_platoons(
    cycle: u32,
    reds: &[u32],
    distances: &[u32],
    outbound: &[u32],
    inbound: &[u32],
    outbound_platoon: u32,
    inbound_platoon: u32,
    offsets: &mut [u32],
) -> CorbatanPlan
    ensures { FlatRequested (Platoons outbound_platoon inbound_platoon) (typed cycle reds.now distances.now outbound.now inbound.now) offsets.old offsets.new result }
{
    let street = Lists::new(cycle, reds, distances, outbound, inbound);
    CorbatanPlan::from(plans::plan_for(
        Request::Platoons(outbound_platoon, inbound_platoon),
        &street,
        offsets,
    ))
}

// The plan for two volumes in vehicles an hour at a headway in ticks, with the largest volumes that its widths take.
#[unsafe(no_mangle)]
pub extern "C" fn corbatan_volumes(
    cycle: u32,
    reds: &[u32],
    distances: &[u32],
    outbound: &[u32],
    inbound: &[u32],
    outbound_volume: u32,
    inbound_volume: u32,
    headway: u32,
    offsets: &mut [u32],
) -> CorbatanVolumes
    ensures { FlatCarries outbound_volume inbound_volume headway (typed cycle reds.now distances.now outbound.now inbound.now) offsets.old offsets.new result }
{
    let street = Lists::new(cycle, reds, distances, outbound, inbound);
    CorbatanVolumes::from(plans::volumes(
        &street,
        outbound_volume,
        inbound_volume,
        headway,
        offsets,
    ))
}

// The plan of a request in whole seconds, in C's struct. The first entries of the lent list become the seconds at which the signals turn
// green; a refusal leaves the list as it was (02, 2026-06).
fn seconds_for(request: Request, street: &Lists, seconds: &mut [u32]) -> CorbatanPlan
    ensures { FlatSeconds request street.now seconds.old seconds.new result }
{
    CorbatanPlan::from(cabinets::plan_for(request, street, seconds))
}

// The equal plan in whole seconds.
#[unsafe(no_mangle)]
pub extern "C" fn corbatan_equal_seconds(
    cycle: u32,
    reds: &[u32],
    distances: &[u32],
    outbound: &[u32],
    inbound: &[u32],
    seconds: &mut [u32],
) -> CorbatanPlan
    ensures { FlatSeconds Equal (typed cycle reds.now distances.now outbound.now inbound.now) seconds.old seconds.new result }
{
    let street = Lists::new(cycle, reds, distances, outbound, inbound);
    seconds_for(Request::Equal, &street, seconds)
}

// The plan with a requested outbound width, in whole seconds.
#[unsafe(no_mangle)]
pub extern "C" fn corbatan_outbound_seconds(
    cycle: u32,
    reds: &[u32],
    distances: &[u32],
    outbound: &[u32],
    inbound: &[u32],
    width: u32,
    seconds: &mut [u32],
) -> CorbatanPlan
    ensures { FlatSeconds (Outbound width) (typed cycle reds.now distances.now outbound.now inbound.now) seconds.old seconds.new result }
{
    let street = Lists::new(cycle, reds, distances, outbound, inbound);
    seconds_for(Request::Outbound(width), &street, seconds)
}

// The plan with a requested inbound width, in whole seconds.
#[unsafe(no_mangle)]
pub extern "C" fn corbatan_inbound_seconds(
    cycle: u32,
    reds: &[u32],
    distances: &[u32],
    outbound: &[u32],
    inbound: &[u32],
    width: u32,
    seconds: &mut [u32],
) -> CorbatanPlan
    ensures { FlatSeconds (Inbound width) (typed cycle reds.now distances.now outbound.now inbound.now) seconds.old seconds.new result }
{
    let street = Lists::new(cycle, reds, distances, outbound, inbound);
    seconds_for(Request::Inbound(width), &street, seconds)
}

// The plan from the lengths of two platoons, in whole seconds.
#[unsafe(no_mangle)]
pub extern "C" fn corbatan_platoons_seconds(
    cycle: u32,
    reds: &[u32],
    distances: &[u32],
    outbound: &[u32],
    inbound: &[u32],
    outbound_platoon: u32,
    inbound_platoon: u32,
    seconds: &mut [u32],
) -> CorbatanPlan
    ensures { FlatSeconds (Platoons outbound_platoon inbound_platoon) (typed cycle reds.now distances.now outbound.now inbound.now) seconds.old seconds.new result }
{
    let street = Lists::new(cycle, reds, distances, outbound, inbound);
    seconds_for(
        Request::Platoons(outbound_platoon, inbound_platoon),
        &street,
        seconds,
    )
}

// The plan for two volumes at a headway, in whole seconds. The largest volumes do not depend on them: `corbatan_volumes` has these.
#[unsafe(no_mangle)]
pub extern "C" fn corbatan_volumes_seconds(
    cycle: u32,
    reds: &[u32],
    distances: &[u32],
    outbound: &[u32],
    inbound: &[u32],
    outbound_volume: u32,
    inbound_volume: u32,
    headway: u32,
    seconds: &mut [u32],
) -> CorbatanPlan
    ensures { FlatSeconds (Volumes outbound_volume inbound_volume headway) (typed cycle reds.now distances.now outbound.now inbound.now) seconds.old seconds.new result }
{
    let street = Lists::new(cycle, reds, distances, outbound, inbound);
    seconds_for(
        Request::Volumes(outbound_volume, inbound_volume, headway),
        &street,
        seconds,
    )
}

// The measure of given offsets, which are an input here and not lent.
#[unsafe(no_mangle)]
pub extern "C" fn corbatan_measure(
    cycle: u32,
    reds: &[u32],
    distances: &[u32],
    outbound: &[u32],
    inbound: &[u32],
    offsets: &[u32],
) -> CorbatanMeasure
    ensures { result ≡ flat_measure (measurement_of (typed cycle reds.now distances.now outbound.now inbound.now) offsets.now) }
{
    let measured = Lists::new(cycle, reds, distances, outbound, inbound);
    CorbatanMeasure::from(bands::measure(&measured, offsets))
}

// The numbers of a sheet's bytes. They are read where they stand and copied once, into the reply.
#[unsafe(no_mangle)]
pub extern "C" fn corbatan_read(bytes: &[u8]) -> CorbatanSheet
    ensures { FlatReads bytes.now result }
{
    let mut sheet = Sheet::NONE;
    let verdict = sheet::fill(bytes, &mut sheet);
    flat::reading(verdict, &sheet)
}

// The numbers of a survey's rows, each column in a list of its own with an entry for each row (02, 2026-04).
#[unsafe(no_mangle)]
pub extern "C" fn corbatan_survey(
    cycle: u32,
    kinds: &[u32],
    positions: &[f64],
    outbound: &[f64],
    inbound: &[f64],
    reds: &[u32],
) -> CorbatanSheet
    ensures { result ≡ flat_reading (lists_reading cycle kinds.now positions.now outbound.now inbound.now reds.now) }
{
    CorbatanSheet::from(survey::read_lists(cycle, kinds, positions, outbound, inbound, reds))
}

// The sheet of a street in the first bytes of the lent list; a refusal leaves the list as it was.
#[unsafe(no_mangle)]
pub extern "C" fn corbatan_write(
    cycle: u32,
    reds: &[u32],
    distances: &[u32],
    outbound: &[u32],
    inbound: &[u32],
    bytes: &mut [u8],
) -> CorbatanWriting
    ensures { FlatWrites (typed cycle reds.now distances.now outbound.now inbound.now) bytes.old bytes.new result }
{
    let typed = Lists::new(cycle, reds, distances, outbound, inbound);
    CorbatanWriting::from(writer::write(&typed, bytes))
}

// The printed equal plan of a sheet's bytes, or the line of its refusal. The list for the offsets has room for every street.
#[unsafe(no_mangle)]
pub extern "C" fn corbatan_print(bytes: &[u8]) -> CorbatanText
    ensures { FlatPrints bytes.now result }
{
    CorbatanText::from(printed::equal_text(bytes, Street::MAX_SIGNALS))
}
