// The library's replies in C's flat structs, for include/corbatan.h. C has no enums with fields, so a reply is one struct, whose code is
// 0 where nothing was refused, and each is made from the library's own. No call is made here: `exports` has these.
#![tactic(auto)]

ghost use Rattle.std.specs.Prelude.{◌≡◌};
ghost use Rattle.street.specs.Codes.{code_of, place_of};
ghost use Rattle.flat.specs.Flat.{flat_plan, flat_carried, flat_measure, flat_sheet, flat_reading, flat_writing, flat_text};

use bands::Measured;
use plans::{Carried, Plan};
use printed::Printed;
use sheet::Sheet;
use street::{Refusal, Street};

// A plan's numbers or a refusal's, with document 01's number for the refusal. Widths, B and instants are in halves.
#[repr(C)]
#[derive(Clone, Copy)]
pub struct CorbatanPlan {
    pub code: u32,
    pub place: u32,
    pub reference: u32,
    pub b: i32,
    pub outbound: u32,
    pub inbound: u32,
    pub rounded: u32,
    pub starts: u32,
    pub ends: u32,
}

// A plan or a refusal, and for each direction the largest volume that its width takes, in vehicles an hour; 0 in a refusal.
#[repr(C)]
#[derive(Clone, Copy)]
pub struct CorbatanVolumes {
    pub plan: CorbatanPlan,
    pub outbound_volume: u32,
    pub inbound_volume: u32,
}

// A measure's numbers or a refusal's, widths and starts in halves.
#[repr(C)]
#[derive(Clone, Copy)]
pub struct CorbatanMeasure {
    pub code: u32,
    pub place: u32,
    pub outbound_width: u32,
    pub outbound_start: u32,
    pub inbound_width: u32,
    pub inbound_start: u32,
}

// A sheet's numbers, not yet judged, or a refusal's. The lists stand inside, so that none has to be lent for them.
#[repr(C)]
#[derive(Clone, Copy)]
pub struct CorbatanSheet {
    pub code: u32,
    pub place: u32,
    pub signals: usize,
    pub cycle: u32,
    pub reds: [u32; Street::MAX_SIGNALS],
    pub distances: [u32; Street::MAX_SIGNALS],
    pub outbound: [u32; Street::MAX_SIGNALS],
    pub inbound: [u32; Street::MAX_SIGNALS],
}

// The length of a sheet that was written, or a refusal's numbers, with a length of 0.
#[repr(C)]
#[derive(Clone, Copy)]
pub struct CorbatanWriting {
    pub code: u32,
    pub place: u32,
    pub count: usize,
}

// A printed text: its length, and its bytes with zeros behind them.
#[repr(C)]
#[derive(Clone, Copy)]
pub struct CorbatanText {
    pub count: usize,
    pub bytes: [u8; Printed::MAX_BYTES],
}

// Any plan's answer.
impl From<Result<Plan, Refusal>> for CorbatanPlan {
    ghost from_gives = { λ answer flat. flat ≡ flat_plan answer };

    fn from(answer: Result<Plan, Refusal>) -> CorbatanPlan {
        match answer {
            Ok(p) => CorbatanPlan {
                code: 0,
                place: 0,
                reference: p.reference,
                b: p.b,
                outbound: p.outbound,
                inbound: p.inbound,
                rounded: p.rounded,
                starts: p.starts,
                ends: p.ends,
            },
            Err(f) => CorbatanPlan {
                code: u32::from(f.code),
                place: f.place,
                reference: 0,
                b: 0,
                outbound: 0,
                inbound: 0,
                rounded: 0,
                starts: 0,
                ends: 0,
            },
        }
    }
}

// The answer to volumes.
impl From<Result<Carried, Refusal>> for CorbatanVolumes {
    ghost from_gives = { λ answer flat. flat ≡ flat_carried answer };

    fn from(answer: Result<Carried, Refusal>) -> CorbatanVolumes {
        match answer {
            Ok(carried) => CorbatanVolumes {
                plan: CorbatanPlan::from(Ok(carried.plan)),
                outbound_volume: carried.outbound,
                inbound_volume: carried.inbound,
            },
            Err(f) => CorbatanVolumes {
                plan: CorbatanPlan::from(Err(f)),
                outbound_volume: 0,
                inbound_volume: 0,
            },
        }
    }
}

// A measure's answer.
impl From<Result<Measured, Refusal>> for CorbatanMeasure {
    ghost from_gives = { λ answer flat. flat ≡ flat_measure answer };

    fn from(answer: Result<Measured, Refusal>) -> CorbatanMeasure {
        match answer {
            Ok(m) => CorbatanMeasure {
                code: 0,
                place: 0,
                outbound_width: m.outbound.width,
                outbound_start: m.outbound.start,
                inbound_width: m.inbound.width,
                inbound_start: m.inbound.start,
            },
            Err(f) => CorbatanMeasure {
                code: u32::from(f.code),
                place: f.place,
                outbound_width: 0,
                outbound_start: 0,
                inbound_width: 0,
                inbound_start: 0,
            },
        }
    }
}

// The writer's answer.
impl From<Result<usize, Refusal>> for CorbatanWriting {
    ghost from_gives = { λ answer flat. flat ≡ flat_writing answer };

    fn from(answer: Result<usize, Refusal>) -> CorbatanWriting {
        match answer {
            Ok(count) => CorbatanWriting {
                code: 0,
                place: 0,
                count,
            },
            Err(f) => CorbatanWriting {
                code: u32::from(f.code),
                place: f.place,
                count: 0,
            },
        }
    }
}

// A reading in numbers: the code and place of its verdict, both 0 where nothing was refused, and the numbers beside it.
pub fn reading(verdict: Result<(), Refusal>, sheet: &Sheet) -> CorbatanSheet
    ensures { result ≡ flat_sheet (code_of verdict) (place_of verdict) sheet.now }
{
    let (code, place) = match verdict {
        Ok(()) => (0, 0),
        Err(f) => (u32::from(f.code), f.place),
    };
    let Sheet {
        signals,
        cycle,
        reds,
        distances,
        outbound,
        inbound,
    } = *sheet;
    CorbatanSheet {
        code,
        place,
        signals,
        cycle,
        reds,
        distances,
        outbound,
        inbound,
    }
}

// The answer of what reads a sheet or a survey.
impl From<Result<Sheet, Refusal>> for CorbatanSheet {
    ghost from_gives = { λ answer flat. flat ≡ flat_reading answer };

    fn from(answer: Result<Sheet, Refusal>) -> CorbatanSheet {
        let (verdict, sheet) = match &answer {
            Ok(sheet) => (Ok(()), sheet),
            Err(f) => (Err(*f), &Sheet::NONE),
        };
        reading(verdict, sheet)
    }
}

// A printed text.
impl From<Printed> for CorbatanText {
    ghost from_gives = { λ text flat. flat ≡ flat_text text };

    fn from(text: Printed) -> CorbatanText {
        let Printed { bytes, count } = text;
        CorbatanText { count, bytes }
    }
}
