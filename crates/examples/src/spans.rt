// Spans of change request #107: one pair, both viscosities known to a percent or so, across H and across 70.000 mm²/s, one whose greatest index is at neither end of
// y, and limits that each question refuses.
use crate::{numbered, told};
use span::{Span, answer_span};
use std::io;

// Four limits: of the viscosity at 40 °C, then of the one at 100 °C.
#[derive(Clone, Copy)]
struct Limits {
    u: (u32, u32),
    y: (u32, u32),
}

// Is the span answered, with these two indices?
fn span_is(limits: Limits, least: i32, greatest: i32) -> bool {
    let Limits { u, y } = limits;
    answer_span(u.0, u.1, y.0, y.1) == Ok(Span { least, greatest })
}

// Are the limits refused by that number?
fn span_refused(limits: Limits, number: u8) -> bool {
    let Limits { u, y } = limits;
    numbered(answer_span(u.0, u.1, y.0, y.1)) == Err(number)
}

fn answered_spans(rt: &impl Print) -> io::Result<()> {
    told(
        rt,
        "span of (73300, 8860) alone: 92 to 92",
        span_is(
            Limits {
                u: (73_300, 73_300),
                y: (8_860, 8_860),
            },
            92,
            92,
        ),
    )?;
    told(
        rt,
        "span, u 72567 to 74033, y 8851 to 8869: 91 to 94",
        span_is(
            Limits {
                u: (72_567, 74_033),
                y: (8_851, 8_869),
            },
            91,
            94,
        ),
    )?;
    told(
        rt,
        "span, u 22602 to 23058, y 5045 to 5055: 153 to 160",
        span_is(
            Limits {
                u: (22_602, 23_058),
                y: (5_045, 5_055),
            },
            153,
            160,
        ),
    )?;
    told(
        rt,
        "span across H, u 28400 to 28600, y 4990 to 5010: 98 to 101",
        span_is(
            Limits {
                u: (28_400, 28_600),
                y: (4_990, 5_010),
            },
            98,
            101,
        ),
    )?;
    told(
        rt,
        "span across 70000, u 30000000, y 69999 to 70001: -750 to -749",
        span_is(
            Limits {
                u: (30_000_000, 30_000_000),
                y: (69_999, 70_001),
            },
            -750,
            -749,
        ),
    )?;
    told(
        rt,
        "span, u 2201, y 2164 to 2195, the greatest at neither end: 4805 to 4806",
        span_is(
            Limits {
                u: (2_201, 2_201),
                y: (2_164, 2_195),
            },
            4_805,
            4_806,
        ),
    )?;
    Ok(())
}

fn refused_spans(rt: &impl Print) -> io::Result<()> {
    told(
        rt,
        "span, y turned, y 8861 to 8860: refused 41",
        span_refused(
            Limits {
                u: (73_300, 73_300),
                y: (8_861, 8_860),
            },
            41,
        ),
    )?;
    told(
        rt,
        "span, u turned, u 73301 to 73300: refused 41",
        span_refused(
            Limits {
                u: (73_301, 73_300),
                y: (8_860, 8_860),
            },
            41,
        ),
    )?;
    told(
        rt,
        "span, y 8860 to 9061: refused 42",
        span_refused(
            Limits {
                u: (73_300, 73_300),
                y: (8_860, 9_061),
            },
            42,
        ),
    )?;
    told(
        rt,
        "span, y 1999 to 2001: refused 1",
        span_refused(
            Limits {
                u: (20_000, 20_000),
                y: (1_999, 2_001),
            },
            1,
        ),
    )?;
    told(
        rt,
        "span, y 500000 to 500001: refused 2",
        span_refused(
            Limits {
                u: (900_000, 900_000),
                y: (500_000, 500_001),
            },
            2,
        ),
    )?;
    told(
        rt,
        "span, u to 1000000001: refused 3",
        span_refused(
            Limits {
                u: (900_000, 1_000_000_001),
                y: (2_000, 2_000),
            },
            3,
        ),
    )?;
    told(
        rt,
        "span, u 2001 to 2002, y 2000 to 2001: refused 4",
        span_refused(
            Limits {
                u: (2_001, 2_002),
                y: (2_000, 2_001),
            },
            4,
        ),
    )?;
    told(
        rt,
        "span, u turned and all else wrong: refused 41",
        span_refused(
            Limits {
                u: (4_294_967_295, 1_000_000_001),
                y: (0, 4_294_967_295),
            },
            41,
        ),
    )?;
    Ok(())
}

pub fn spans(rt: &impl Print) -> io::Result<()> {
    answered_spans(rt)?;
    refused_spans(rt)
}
