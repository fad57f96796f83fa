// Why a line is wrong, with the names of segments and units.
use crate::paths::Paths;
use line_parts::Line;
use plan_draft::Draft;
use plan_text::Wrong;

// The most units on a path.
const MOST: u32 = 16;

// The units above the last that lead from one segment to another: each behind the segment where it is entered, unless that is the first.
fn tell_path(draft: &Draft, one: u32, other: u32, out: &mut Line) {
    let units = draft.units.count().saturating_sub(1);
    let mut first = one;
    for _ in 0..MOST {
        if first == other {
            break;
        }
        let paths = Paths {
            draft,
            units,
            first,
        };
        let Some(step) = paths.first_step(other) else {
            break;
        };
        if first == one {
            out.push(b", and by unit ");
        } else {
            out.push(b", segment ");
            draft.segments.tell(first, out);
            out.push(b", unit ");
        }
        draft.units.tell(step.unit, out);
        first = step.segment;
    }
}

// The last unit is on one segment, and would be on the other, to which the units above lead.
fn tell_two_paths(draft: &Draft, one: u32, other: u32, out: &mut Line) {
    out.push(b"two paths to segment ");
    draft.segments.tell(one, out);
    out.push(b" (29): by unit ");
    draft.units.tell(draft.units.count(), out);
    tell_path(draft, one, other, out);
}

pub fn tell_wrong(draft: &Draft, wrong: Wrong, out: &mut Line) {
    match wrong {
        Wrong::UsedPort(segment) => {
            out.push(b"on segment ");
            draft.segments.tell(segment, out);
            out.push(b" already");
        }
        Wrong::TwoPorts(port) => {
            out.put(format_args!("port {port} of unit "));
            draft.units.tell(draft.units.count(), out);
            out.push(b" is on it already (29)");
        }
        Wrong::TwoPaths { one, other } => tell_two_paths(draft, one, other, out),
        _ => out.put(wrong),
    }
}
