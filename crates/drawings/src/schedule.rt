// A schedule as SVG: a lane for each client and each kind of role, a row for each step. Called by
// `recordctl`.
use crate::boxes::{Frame, push_box, push_text_box};
use crate::event::{Act, Event, Lane, Outcome};
use crate::lanes::{GAP, Lanes, WIDTH, left_of, push_name, top_of};
use crate::links::push_links;
use std::alloc::{AllocError, Global};
use std::fmt::Write;

// What the boxes and lines look like.
const STYLE: &str =
    "<style>text{font:12px monospace;white-space:pre}rect{stroke:#5b7aa5;fill:#eef1f5}\
    .read rect{fill:#e3eefb}.write rect{fill:#fdf3d8}.refused rect{fill:#f6f6f6;stroke:#999}\
    .refused text{fill:#777}.good rect{fill:#e2f3e2;stroke:#4f8a4f}\
    .bad rect{fill:#fbe3e1;stroke:#b5413a}.lane{stroke:none;fill:#fafbfc}\
    path{fill:none}.open{stroke:#5b7aa5;stroke-width:5}\
    .waits{stroke:#5b7aa5;stroke-dasharray:3 4}.cause{stroke:#b5413a;stroke-width:1.5}\
    .number{fill:#999}</style>\n\
    <defs><marker id=\"arrow\" markerWidth=\"9\" markerHeight=\"8\" refX=\"8\" refY=\"4\" orient=\"auto\">\
    <path d=\"M0 0L9 4L0 8z\" style=\"fill:#b5413a\"/></marker></defs>\n";

// The class of the box of a step.
fn class_of(act: &Act) -> &'static str {
    match act {
        Act::Read => "read",
        Act::Write => "write",
        Act::Refused => "refused",
        _ => "step",
    }
}

// The class of the box of a client's outcomes.
fn class_of_outcomes(outcomes: &[Outcome], client: u64) -> &'static str {
    let is_bad = outcomes
        .iter()
        .any(|one| one.client == client && one.seen.is_some());
    if is_bad { "bad" } else { "good" }
}

// What a client is told of its outcomes.
fn words_of(alloc: Global, outcomes: &[Outcome], client: u64) -> Result<String, AllocError> {
    let mut words = String::new(alloc);
    let mut separator = "";
    for outcome in outcomes {
        if outcome.client == client {
            words.push_str(separator)?;
            words.push_str(outcome.words.as_str())?;
            separator = "; ";
        }
    }
    Ok(words)
}

// The box of a row in a lane.
fn frame_of(lanes: &Lanes, row: usize, lane: Lane, class: &'static str) -> Frame<'static> {
    let (first, last) = lanes.places_of(lane);
    let (left, end) = (left_of(first), left_of(last).saturating_add(WIDTH));
    Frame {
        row,
        left,
        width: end.saturating_sub(left),
        class,
    }
}

// Writes a box for each client that is told something.
fn push_outcomes(
    alloc: Global,
    svg: &mut String,
    lanes: &Lanes,
    row: usize,
    outcomes: &[Outcome],
) -> Result<(), AllocError> {
    for (place, outcome) in outcomes.iter().enumerate() {
        let client = outcome.client;
        let is_first = outcomes.iter().position(|one| one.client == client) == Some(place);
        if is_first {
            let class = class_of_outcomes(outcomes, client);
            let frame = frame_of(lanes, row, Lane::Client(client), class);
            push_text_box(svg, frame, words_of(alloc, outcomes, client)?.as_str())?;
        }
    }
    Ok(())
}

// Writes the boxes of a row, and its number.
fn push_row(
    alloc: Global,
    svg: &mut String,
    lanes: &Lanes,
    row: usize,
    event: &Event,
) -> Result<(), AllocError> {
    let (base, number) = (top_of(row).saturating_add(24), row.saturating_add(1));
    writeln!(
        svg,
        "<text class=\"number\" x=\"6\" y=\"{base}\">{number}</text>"
    )?;
    let frame = frame_of(lanes, row, event.lane, class_of(&event.act));
    push_box(svg, frame, event.step.as_str(), event.reply.as_str())?;
    match &event.act {
        Act::Work(outcomes) => push_outcomes(alloc, svg, lanes, row, outcomes.as_slice()),
        _ => Ok(()),
    }
}

// Writes the heads of the lanes, and what lies behind their boxes.
fn push_lanes(svg: &mut String, lanes: &Lanes, rows: usize) -> Result<(), AllocError> {
    let height = top_of(rows).saturating_sub(GAP);
    for (place, lane) in lanes.as_slice().iter().enumerate() {
        let (left, text) = (left_of(place), left_of(place).saturating_add(8));
        writeln!(
            svg,
            "<rect class=\"lane\" x=\"{left}\" y=\"{GAP}\" width=\"{WIDTH}\" height=\"{height}\"/>"
        )?;
        write!(svg, "<text x=\"{text}\" y=\"32\">")?;
        push_name(svg, *lane)?;
        svg.push_str("</text>\n")?;
    }
    Ok(())
}

// Writes what stands before the lanes.
fn push_head(svg: &mut String, lanes: &Lanes, rows: usize) -> Result<(), AllocError> {
    let (width, height) = (lanes.width(), top_of(rows).saturating_add(GAP));
    writeln!(
        svg,
        "<svg xmlns=\"http://www.w3.org/2000/svg\" width=\"{width}\" height=\"{height}\" \
        viewBox=\"0 0 {width} {height}\">"
    )?;
    svg.push_str("<title>Steps of clients and roles</title>\n")?;
    svg.push_str(STYLE)
}

/// A drawing of a schedule: a lane for each client and each kind of role that takes a step, a row
/// for each step, the outcome of each submitted transaction in its client's lane, and a line to
/// each conflict from the step that submitted the version which it is with. It is XML whatever the
/// texts are.
pub fn schedule_svg(alloc: Global, events: &[Event]) -> Result<String, AllocError> {
    let lanes = Lanes::of(alloc, events)?;
    let mut svg = String::new(alloc);
    push_head(&mut svg, &lanes, events.len())?;
    push_lanes(&mut svg, &lanes, events.len())?;
    push_links(alloc, &mut svg, &lanes, events)?;
    for (row, event) in events.iter().enumerate() {
        push_row(alloc, &mut svg, &lanes, row, event)?;
    }
    svg.push_str("</svg>\n")?;
    Ok(svg)
}
