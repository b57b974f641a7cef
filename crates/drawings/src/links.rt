// What stands between boxes: a transaction from its begin to its end and to its outcome, and what a
// conflict came from. Called by `schedule`.
use crate::event::{Act, Event, Lane, Outcome};
use crate::lanes::{Lanes, ROW, WIDTH, left_of, top_of};
use std::alloc::{AllocError, Global};
use std::fmt::Write;

// A submitted transaction: its version, whose it is, and the row of its step.
#[derive(Clone, Copy, Drop)]
struct Submission {
    version: u64,
    client: u64,
    row: usize,
}

// What is open at a row: where each client's transaction began, and what was submitted; and how many
// of these have an outcome.
#[derive(Drop)]
struct Course {
    begun: Vec<(u64, usize)>,
    submissions: Vec<Submission>,
    reported: usize,
}

// The middle of a row.
fn middle_of(row: usize) -> usize {
    top_of(row).saturating_add(ROW / 2)
}

// Writes a line down a lane, from one row to another one.
fn push_down(
    svg: &mut String,
    class: &str,
    x: usize,
    from: usize,
    to: usize,
) -> Result<(), AllocError> {
    let (begin, end) = (middle_of(from), middle_of(to));
    writeln!(svg, "<path class=\"{class}\" d=\"M{x} {begin}V{end}\"/>")
}

// Writes the line from where a version was submitted to what it refused.
fn push_cause(
    svg: &mut String,
    lanes: &Lanes,
    cause: Submission,
    client: u64,
    row: usize,
) -> Result<(), AllocError> {
    let (from, _) = lanes.places_of(Lane::Client(cause.client));
    let (to, _) = lanes.places_of(Lane::Client(client));
    let from_x = if from < to {
        left_of(from).saturating_add(WIDTH)
    } else {
        left_of(from)
    };
    let to_x = if from < to {
        left_of(to)
    } else {
        left_of(to).saturating_add(WIDTH)
    };
    let (from_y, to_y) = (middle_of(cause.row), middle_of(row));
    writeln!(
        svg,
        "<path class=\"cause\" marker-end=\"url(#arrow)\" d=\"M{from_x} {from_y}L{to_x} {to_y}\"/>"
    )
}

impl Course {
    // Ends a client's transaction, and answers where it began.
    fn end(&mut self, client: u64) -> Option<usize> {
        let place = self.begun.iter().position(|(one, _)| *one == client)?;
        let (_, row) = self.begun.swap_remove(place);
        Some(row)
    }

    // Writes what an outcome of a row is linked with.
    fn push_outcome(
        &mut self,
        svg: &mut String,
        lanes: &Lanes,
        row: usize,
        outcome: &Outcome,
    ) -> Result<(), AllocError> {
        let (place, _) = lanes.places_of(Lane::Client(outcome.client));
        if let Some(submission) = self.submissions.get(self.reported) {
            let x = left_of(place).saturating_add(WIDTH / 2);
            push_down(svg, "waits", x, submission.row, row)?;
        }
        self.reported = self.reported.saturating_add(1);
        let seen = outcome.seen;
        let cause = self
            .submissions
            .iter()
            .find(|one| Some(one.version) == seen);
        if let Some(cause) = cause {
            push_cause(svg, lanes, *cause, outcome.client, row)?;
        }
        Ok(())
    }

    // Writes what a client's step of a row is linked with.
    fn push_client(
        &mut self,
        svg: &mut String,
        lanes: &Lanes,
        row: usize,
        client: u64,
        act: &Act,
    ) -> Result<(), AllocError> {
        match act {
            Act::Begin => self.begun.push((client, row))?,
            Act::Submit(_) | Act::End => {
                if let Some(begin) = self.end(client) {
                    let (place, _) = lanes.places_of(Lane::Client(client));
                    push_down(svg, "open", left_of(place).saturating_add(3), begin, row)?;
                }
            }
            _ => {}
        }
        if let Act::Submit(version) = act {
            self.submissions.push(Submission {
                version: *version,
                client,
                row,
            })?;
        }
        Ok(())
    }

    // Writes what a row is linked with.
    fn push_row(
        &mut self,
        svg: &mut String,
        lanes: &Lanes,
        row: usize,
        event: &Event,
    ) -> Result<(), AllocError> {
        match (&event.act, event.lane) {
            (Act::Work(outcomes), _) => {
                for outcome in outcomes {
                    self.push_outcome(svg, lanes, row, outcome)?;
                }
                Ok(())
            }
            (act, Lane::Client(client)) => self.push_client(svg, lanes, row, client, act),
            _ => Ok(()),
        }
    }
}

/// Writes what stands between boxes.
pub(crate) fn push_links(
    alloc: Global,
    svg: &mut String,
    lanes: &Lanes,
    events: &[Event],
) -> Result<(), AllocError> {
    let mut course = Course {
        begun: Vec::new(alloc),
        submissions: Vec::new(alloc),
        reported: 0,
    };
    for (row, event) in events.iter().enumerate() {
        course.push_row(svg, lanes, row, event)?;
    }
    for (client, begin) in &course.begun {
        let (place, _) = lanes.places_of(Lane::Client(*client));
        let x = left_of(place).saturating_add(3);
        push_down(svg, "open", x, *begin, events.len())?;
    }
    Ok(())
}
