// The lanes of a drawing, and where they stand. Called by `schedule` and `links`.
use crate::event::{Event, Lane};
use std::alloc::{AllocError, Global};
use std::fmt::Write;

// Sizes in pixels: of a lane and of what is between two, of the numbers of steps before them, of the
// head above them and of a row.
pub(crate) const WIDTH: usize = 250;

pub(crate) const GAP: usize = 14;

const NUMBERS: usize = 44;

const HEAD: usize = 44;

pub(crate) const ROW: usize = 46;

/// The lanes of a drawing, from the left to the right: clients by their numbers, then roles.
#[derive(Drop)]
pub(crate) struct Lanes {
    lanes: Vec<Lane>,
}

// What the lanes of roles are, in their order.
static ROLES: [Lane; 4] = [Lane::Resolvers, Lane::Logs, Lane::Servers, Lane::Reports];

// Whether a step is in a lane.
fn has(events: &[Event], lane: Lane) -> bool {
    events.iter().any(|event| event.lane == lane)
}

// The lanes of clients, by their numbers.
fn clients_of(alloc: Global, events: &[Event]) -> Result<Vec<Lane>, AllocError> {
    let mut numbers = Vec::new(alloc);
    for event in events {
        if let Lane::Client(client) = event.lane {
            if !numbers.as_slice().contains(&client) {
                numbers.push(client)?;
            }
        }
    }
    numbers.sort_unstable();
    let mut lanes = Vec::new(alloc);
    for number in &numbers {
        lanes.push(Lane::Client(*number))?;
    }
    Ok(lanes)
}

impl Lanes {
    /// The lanes in which there are steps.
    pub(crate) fn of(alloc: Global, events: &[Event]) -> Result<Lanes, AllocError> {
        let mut lanes = clients_of(alloc, events)?;
        let clients = lanes.len();
        for role in &ROLES {
            if has(events, *role) {
                lanes.push(*role)?;
            }
        }
        if lanes.len() == clients && has(events, Lane::Roles) {
            lanes.push(Lane::Roles)?;
        }
        Ok(Lanes { lanes })
    }

    /// All of them.
    pub(crate) fn as_slice(&self) -> &[Lane] {
        self.lanes.as_slice()
    }

    // The place of the first lane that is no client's.
    fn first_role(&self) -> usize {
        let found = self
            .lanes
            .iter()
            .position(|lane| !matches!(lane, Lane::Client(_)));
        found.unwrap_or(self.lanes.len())
    }

    /// The places of the first lane and of the last one that a lane is: all roles are each of them.
    pub(crate) fn places_of(&self, lane: Lane) -> (usize, usize) {
        if lane == Lane::Roles {
            return (self.first_role(), self.lanes.len().saturating_sub(1));
        }
        let place = self.lanes.iter().position(|one| *one == lane).unwrap_or(0);
        (place, place)
    }

    /// How wide a drawing of them is.
    pub(crate) fn width(&self) -> usize {
        left_of(self.lanes.len()).saturating_add(GAP)
    }
}

/// The left end of the lane at a place.
pub(crate) fn left_of(place: usize) -> usize {
    place.saturating_mul(WIDTH + GAP).saturating_add(NUMBERS)
}

/// The upper end of a row.
pub(crate) fn top_of(row: usize) -> usize {
    row.saturating_mul(ROW).saturating_add(HEAD)
}

/// Writes what a lane is called.
pub(crate) fn push_name(out: &mut String, lane: Lane) -> Result<(), AllocError> {
    match lane {
        Lane::Client(client) => write!(out, "client {client}"),
        Lane::Resolvers => out.push_str("resolvers"),
        Lane::Logs => out.push_str("logs"),
        Lane::Servers => out.push_str("servers"),
        Lane::Reports => out.push_str("reports"),
        Lane::Roles => out.push_str("all roles"),
    }
}
