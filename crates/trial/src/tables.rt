//! The tables that are tried.
ghost use Rattle.std.specs.Prelude.{◌≤◌};

use crate::schedules::{Starts, schedules};
use lots::{HORIZON, Lot};
use rand::RngExt;
use rand_pcg::Pcg32;
use std::alloc::{AllocError, Global};
use std::fmt;

/// The most lots of a table. Each number from none on comes as often as the others.
pub const MOST_LOTS: usize = 4;

const MOST_CAPACITY: u16 = 4;
// The longest run, in minutes.
const MOST_RUN: u16 = 5;
// The most minutes that a window is longer than its run.
const MOST_ROOM: u16 = 5;
// The most minutes that a window begins, or at the end of the week ends, away from where the table
// is.
const MOST_AWAY: u16 = 7;

const MIDWEEK: u16 = HORIZON / 2;

// Where in the week a table is.
#[derive(Clone, Copy)]
enum Place {
    Start,
    Middle,
    End,
}

impl Place {
    // Each place as often as the others.
    fn of(number: usize) -> Place {
        match number / (MOST_LOTS + 1) % 3 {
            0 => Place::Start,
            1 => Place::Middle,
            _ => Place::End,
        }
    }
}

fn lot(random: &mut Pcg32, place: Place, capacity: u16) -> Lot
    requires tray { 1 ≤ capacity }
{
    let away = random.random_range(0..=MOST_AWAY);
    let p = random.random_range(1..=MOST_RUN);
    let c = random.random_range(1..=capacity);
    let length = p + random.random_range(0..=MOST_ROOM);
    let est = match place {
        Place::Start => away,
        Place::Middle => MIDWEEK + away,
        Place::End => HORIZON - away - length,
    };
    Lot {
        est,
        lct: est + length,
        p,
        c,
    }
}

/// A table, with every schedule of it.
#[derive(Drop)]
pub struct Sample {
    pub capacity: u16,
    pub lots: Vec<Lot>,
    pub schedules: Vec<Starts>,
}

impl Sample {
    /// The sample of this number.
    pub fn random(heap: Global, random: &mut Pcg32, number: usize) -> Result<Sample, AllocError> {
        let capacity = random.random_range(1..=MOST_CAPACITY);
        let mut lots = Vec::new(heap);
        for _ in 0..number % (MOST_LOTS + 1) {
            lots.push(lot(random, Place::of(number), capacity))?;
        }
        let schedules = schedules(heap, capacity, lots.as_slice())?;
        Ok(Sample {
            capacity,
            lots,
            schedules,
        })
    }
}

impl fmt::Display for Sample {
    fn fmt<W: fmt::Write>(&self, f: &mut fmt::Formatter<W>) -> fmt::Result {
        let capacity = self.capacity;
        write!(f, "C {capacity}")?;
        for lot in &self.lots {
            let Lot { est, lct, p, c } = *lot;
            write!(f, " {est},{lct},{p},{c}")?;
        }
        Ok(())
    }
}
