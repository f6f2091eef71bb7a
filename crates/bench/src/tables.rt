//! The tables that are measured.
ghost use Rattle.std.specs.Prelude.{◌≤◌};

use lots::{HORIZON, Lot, MAX_LOTS};
use rand::RngExt;
use rand_pcg::Pcg32;

// The generator's seed and stream are those of its published demonstration.
const SEED: u64 = 42;

const STREAM: u64 = 54;
// The latest est of a short window, in minutes.
const MOST_EST: u16 = 99;
// The shortest and the longest run on short windows, in minutes.
const LEAST_RUN: u16 = 5;

const MOST_RUN: u16 = 14;
// The least and the most minutes that a short window is longer than its run.
const LEAST_ROOM: u16 = 10;

const MOST_ROOM: u16 = 39;

const MOST_TRAYS: u16 = 3;
// How many times as long the windows over the week are as the short ones: as many as fit the week.
const WEEK_SCALE: u16 = HORIZON / (MOST_EST + MOST_RUN + MOST_ROOM);

/// How long the windows are. The tables are the same but for this.
#[derive(Clone, Copy)]
pub enum Windows {
    /// At most 53 minutes each, within the first 152.
    Short,
    /// 66 times as long, and so spread over the week.
    Week,
}

impl Windows {
    // How many minutes one minute of the short windows becomes.
    fn scale(self) -> u16
        ensures bound { result ≤ WEEK_SCALE }
    {
        match self {
            Windows::Short => 1,
            Windows::Week => WEEK_SCALE,
        }
    }
}

// The next lot.
fn lot(random: &mut Pcg32, windows: Windows) -> Lot {
    let scale = windows.scale();
    let est = random.random_range(0..=MOST_EST);
    let p = random.random_range(LEAST_RUN..=MOST_RUN);
    let lct = est + p + random.random_range(LEAST_ROOM..=MOST_ROOM);
    Lot {
        est: est * scale,
        lct: lct * scale,
        p: p * scale,
        c: random.random_range(1..=MOST_TRAYS),
    }
}

/// As many lots as a table may have, of many shapes.
pub fn table(windows: Windows) -> [Lot; MAX_LOTS] {
    let mut random = Pcg32::new(SEED, STREAM);
    let mut lots = [Lot::default(); MAX_LOTS];
    for place in &mut lots {
        *place = lot(&mut random, windows);
    }
    lots
}
