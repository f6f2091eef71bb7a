//! The points of a table: the minutes at which a profile can change, and by how much it does.
ghost use Rattle.std.specs.Prelude.{◌≡◌, ◌*◌, ◌<◌, ◌≤◌, true, List, ◌∷◌, ◌++◌, length, map, slice_set};
ghost use Rattle.std.specs.List.{AllByRecursion};
ghost use Rattle.lots.specs.Limits.{max_capacity, max_lots};
ghost use Rattle.lots.specs.Tables.{LawfulLot};
ghost use Rattle.lots.specs.declared.Lot.{Lot};
ghost use Rattle.elastic.specs.Profile.{has, minutes};
ghost use Rattle.elastic.specs.Private.Points.{at_est, at_ect, at_lct, Small, Entered, Gathers, Profiles, point_at, changed_point, unchanging_point, no_point, minutes_of, max_points, HasMinute, KnowsLot, HasPlaces, HavePlaces};

use lots::{Lot, MAX_LOTS, Table};
use row::{ArrayRow, Keyed, Place};

// At most the est, the ect and the lct.
const POINTS_OF_A_LOT: usize = 3;

/// The most points of a table.
pub(crate) const MAX_POINTS: usize = POINTS_OF_A_LOT * MAX_LOTS;

/// A minute, and by how much the available and the required trays change at it.
#[derive(Clone, Copy, Default)]
pub(crate) struct Point {
    /// The minute.
    pub(crate) minute: u16,
    /// By how many trays more can be in use from it on.
    pub(crate) available: i32,
    /// By how many trays more are required from it on.
    pub(crate) required: i32,
}

impl Point {
    // At this minute nothing changes.
    fn unchanging(minute: u16) -> Point
        ensures answer { result ≡ record no_point { minute = minute } }
    {
        Point {
            minute,
            available: 0,
            required: 0,
        }
    }

    // From its est on, a lot's trays are available and required.
    fn at_est(lot: &Lot) -> Point
        ensures answer { result ≡ at_est lot.now }
    {
        let c = i32::from(lot.c);
        Point {
            minute: lot.est,
            available: c,
            required: c,
        }
    }

    // From its ect on, they are required no more.
    fn at_ect(lot: &Lot) -> Point
        requires lawful { LawfulLot max_capacity lot.now }
        ensures answer { result ≡ at_ect lot.now }
    {
        Point {
            minute: lot.est + lot.p,
            available: 0,
            required: -i32::from(lot.c),
        }
    }

    // From its lct on, they are available no more.
    fn at_lct(lot: &Lot) -> Point
        ensures answer { result ≡ at_lct lot.now }
    {
        Point {
            minute: lot.lct,
            available: -i32::from(lot.c),
            required: 0,
        }
    }

    // Adds the two changes of another point to those of this one.
    fn add(&mut self, change: Point)
        requires small { (Small (max_capacity * max_points) self.old)
            × (Small max_capacity change) }
        ensures after { self.new ≡ changed_point self.old change }
    {
        self.available += change.available;
        self.required += change.required;
    }
}

impl Keyed for Point {
    type Key = u16;

    ghost keyed = { λ p. p.minute };

    fn key(&self) -> u16 {
        self.minute
    }
}

// Takes the changes out of some points.
fn still(points: &mut [Point])
    ensures after { points.new ≡ map unchanging_point points.old }
{
    for point in points.iter_mut() {
        *point = Point::unchanging(point.minute);
    }
}

/// Where the est, the ect and the lct of a lot stand among the points.
#[derive(Clone, Copy, Default)]
pub(crate) struct Places {
    /// The place of its est.
    pub(crate) est: usize,
    /// The place of its ect.
    pub(crate) ect: usize,
    /// The place of its lct.
    pub(crate) lct: usize,
}

/// The points of a table, one for each minute at which a profile of its lots can change, with the
/// changes of the lots that were added.
#[derive(Drop)]
pub(crate) struct Points {
    row: ArrayRow<Point, MAX_POINTS>,
}

impl Points {
    /// The points of a table, with the changes of all its lots.
    pub(crate) fn of(table: Table<'_>) -> Points
        ensures profiles { let T = table.entry.lots.now in Profiles result.row T T }
    {
        let mut points = Points {
            row: ArrayRow::new(),
        };
        for lot in table.lots {
            points.enter(Point::at_est(lot));
            points.enter(Point::at_ect(lot));
            points.enter(Point::at_lct(lot));
        }
        points
    }

    /// The points, in the order of their minutes.
    pub(crate) fn as_slice(&self) -> &[Point]
        ensures points { result.now ≡ self.now.row }
    {
        self.row.as_slice()
    }

    // Adds a change to the point at the place i, where that lies. Its minute stays, so the row
    // still ascends.
    fn alter(&mut self, i: usize, change: Point)
        requires within { i < length self.old.row }
        requires few { length self.old.row ≤ max_points }
        requires small { Small (max_capacity * max_points) (point_at self.old.row i) }
        requires small_change { Small max_capacity change }
        ensures after { let altered = changed_point (point_at self.old.row i) change in
            self.new.row ≡ slice_set self.old.row i altered }
    {
        let row = &mut self.row;
        let point = &mut row.cells[i];
        point.add(change);
    }

    // Enters a change: as a point of its own, or with the changes of the point that its minute has.
    fn enter(&mut self, change: Point)
        requires free { length self.old.row < max_points }
        requires small { AllByRecursion (Small (max_capacity * max_points)) self.old.row }
        requires small_change { Small max_capacity change }
        ensures after { Entered self.old.row change self.new.row }
    {
        match self.row.put(change) {
            Place::Placed(_) => {}
            Place::Present(i) => self.alter(i, change),
            Place::Full => unreachable(),
        }
    }

    // The place of the point of a minute: the row says where its key stands.
    fn place_of(&mut self, minute: u16) -> usize
        requires known { has minute (minutes_of self.old.row) ≡ true }
        ensures same { self.new.row ≡ self.old.row }
        ensures place { HasMinute (minutes_of self.old.row) result minute }
    {
        match self.row.put(Point::unchanging(minute)) {
            Place::Present(i) => i,
            Place::Placed(_) => unreachable(),
            Place::Full => unreachable(),
        }
    }

    // Where the minutes of a lot stand.
    fn places_of(&mut self, lot: &Lot) -> Places
        requires lawful { LawfulLot max_capacity lot.now }
        requires known { KnowsLot (minutes_of self.old.row) lot.now }
        ensures same { self.new.row ≡ self.old.row }
        ensures places { HasPlaces (minutes_of self.old.row) lot.now result }
    {
        Places {
            est: self.place_of(lot.est),
            ect: self.place_of(lot.est + lot.p),
            lct: self.place_of(lot.lct),
        }
    }

    /// Where the minutes of each lot of a table stand, by number.
    pub(crate) fn places(&mut self, table: Table<'_>) -> [Places; MAX_LOTS]
        requires gathers { Gathers self.old.row (minutes table.lots.now) }
        ensures same { self.new.row ≡ self.old.row }
        ensures places { HavePlaces (minutes_of self.old.row) table.entry.lots.now result }
    {
        let mut places = [Places::default(); MAX_LOTS];
        for (number, lot) in table.lots.iter().enumerate() {
            places[number] = self.places_of(lot);
        }
        places
    }

    /// Takes out the changes of all lots. The points stay.
    pub(crate) fn clear(&mut self)
        ensures after { self.new.row ≡ map unchanging_point self.old.row }
    {
        // The cells past the last point are left alone: a few lots have few points.
        let count = self.row.as_slice().len();
        let row = &mut self.row;
        still(&mut row.cells[..count]);
    }

    /// Enters the changes of a lot, whose minutes stand at these places.
    pub(crate) fn add(&mut self, places: Places, lot: &Lot)
        requires lawful { LawfulLot max_capacity lot.now }
        requires few { length self.old.row ≤ max_points }
        requires places { HasPlaces (minutes_of self.old.row) lot.now places }
        requires profile { (T Ω : List Lot) × (length Ω < max_lots) × Profiles self.old.row T Ω }
        ensures minutes { minutes_of self.new.row ≡ minutes_of self.old.row }
        ensures after { (T Ω Ψ : List Lot)
            → Profiles self.old.row T (Ω ++ Ψ) → Profiles self.new.row T (Ω ++ lot.now ∷ Ψ) }
    {
        self.alter(places.est, Point::at_est(lot));
        self.alter(places.ect, Point::at_ect(lot));
        self.alter(places.lct, Point::at_lct(lot));
    }
}
