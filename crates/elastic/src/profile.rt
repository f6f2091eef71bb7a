//! The elastic profile of some lots of a table, and the work that is left over in it.
ghost use Rattle.std.specs.Prelude.{◌≡◌, ◌+◌, ◌<◌, ◌≤◌, ℕ, false, ◌&&◌, ◌||◌, ◌==◌, nat_lt, List, [], ◌∷◌, ◌++◌, length, slice_index};
ghost use Rattle.lots.specs.Tables.{lot_at};
ghost use Rattle.elastic.specs.Private.Counted.{Counted, IsDistinct};
ghost use Rattle.elastic.specs.Private.Points.{minutes_of, max_points, HavePlaces, Profiles};
ghost use Rattle.elastic.specs.Private.Walks.{usable, reached, Known};
ghost use Rattle.elastic.specs.Profile.{creq, latest, minutes, overflow, points as points_of, IsGreatest};
ghost use Rattle.elastic.specs.Overflow.{left_over, point_count};
ghost use Rattle.elastic.specs.Marked.{marked_lots, stand_in};
ghost use Rattle.std.proofs.Props.{props};

use crate::points::{MAX_POINTS, Places, Points};
use crate::walk::{StandIn, State, most_required, walk_on};
use lots::{MAX_LOTS, Table};

// One before the first point, and one at each.
const MAX_STATES: usize = MAX_POINTS + 1;

// The points that the added lots have, by place, and how many these are.
#[derive(Clone, Copy)]
struct PointCount {
    marks: [bool; MAX_POINTS],
    count: usize,
}

impl PointCount {
    // No point.
    fn none() -> PointCount
        ensures answer { (us : List ℕ) → Counted us [] result.marks result.count }
    {
        PointCount {
            marks: [false; MAX_POINTS],
            count: 0,
        }
    }

    // Counts the point of a place, unless it is counted.
    fn add(&mut self, place: usize)
        requires within { place < max_points }
        requires few { self.old.count < max_points }
        ensures more { self.new.count ≤ self.old.count + 1 }
        ensures after { (us ts ts' : List ℕ) → IsDistinct us → place < length us
            → Counted us (ts ++ ts') self.old.marks self.old.count
            → Counted us (ts ++ slice_index us place ∷ ts') self.new.marks self.new.count }
    {
        if !self.marks[place] {
            self.marks[place] = true;
            self.count += 1;
        }
    }
}

/// The profile of some lots of a table: of those that were added (docs/RULES.md, "The elastic
/// profile"). It lies over the points of the whole table; a point that no added lot has changes
/// nothing.
#[derive(Drop)]
pub struct Profile<'a> {
    table: Table<'a>,
    added: [bool; MAX_LOTS],
    points: Points,
    places: [Places; MAX_LOTS],
    counted: PointCount,
    // The states of the last walk, by the number of points passed. Those up to `fresh` still hold;
    // from `reach` on no added lot has a point.
    states: [State; MAX_STATES],
    beside: StandIn,
    fresh: usize,
    reach: usize,
    // After each `by` stands why it has one proof at most, as a ghost field must.
    ghost profiles: { Profiles points.row table.lots.now
        (marked_lots added table.lots.now) } by { Prim.hlevel props },
    ghost placed: { HavePlaces (minutes_of points.row)
        table.lots.now places } by { Prim.hlevel props },
    ghost counts: { Counted (minutes_of points.row) (minutes (marked_lots added table.lots.now))
        counted.marks counted.count } by { Prim.hlevel props },
    ghost fits: { beside.trays ≤ table.capacity },
    ghost known: { Known (usable table.capacity beside.trays beside.until)
        (marked_lots added table.lots.now) (minutes_of points.row)
        states fresh } by { Prim.hlevel props },
    ghost some_fresh: { fresh ≤ reach },
    ghost within: { reach ≤ length points.row },
    ghost past_all: { latest (marked_lots added table.lots.now)
        ≤ reached (minutes_of points.row) reach },
}

impl<'a> Profile<'a> {
    ghost use Rattle.elastic.specs.Added.{table_of, marks_of, is_added, added_lots};

    /// The profile of none of the table's lots.
    pub fn new(table: Table<'a>) -> Profile<'a>
        ensures table { table_of result ≡ table.entry }
        ensures none { (k : ℕ) → is_added result k ≡ false }
    {
        let mut points = Points::of(table);
        let places = points.places(table);
        points.clear();
        Profile {
            table,
            added: [false; MAX_LOTS],
            points,
            places,
            counted: PointCount::none(),
            states: [State::default(); MAX_STATES],
            beside: StandIn::default(),
            fresh: 0,
            reach: 0,
        }
    }

    /// The profile of all lots of the table.
    pub fn of(table: Table<'a>) -> Profile<'a>
        ensures table { table_of result ≡ table.entry }
        ensures all { added_lots result ≡ table.entry.lots.now }
    {
        let mut profile = Profile::new(table);
        for number in 0..table.lots.len() {
            profile.add(number);
        }
        profile
    }

    /// Takes all lots out again, so that it is as new.
    pub fn clear(&mut self)
        ensures table { table_of self.new ≡ table_of self.old }
        ensures none { (k : ℕ) → is_added self.new k ≡ false }
    {
        self.added = [false; MAX_LOTS];
        self.points.clear();
        self.counted = PointCount::none();
        self.fresh = 0;
        self.reach = 0;
    }

    /// Adds the lot of a number, from 0. Where no lot has this number, or its lot was added before,
    /// nothing changes.
    pub fn add(&mut self, number: usize)
        ensures table { table_of self.new ≡ table_of self.old }
        ensures added { let is_lot = nat_lt number (length (table_of self.old).lots.now) in
            (k : ℕ) → is_added self.new k ≡ (is_added self.old k || (k == number && is_lot)) }
    {
        let lots = self.table.lots;
        if number < lots.len() && !self.added[number] {
            let places = self.places[number];
            self.added[number] = true;
            self.points.add(places, &lots[number]);
            self.counted.add(places.lct);
            self.counted.add(places.ect);
            self.counted.add(places.est);
            // The walk goes on from its est, since nothing changes before.
            self.fresh = self.fresh.min(places.est);
            self.reach = self.reach.max(places.lct + 1);
        }
    }

    // The trays of the lot of a number, and none where there is no such lot.
    fn trays(&self, number: usize) -> u16
        ensures answer { result ≡ (lot_at (table_of self.now).lots.now number).c }
    {
        self.table.lots.get(number).map_or(0, |lot| lot.c)
    }

    // How many of the first `fresh` points lie at or before a minute.
    fn passed_by(&self, minute: u16) -> usize
        ensures few { result ≤ self.now.fresh }
        ensures by { reached (minutes_of self.now.points.row) result ≤ minute }
        ensures no_more { (j : ℕ) → result < j → j ≤ self.now.fresh
            → minute < reached (minutes_of self.now.points.row) j }
    {
        let mut passed = self.fresh;
        while passed > 0 && self.states[passed].minute > minute {
            passed -= 1;
        }
        passed
    }

    // How many points a walk beside another lot has passed as the last one did. Where it keeps as
    // many trays, the two are the same until the first of the two lots is out.
    fn fresh_beside(&self, beside: StandIn) -> usize
        ensures few { result ≤ self.now.fresh }
        ensures known { Known (usable (table_of self.now).capacity beside.trays beside.until)
            (added_lots self.now) (minutes_of self.now.points.row) self.now.states result }
    {
        let last = self.beside;
        if beside.trays != last.trays {
            return 0;
        }
        if beside.until == last.until {
            return self.fresh;
        }
        self.passed_by(beside.until.min(last.until))
    }

    // What is left over at the last point, beside another lot.
    fn walk(&mut self, beside: StandIn) -> u32
        requires fits { beside.trays ≤ (table_of self.old).capacity }
        ensures table { table_of self.new ≡ table_of self.old }
        ensures added { marks_of self.new ≡ marks_of self.old }
        ensures counted { self.new.counted ≡ self.old.counted }
        ensures answer { let some = added_lots self.old in
            result ≡ overflow (table_of self.old).capacity
            (some ++ stand_in beside.trays beside.until some) }
    {
        self.fresh = self.fresh_beside(beside);
        self.beside = beside;
        walk_on(
            self.points.as_slice(),
            &mut self.states,
            self.fresh,
            self.reach,
            self.table.capacity,
            beside,
        );
        self.fresh = self.reach;
        self.states[self.reach].left
    }

    /// The overflow of the lots that were added, in trays times minutes, and the number of points.
    /// What was found at each point is kept, so the next call walks only from the first change on.
    pub fn overflow(&mut self) -> (u32, usize)
        ensures table { table_of self.new ≡ table_of self.old }
        ensures added { marks_of self.new ≡ marks_of self.old }
        ensures left { left_over result
            ≡ overflow (table_of self.old).capacity (added_lots self.old) }
        ensures points { point_count result ≡ points_of (added_lots self.old) }
    {
        (self.walk(StandIn::default()), self.counted.count)
    }

    /// The same beside a stand-in: a lot that keeps the trays of the lot of a number from the
    /// earliest est of the added lots until a minute (docs/RULES.md, "Not-first"). It brings no
    /// points.
    pub fn overflow_beside(&mut self, number: usize, until: u16) -> (u32, usize)
        ensures table { table_of self.new ≡ table_of self.old }
        ensures added { marks_of self.new ≡ marks_of self.old }
        ensures left { let some = added_lots self.old in
            let trays = (lot_at (table_of self.old).lots.now number).c in
            left_over result
            ≡ overflow (table_of self.old).capacity (some ++ stand_in trays until some) }
        ensures points { point_count result ≡ points_of (added_lots self.old) }
    {
        let trays = self.trays(number);
        (self.walk(StandIn { trays, until }), self.counted.count)
    }

    /// The most trays that the lots that were added require at one minute, if each starts at its
    /// est.
    pub fn most_required(&self) -> u32
        ensures greatest { IsGreatest (creq (added_lots self.now)) result }
    {
        most_required(self.points.as_slice())
    }
}
