//! A walk along the points of a profile, with what is left over at each of them.
ghost use Rattle.std.specs.Prelude.{◌≡◌, ◌+◌, ◌-◌, ◌*◌, ◌<◌, ◌≤◌, min, ℕ, List, length, pos, ◌+ℤ◌, ◌≤ℤ◌};
ghost use Rattle.lots.specs.Limits.{horizon, max_capacity, max_lots};
ghost use Rattle.lots.specs.Tables.{Lawful};
ghost use Rattle.lots.specs.declared.Lot.{Lot as AnyLot};
ghost use Rattle.elastic.specs.declared.points.Point.{Point as AnyPoint};
ghost use Rattle.elastic.specs.Profile.{creq, overflow, IsGreatest};
ghost use Rattle.elastic.specs.Private.Points.{minutes_of, point_at, Profiles};
ghost use Rattle.elastic.specs.Private.Walks.{usable, rest, Stands, Walks, Course, Known};

use crate::points::Point;

/// A lot beside those of a profile, which keeps some trays until a minute: up to then so many fewer
/// can be in use.
#[derive(Clone, Copy, Default)]
pub(crate) struct StandIn {
    /// The trays that it keeps.
    pub(crate) trays: u16,
    /// The minute at which it is out.
    pub(crate) until: u16,
}

/// How far a walk has come: the minute of the last point that it has passed, the trays that are
/// available and required from there on, and the work that is left over there. Before the first
/// point all are 0.
#[derive(Clone, Copy, Default)]
pub(crate) struct State {
    /// The minute.
    pub(crate) minute: u16,
    /// The available trays.
    pub(crate) available: u32,
    /// The required trays.
    pub(crate) required: u32,
    /// What is left over, in trays times minutes.
    pub(crate) left: u32,
}

impl State {
    // What is left over at the minute of the next point. Up to there the available and the required
    // trays stay as they are.
    fn left_by(self, minute: u16, capacity: u16, beside: StandIn) -> u32
        requires walk { (T Ω : List AnyLot) × (ps : List AnyPoint) × (j : ℕ)
            × Walks capacity beside.trays beside.until T Ω ps j self
            × ((point_at ps j).minute ≡ minute) }
        ensures answer { (T Ω : List AnyLot) (ps : List AnyPoint) (j : ℕ)
            → Walks capacity beside.trays beside.until T Ω ps j self
            → (point_at ps j).minute ≡ minute
            → result ≡ rest (usable capacity beside.trays beside.until) Ω minute }
    {
        let StandIn { trays, until } = beside;
        if minute <= until {
            return self.left_after(self.left, minute - self.minute, capacity - trays);
        }
        if until <= self.minute {
            return self.left_after(self.left, minute - self.minute, capacity);
        }
        let left = self.left_after(self.left, until - self.minute, capacity - trays);
        self.left_after(left, minute - until, capacity)
    }

    // What is left over after a span of minutes, of what is left before it, where so many trays can
    // be in use.
    fn left_after(self, left: u32, span: u16, usable: u16) -> u32
        requires left_few { left ≤ max_capacity * max_lots * horizon }
        requires span_short { span ≤ horizon }
        requires available_few { self.available ≤ max_capacity * max_lots }
        requires required_few { self.required ≤ max_capacity * max_lots }
        ensures answer { let available = min self.available usable in
            result ≡ (left + span * self.required) - span * available }
    {
        let span = u32::from(span);
        (left + span * self.required).saturating_sub(span * self.available.min(u32::from(usable)))
    }

    /// Past the next point, where so many trays can be in use beside another lot.
    pub(crate) fn past(self, point: Point, capacity: u16, beside: StandIn) -> State
        requires walk { (T Ω : List AnyLot) × (ps : List AnyPoint) × (j : ℕ)
            × Walks capacity beside.trays beside.until T Ω ps j self × (point_at ps j ≡ point) }
        ensures answer { (T Ω : List AnyLot) (ps : List AnyPoint) (j : ℕ)
            → Walks capacity beside.trays beside.until T Ω ps j self
            → point_at ps j ≡ point
            → Stands (usable capacity beside.trays beside.until)
            Ω (minutes_of ps) (j + 1) result }
    {
        State {
            minute: point.minute,
            available: changed(self.available, point.available),
            required: changed(self.required, point.required),
            left: self.left_by(point.minute, capacity, beside),
        }
    }
}

/// What is left over at the last of the points of a table, with the changes of all its lots.
pub(crate) fn left_over(points: &[Point], capacity: u16) -> u32
    requires course { (T : List AnyLot) × Course capacity 0 T T points.now }
    ensures answer { (T : List AnyLot) → Course capacity 0 T T points.now
        → result ≡ overflow capacity T }
{
    let mut state = State::default();
    for point in points {
        state = state.past(*point, capacity, StandIn::default());
    }
    state.left
}

/// Goes on from the state after `from` points to that after `to`, and keeps the state after each.
pub(crate) fn walk_on(
    points: &[Point],
    states: &mut [State],
    from: usize,
    to: usize,
    capacity: u16,
    beside: StandIn,
)
    requires places { (from ≤ to) × (to ≤ length points.now) × (to < length states.old) }
    requires course { (T Ω : List AnyLot) × Course capacity beside.trays T Ω points.now
        × Known (usable capacity beside.trays beside.until) Ω (minutes_of points.now)
        states.old from }
    ensures known { (T Ω : List AnyLot) → Course capacity beside.trays T Ω points.now
        → Known (usable capacity beside.trays beside.until) Ω (minutes_of points.now)
        states.old from
        → Known (usable capacity beside.trays beside.until) Ω (minutes_of points.now)
        states.new to }
{
    let mut state = states[from];
    for place in from..to {
        state = state.past(points[place], capacity, beside);
        states[place + 1] = state;
    }
}

/// The most trays that are required from one of these points on, and 0 without points.
pub(crate) fn most_required(points: &[Point]) -> u32
    requires profile { (T Ω : List AnyLot) × Lawful max_capacity Ω × Profiles points.now T Ω }
    ensures greatest { (T Ω : List AnyLot) → Lawful max_capacity Ω → Profiles points.now T Ω
        → IsGreatest (creq Ω) result }
{
    let mut required = 0;
    let mut most = 0;
    for point in points {
        required = changed(required, point.required);
        most = required.max(most);
    }
    most
}

// A number of trays after a change.
fn changed(trays: u32, change: i32) -> u32
    requires trays_few { trays ≤ max_capacity * max_lots }
    requires not_below { pos 0 ≤ℤ (pos trays +ℤ change) }
    requires not_above { (pos trays +ℤ change) ≤ℤ pos (max_capacity * max_lots) }
    ensures answer { pos result ≡ pos trays +ℤ change }
{
    (trays as i32 + change) as u32
}
