//! The search for a best schedule of a table: a tree of ever narrower tables, visited left before
//! right.
#![tactic(auto)]

use lots::MAX_LOTS;

mod explore;
mod load;
mod node;
mod promise;
mod trail;

pub use explore::solve;
pub use promise::each_table_has_one_visit;

/// The cells of a trail that serves every table: n × n + n, for the most lots n (docs/SEARCH.md,
/// "The trail").
pub const MAX_TRAIL: usize = MAX_LOTS * MAX_LOTS + MAX_LOTS;

/// What a search answers (docs/SEARCH.md, "The search"). `nodes` is how many nodes it visited.
#[derive(Clone, Copy, PartialEq, Eq, Debug)]
pub enum Search {
    /// The whole tree was visited, and there is a schedule: a best one has its last lot out at the
    /// minute `end`.
    Best { end: u16, nodes: u32 },
    /// The whole tree was visited, and there is no schedule.
    None { nodes: u32 },
    /// The budget is used up, and a node is unvisited.
    Spent { nodes: u32 },
}
