//! What holds of the search of every table, whatever the rule.
ghost use Rattle.tree.specs.Tree.{EveryTree};

/// Does nothing: its contract says of every sound rule that each lawful table has exactly one
/// visit, which is short and finds a best schedule (docs/SEARCH.md, "The tree").
pub fn each_table_has_one_visit()
    ensures every_tree { EveryTree }
{}
