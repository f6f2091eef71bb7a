//! What holds of a plan after every list of calls.
ghost use Rattle.plan.specs.Promise.{Promise};

/// Every plan answers to its book (docs/PLAN.md, "The promise"). The call does nothing: its
/// contract says it.
pub fn plans_answer_to_their_books()
    ensures promise { Promise }
{}
