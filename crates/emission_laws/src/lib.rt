//! What an emit answers, as one least add: a law over the definitions of a history, whatever its facts and its archive
//! are.
#![tactic(auto)]

ghost use Rattle.emission_laws.specs.Laws.{AnswerByLeast};

/// An emit gives the least add of those that wait and may go, by wake, class, rank and ordinal.
pub fn answer_by_least()
    ensures { AnswerByLeast }
{}
