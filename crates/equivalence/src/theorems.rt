//! That comparing is possible, and has one answer: theorems on the contracts of small functions.
ghost use Rattle.equivalence.specs.Compare.{OneAnswer, OneAnswerInNumbers};
ghost use Rattle.equivalence.specs.Laws.{Decided};

/// Whether two circuits are the same is decided.
#[tactic(auto, using(crate::proofs::Scanning::decided))]
pub fn decided_stands() -> u8
    ensures { Decided }
{
    0
}

/// There is one right answer to whether two circuits are the same.
#[tactic(auto, using(crate::proofs::One::one_answer, crate::proofs::One::one_answer_in_numbers))]
pub fn one_answer_stands() -> u8
    ensures gates { OneAnswer }
    ensures numbers { OneAnswerInNumbers }
{
    0
}
