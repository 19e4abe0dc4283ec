//! Laws of findings, each the contract of a function that does nothing.

ghost use Rattle.cl_findings.specs.Laws.{CompletedIsWhole, RefusalIsBorne, RootIsWhole, StandingAnswers, StandingComes, StandingSettles};

/// What stands in a sound state is the answer of its request, and of its reference; a link has come to it where the classes before
/// are prepared (JVMS SE 8, 5.3 to 5.4.3).
pub fn standing_answers()
    ensures request { StandingAnswers }
    ensures reference { StandingSettles }
    ensures link { StandingComes }
{}

/// The refusal of a link's equality that has the lists of all classes before rests on no more than the answer does: it stands
/// wherever it is the answer, whether those classes are prepared or not (JVMS SE 8, 5.3.4, 5.4.2).
pub fn refusal_is_borne()
    ensures { RefusalIsBorne }
{}

/// The class whose record comes next on a path is whole (JVMS SE 8, 5.3.5, steps 3 to 5).
pub fn whole_comes_next()
    ensures completed { CompletedIsWhole }
    ensures root { RootIsWhole }
{}
