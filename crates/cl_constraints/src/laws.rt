ghost use Rattle.cl_constraints.specs.Laws.{FollowsSteps, StandsAlike, StaysAfter, UnrefusedMayBeAdded};

use crate::book::ConstraintBook;
use crate::named::Book;
use crate::single::NameBook;

/// A book stands for a state by its records and equalities alone, and so for the state after a reference is settled, a
/// class prepared, an answer posted or a round begun.
pub fn stands_by_tables<N: NameBook + Drop>()
    ensures alike { StandsAlike ⟦<Book<N> as ConstraintBook>⟧.stands_for }
    ensures stays { StaysAfter ⟦<Book<N> as ConstraintBook>⟧.stands_for }
{}

/// A book to which a step's record or equality was added stands for the state after the step.
pub fn stands_after_step<N: NameBook + Drop>()
    ensures { FollowsSteps ⟦<Book<N> as ConstraintBook>⟧.stands_for }
{}

/// A need that is neither met nor refused may be added.
pub fn unrefused_may_be_added()
    ensures { UnrefusedMayBeAdded }
{}
