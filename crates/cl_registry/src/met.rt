//! Which equalities are met, told without the book where that can be (JVMS SE 8, 5.3.4).
//!
//! The equalities of a list are imposed one by one, and each call has to know that all before its own are met. What is met
//! stays met, so that those of the last list are kept: the book, which hashes names, is asked of each of them once.

ghost use Rattle.std.specs.Prelude.{◌≡◌, ◌<◌, IfSome, Some, length, slice_get};
ghost use Rattle.cl_findings.specs.Findings.{Decides};
ghost use Rattle.cl_constraints.specs.Books.{TellsOf};
ghost use Rattle.cl_hierarchy.specs.Imposed.{equal_need, needs_of};
ghost use Rattle.cl_model.specs.States.{AllMet, Met, State};
ghost use Rattle.cl_registry.specs.Imposing.{IsNotedAt, StandsWith};

use cl_constraints::ConstraintBook;
use cl_model::Equality;
use std::alloc::Global;

/// Whether an equality stands at a place of these.
fn stands_at(known: &[Equality], place: usize, equality: &Equality) -> bool
    ensures { Decides result (slice_get known.now place ≡ Some equality.now) }
{
    match known.get(place) {
        Some(it) => it.is_same(equality),
        None => false,
    }
}

/// Whether an equality is met, where these are: one of a loader with itself is, and so is one of these, which is looked for
/// at its place of the list. The book is asked of others.
pub fn is_met<B: ConstraintBook>(
    book: &B,
    known: &[Equality],
    place: usize,
    equality: &Equality,
) -> bool
    ensures { TellsOf (StandsWith (B.stands_for book.now) known.now) result
        (λ s. Met s (equal_need equality.now)) }
{
    if equality.one == equality.other {
        return true;
    }
    if stands_at(known, place, equality) {
        return true;
    }
    book.joined(&equality.name, equality.one, equality.other)
}

/// Whether the first equalities of a list are met, where others are.
pub fn are_met<B: ConstraintBook>(book: &B, known: &[Equality], equalities: &[Equality]) -> bool
    ensures { TellsOf (StandsWith (B.stands_for book.now) known.now) result
        (λ s. AllMet s (needs_of equalities.now)) }
{
    for (place, equality) in equalities.iter().enumerate() {
        if !is_met(book, known, place, equality) {
            return false;
        }
    }
    true
}

/// Keeps the equality at a place of a list, in place of what another list had there and after it, behind those of a loader with
/// itself that nobody asked for. It is left out where one before it was, or where memory is refused: the book is asked of it again.
pub fn note(alloc: Global, known: &mut Vec<Equality>, list: &[Equality], place: usize)
    requires { place < length list.now }
    ensures { (s : State) → AllMet s (needs_of known.old.items)
        → IfSome (slice_get list.now place) (λ e. Met s (equal_need e))
        → AllMet s (needs_of known.new.items) }
{
    for at in known.len()..place {
        let equality = &list[at];
        if equality.one != equality.other {
            return;
        }
        note_at(alloc, known, at, equality);
    }
    note_at(alloc, known, place, &list[place]);
}

/// Keeps the equality at a place of a list, in place of what another list had there and after it.
fn note_at(alloc: Global, known: &mut Vec<Equality>, place: usize, equality: &Equality)
    ensures { IsNotedAt known.old.items place equality.now known.new.items }
{
    if place > known.len() || stands_at(known.as_slice(), place, equality) {
        return;
    }
    let Ok(equality) = equality.try_clone(alloc) else {
        return;
    };
    if known.reserve(1).is_err() {
        return;
    }
    known.truncate(place);
    known.push_reserved(equality);
}
