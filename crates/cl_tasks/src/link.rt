//! A request to link a class that is recorded: each class of its lineage in order, its loading constraints one by one, and
//! then that it is prepared; those that are prepared already, as many as stand first, are passed by one look (JVMS SE 8,
//! 5.4, 5.4.2).

ghost use Rattle.std.specs.Prelude.{◌≡◌, ◌≤◌, Some, IfOk, length, take, true};
ghost use Rattle.cl_hierarchy.specs.Imposed.{IsListed, OfPreparation, needs_of};
ghost use Rattle.cl_model.specs.States.{AllMet, State};
ghost use Rattle.cl_model.specs.Views.{need_of};
ghost use Rattle.cl_model.specs.declared.answer.Answer.TheVariants as answers;
ghost use Rattle.cl_model.specs.declared.verdict.Verdict.TheVariants as verdicts;
ghost use Rattle.cl_tasks.specs.Deriving.{IsPast};
ghost use Rattle.cl_tasks.specs.Follows.{EndsAsRefused, Posts};
ghost use Rattle.cl_tasks.specs.Linking.{ChainTold, CountedTold, DoneTold, LineageTold, ListTold, MarkedTold, PreparedTold, RefusedTold, WholeTold};
ghost use Rattle.cl_tasks.specs.Rooms.{chain_room, counted_room, last_room, linking_room, listed_room, marked_room, prepared_room, whole_room};
ghost use Rattle.cl_tasks.specs.Stages.{IsAtPlace, IsChain, IsGoal, class_in};
ghost use Rattle.cl_tasks.specs.Steps.{IsPlain, LeadsBy, memory_ends};
ghost use Rattle.cl_tasks.specs.Turns.{PostsOr, equality_at, IsOf};

use crate::leads::{out_of_memory, post};
use crate::stage::{Chain, Goal, Link, Next, Stage};
use crate::turn::Turn;
use cl_config::Config;
use cl_findings::Finding;
use cl_hierarchy::{Equalities, Lineage};
use cl_model::{Class, Need, Told};
use cl_preparation::constraints_of;
use std::alloc::{AllocError, Global};
use std::sync::Arc;

/// Whether the class of a request is prepared was looked up.
pub(crate) fn take_prepared<T: Told>(
    alloc: Global,
    config: &Arc<Config>,
    goal: Goal<T>,
    prepared: bool,
) -> Next<T>
    requires goal { IsGoal config.now.value goal }
    ensures leads { LeadsBy T.told config.now.value goal.q goal.request prepared_room
        (PreparedTold goal prepared) result }
    ensures own { prepared ≡ true
        → PostsOr (answers.Said (verdicts.Linked goal.class.value.class)) result.turn }
    ensures plain { IsPlain result.turn }
    ensures past { IsPast result.stage }
{
    if prepared {
        return post_linked(alloc, config, goal);
    }
    match goal.class.class().try_clone(alloc) {
        Err(_) => out_of_memory(goal.q, goal.request),
        Ok(class) => Next {
            stage: Stage::Link(Link::TracingWhole(goal)),
            turn: Turn::Lineage(class),
        },
    }
}

/// The class of a request is prepared, and so all above it.
fn post_linked<T: Told>(alloc: Global, config: &Arc<Config>, goal: Goal<T>) -> Next<T>
    requires goal { IsGoal config.now.value goal }
    ensures leads { LeadsBy T.told config.now.value goal.q goal.request last_room
        (DoneTold goal) result }
    ensures own { PostsOr (answers.Said (verdicts.Linked goal.class.value.class)) result.turn }
    ensures plain { IsPlain result.turn }
    ensures past { IsPast result.stage }
{
    match goal.class.class().try_clone(alloc) {
        Err(_) => out_of_memory(goal.q, goal.request),
        Ok(class) => post(goal.q, Finding::linked(goal.request, class)),
    }
}

/// Memory ran out.
pub(crate) fn give_up<T: Told>(chain: Chain<T>) -> Next<T>
    ensures { result ≡ memory_ends chain.goal.q chain.goal.request }
{
    let Chain { goal, .. } = chain;
    out_of_memory(goal.q, goal.request)
}

/// The lineage of the class that is linked came: how many of the classes above are prepared comes next.
pub(crate) fn take_whole<T: Told>(config: &Arc<Config>, goal: Goal<T>, whole: Lineage<T>) -> Next<T>
    requires goal { IsGoal config.now.value goal }
    requires whole { IsOf config.now.value goal.class.value.class whole }
    ensures leads { LeadsBy T.told config.now.value goal.q goal.request whole_room
        (WholeTold goal whole) result }
    ensures plain { IsPlain result.turn }
    ensures past { IsPast result.stage }
{
    // brings that a `usize` counts them, and what the lineage keeps
    let _ = count_above(&whole);
    let _ = whole.class();
    match whole.try_clone() {
        Err(_) => out_of_memory(goal.q, goal.request),
        Ok(same) => Next {
            stage: Stage::Link(Link::Counting(goal, whole)),
            turn: Turn::CountPrepared(same),
        },
    }
}

/// How many classes stand above the class of a lineage.
pub(crate) fn count_above<T: Told>(whole: &Lineage<T>) -> usize
    ensures { result ≡ length whole.now.above }
{
    whole.above().len()
}

/// The class at a place of a lineage; the class itself stands last.
pub(crate) fn class_at<T: Told>(whole: &Lineage<T>, place: usize) -> &Class
    ensures { result.now ≡ class_in whole.now place }
{
    match whole.above().get(place) {
        Some(row) => row.class(),
        None => whole.class(),
    }
}

/// So many of the classes above the request's are prepared: the next one is to be.
pub(crate) fn take_counted<T: Told>(
    alloc: Global,
    config: &Arc<Config>,
    goal: Goal<T>,
    whole: Lineage<T>,
    count: usize,
) -> Next<T>
    requires goal { IsGoal config.now.value goal }
    requires whole { IsOf config.now.value goal.class.value.class whole }
    requires within { count ≤ length whole.above }
    ensures leads { LeadsBy T.told config.now.value goal.q goal.request (counted_room whole)
        (CountedTold goal whole count) result }
    ensures plain { IsPlain result.turn }
    ensures past { IsPast result.stage }
{
    trace(
        alloc,
        config,
        Chain {
            goal,
            whole,
            place: count,
        },
    )
}

/// The loading constraints of the class at the place of a chain come next, once its lineage is there: that of the last, the
/// request's own, is the whole.
fn trace<T: Told>(alloc: Global, config: &Arc<Config>, chain: Chain<T>) -> Next<T>
    requires chain { IsChain config.now.value chain }
    ensures leads { LeadsBy T.told config.now.value chain.goal.q chain.goal.request
        (chain_room chain) (ChainTold chain) result }
    ensures plain { IsPlain result.turn }
    ensures past { IsPast result.stage }
{
    if chain.place >= count_above(&chain.whole) {
        return match chain.whole.try_clone() {
            Err(_) => give_up(chain),
            Ok(whole) => take_traced(alloc, config, chain, &whole),
        };
    }
    match class_at(&chain.whole, chain.place).try_clone(alloc) {
        Err(_) => give_up(chain),
        Ok(class) => Next {
            stage: Stage::Link(Link::Tracing(chain)),
            turn: Turn::Lineage(class),
        },
    }
}

/// The lineage of the class at the place of a chain came: its loading constraints come next.
pub(crate) fn take_traced<T: Told>(
    alloc: Global,
    config: &Arc<Config>,
    chain: Chain<T>,
    lineage: &Lineage<T>,
) -> Next<T>
    requires chain { IsChain config.now.value chain }
    requires lineage { IsOf config.now.value (class_in chain.whole chain.place) lineage.now }
    ensures leads { LeadsBy T.told config.now.value chain.goal.q chain.goal.request
        (listed_room chain) (LineageTold chain lineage.now) result }
    ensures plain { IsPlain result.turn }
    ensures past { IsPast result.stage }
{
    // brings what the lineage keeps
    let _ = chain.whole.class();
    match list_of(alloc, lineage) {
        Err(_) => give_up(chain),
        Ok(list) => {
            // brings that a `usize` counts them, and what the list keeps
            let _ = count_needs(&list);
            impose(alloc, config, chain, list, 0)
        }
    }
}

/// The loading constraints of a class, to be shared.
fn list_of<T: Told>(alloc: Global, lineage: &Lineage<T>) -> Result<Arc<Equalities<T>>, AllocError>
    ensures { IfOk result (λ e. e.value.origin ≡ OfPreparation lineage.now) }
{
    let list = constraints_of(alloc, lineage)?;
    Arc::new(alloc, list).map_err(|_| AllocError)
}

/// How many equalities a list has.
pub(crate) fn count_needs<T: Told>(list: &Equalities<T>) -> usize
    ensures count { result ≡ length list.now.needs }
    ensures kept { IsListed T.told list.now }
{
    list.needs().len()
}

/// The first place from this one on whose equality is of two loaders: one of a loader with itself stands from the start
/// (JVMS SE 8, 5.3.4).
fn next_of_two<T: Told>(list: &Equalities<T>, place: usize) -> usize
    requires { place ≤ length list.now.needs }
    ensures behind { place ≤ result }
    ensures within { result ≤ length list.now.needs }
    ensures met { (s : State) → AllMet s (take place (needs_of list.now.needs))
        → AllMet s (take result (needs_of list.now.needs)) }
{
    let needs = list.needs();
    for at in place..needs.len() {
        if needs[at].one != needs[at].other {
            return at;
        }
    }
    needs.len()
}

/// Imposes the next equality of a list from this place on, or marks the class as prepared where none is left. Those of a
/// loader with itself are not asked for.
pub(crate) fn impose<T: Told>(
    alloc: Global,
    config: &Arc<Config>,
    chain: Chain<T>,
    list: Arc<Equalities<T>>,
    place: usize,
) -> Next<T>
    requires chain { IsChain config.now.value chain }
    requires list { IsAtPlace chain list.value }
    requires within { place ≤ length list.value.needs }
    ensures leads { LeadsBy T.told config.now.value chain.goal.q chain.goal.request
        (linking_room chain list.value place)
        (ListTold chain list.value place) result }
    ensures plain { IsPlain result.turn }
    ensures past { IsPast result.stage }
{
    let next = next_of_two(&list, place);
    impose_at(alloc, config, chain, list, next)
}

/// Imposes the equality at this place of a list, or marks the class as prepared where none is left.
fn impose_at<T: Told>(
    alloc: Global,
    config: &Arc<Config>,
    chain: Chain<T>,
    list: Arc<Equalities<T>>,
    place: usize,
) -> Next<T>
    requires chain { IsChain config.now.value chain }
    requires list { IsAtPlace chain list.value }
    requires within { place ≤ length list.value.needs }
    ensures leads { LeadsBy T.told config.now.value chain.goal.q chain.goal.request
        (linking_room chain list.value place)
        (ListTold chain list.value place) result }
    ensures plain { IsPlain result.turn }
    ensures past { IsPast result.stage }
{
    // brings what the lineage keeps
    let _ = chain.whole.class();
    let Ok(shared) = Arc::try_clone(&list) else {
        return give_up(chain);
    };
    if place < count_needs(&list) {
        Next {
            stage: Stage::Link(Link::Imposing(chain, list, place)),
            turn: Turn::Impose(shared, place),
        }
    } else {
        Next {
            stage: Stage::Link(Link::Marking(chain, list)),
            turn: Turn::Mark(shared),
        }
    }
}

/// The class at the place of a chain was prepared: the next one comes, or the request's class was the last.
pub(crate) fn take_marked<T: Told>(alloc: Global, config: &Arc<Config>, chain: Chain<T>) -> Next<T>
    requires chain { IsChain config.now.value chain }
    ensures leads { LeadsBy T.told config.now.value chain.goal.q chain.goal.request
        (marked_room chain) (MarkedTold chain) result }
    ensures plain { IsPlain result.turn }
    ensures past { IsPast result.stage }
{
    let Chain { goal, whole, place } = chain;
    if place >= count_above(&whole) {
        return post_linked(alloc, config, goal);
    }
    trace(
        alloc,
        config,
        Chain {
            goal,
            whole,
            place: place + 1,
        },
    )
}

/// The equality at this place of a list is refused: that is the answer.
pub(crate) fn refuse_link<T: Told>(
    config: &Arc<Config>,
    chain: Chain<T>,
    list: Arc<Equalities<T>>,
    place: usize,
    need: Need,
) -> Next<T>
    // What is given.
    requires chain { IsChain config.now.value chain }
    requires list { IsAtPlace chain list.value }
    requires need { equality_at list.value place ≡ Some (need_of need) }
    // What it leads to.
    ensures leads { LeadsBy T.told config.now.value chain.goal.q chain.goal.request last_room
        (RefusedTold chain list.value place (need_of need)) result }
    ensures plain { IsPlain result.turn }
    ensures past { IsPast result.stage }
    // What is posted of the refusal, and never that memory ran out.
    ensures lacks { Posts answers.Memory result.turn → ⊥ }
    ensures ends { EndsAsRefused chain.goal.request need result.turn }
{
    // brings what the lineage and the list keep
    let _ = chain.whole.class();
    let _ = list.needs();
    let Chain {
        goal,
        whole,
        place: at,
    } = chain;
    let finding = Finding::refused_link(goal.request, whole, at, list, place, need);
    post(goal.q, finding)
}
