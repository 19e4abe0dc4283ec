//! The requests of a registry, in rounds, and their answers.

ghost use Rattle.std.specs.Prelude.{◌≡◌, ℕ, ◌<◌, ◌≤◌, ◌+◌, ◌-◌, ◌^◌, [], IfOk, MatchOption, None, Some, length, map, replicate, slice_get, slice_set, vec_len, vec_capacity};
ghost use Rattle.cl_findings.specs.Findings.{Decides};
ghost use Rattle.cl_config.specs.Scripts.{IsScript};
ghost use Rattle.cl_config.specs.declared.limits.TheConstants.{MOST_REQUESTS, MOST_THENS};
ghost use Rattle.cl_registry.specs.Kept.{left_in, open_in};

use cl_config::Script;
use cl_model::{Answer, Event, Request};
use std::alloc::{AllocError, Global};

/// Room for the history of all posts and rounds of a script, and for its answers.
#[derive(Drop)]
pub struct Rooms {
    pub history: Vec<Event>,
    pub answers: Vec<Option<Answer>>,
    pub room: Vec<Answer>,
}

/// No event, no answer, and room for those of this many requests and rounds.
pub fn rooms_for(alloc: Global, count: usize, rounds: usize) -> Result<Rooms, AllocError>
    requires few { count ≤ MOST_REQUESTS }
    requires rounds { rounds ≤ MOST_THENS + 1 }
    ensures history { IfOk result (λ r. (r.history.items ≡ []) × (vec_len r.history ≡ 0)
        × (count + rounds ≤ vec_capacity r.history)) }
    ensures answers { IfOk result (λ r. r.answers.items ≡ replicate count None) }
    ensures room { IfOk result (λ r. (r.room.items ≡ []) × (vec_len r.room ≡ 0)
        × (count ≤ vec_capacity r.room)) }
{
    let history = Vec::with_capacity(alloc, count + rounds)?;
    let room = Vec::with_capacity(alloc, count)?;
    let mut answers = Vec::with_capacity(alloc, count)?;
    for _ in 0..count {
        answers.push(None)?;
    }
    Ok(Rooms {
        history,
        answers,
        room,
    })
}

/// Nothing counted, for this many rounds.
fn zeros(alloc: Global, rounds: usize) -> Result<Vec<usize>, AllocError>
    ensures { IfOk result (λ v. v.items ≡ replicate rounds 0) }
{
    let mut counts = Vec::with_capacity(alloc, rounds)?;
    for _ in 0..rounds {
        counts.push(0)?;
    }
    Ok(counts)
}

/// How many requests each round has.
pub fn counts_of(alloc: Global, script: &Script) -> Result<Vec<usize>, AllocError>
    ensures each_round { IfOk result (λ v. length v.items ≡ script.now.rounds) }
    ensures counts { IfOk result (λ v. (round n : ℕ) → slice_get v.items round ≡ Some n
        → n ≡ open_in round script.now.rounds_of (replicate (length script.now.requests) None)) }
{
    let mut counts = zeros(alloc, script.rounds() as usize)?;
    let requests = script.requests().len();
    for q in 0..requests {
        counts[script.round_of(q) as usize] += 1;
    }
    Ok(counts)
}

/// How many events are still to come: a post of each request that has no answer, and the rounds that have not begun.
pub fn to_come(left: usize, round: u32, rounds: u32) -> usize
    requires fit { left + (rounds - (round + 1)) < 2 ^ 64 }
    requires begun { round < 2 ^ 32 - 1 }
    ensures { result ≡ left + (rounds - (round + 1)) }
{
    left + rounds.saturating_sub(round + 1) as usize
}

/// The answers, where each is given.
pub fn collect(answers: Vec<Option<Answer>>, room: Vec<Answer>) -> Vec<Answer>
    requires all { left_in answers.items ≡ 0 }
    requires empty { room.items ≡ [] }
    requires fit { length answers.items ≤ vec_capacity room }
    ensures { map Some result.items ≡ answers.items }
{
    let mut room = room;
    for answer in answers {
        match answer {
            None => unreachable!(),
            Some(answer) => room.push_reserved(answer),
        }
    }
    room
}

/// Whether the request of this number is this one.
pub fn is_asked(requests: &[Request], q: u32, request: &Request) -> bool
    ensures { Decides result (slice_get requests.now q ≡ Some request.now) }
{
    match requests.get(q as usize) {
        None => false,
        Some(asked) => asked.is_same(request),
    }
}

/// Whether the request of this number has no answer.
pub fn is_open(answers: &[Option<Answer>], q: u32) -> bool
    ensures { Decides result (slice_get answers.now q ≡ Some None) }
{
    match answers.get(q as usize) {
        Some(None) => true,
        Some(Some(_)) => false,
        None => false,
    }
}

/// Puts the answer of a request that has none.
pub fn put_answer(answers: &mut Vec<Option<Answer>>, q: u32, answer: Answer)
    requires { slice_get answers.old.items q ≡ Some None }
    ensures { answers.new.items ≡ slice_set answers.old.items q (Some answer) }
{
    answers[q as usize] = Some(answer);
}

/// One request of a round less has no answer.
pub fn count_down(unanswered: &mut Vec<usize>, round: u32)
    requires { MatchOption (slice_get unanswered.old.items round) ⊥ (λ n. 0 < n) }
    ensures { MatchOption (slice_get unanswered.old.items round) ⊥
        (λ n. unanswered.new.items ≡ slice_set unanswered.old.items round (n - 1)) }
{
    unanswered[round as usize] -= 1;
}
