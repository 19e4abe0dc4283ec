ghost use Rattle.std.specs.Prelude.{◌≡◌, ◌<◌, ◌≤◌, [], IfOk, length, slice_index};
ghost use Rattle.std.specs.List.{remove};
ghost use Rattle.cl_schedule.specs.Seats.{AreOfRound};

use cl_config::Script;
use std::alloc::AllocError;
use std::collections::VecDeque;

/// Puts down who waits once a round began: the numbers of its requests, from its first one on. Answers the first number
/// past these, from which the next round is put down.
pub(crate) fn gather(
    script: &Script,
    waiting: &mut VecDeque<u32>,
    first: usize,
) -> Result<usize, AllocError>
    requires within { first ≤ length script.now.requests }
    requires none { waiting.old.items ≡ [] }
    ensures gathered { IfOk result (AreOfRound script.now first waiting.new.items) }
{
    let count = script.requests().len();
    let mut next = first;
    while next < count && script.round_of(next) == script.round_of(first) {
        waiting.push_back(next as u32)?;
        next += 1;
    }
    Ok(next)
}

/// How many wait.
pub(crate) fn count(waiting: &VecDeque<u32>) -> usize
    ensures { result ≡ length waiting.now.items }
{
    waiting.len()
}

/// The number at a place of those that wait.
pub(crate) fn number_at(waiting: &VecDeque<u32>, place: usize) -> u32
    requires { place < length waiting.now.items }
    ensures { result ≡ slice_index waiting.now.items place }
{
    waiting[place]
}

/// Takes out the one at a place: the fewer of those before and behind it move.
pub(crate) fn take_out(waiting: &mut VecDeque<u32>, place: usize)
    requires { place < length waiting.old.items }
    ensures { waiting.new.items ≡ remove waiting.old.items place }
{
    let _ = waiting.remove(place);
}
