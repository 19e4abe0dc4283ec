//! The registry, and beside it what the workers tell each other. One lock is round it.

ghost use Rattle.std.specs.Prelude.{◌≡◌, MatchBool};
ghost use Rattle.cl_registry.specs.Tables.{IsKept, with_post};
ghost use Rattle.cl_schedule.specs.Rounds.{RoundsPassed};

use cl_findings::Finding;
use cl_model::{Request, Told};
use cl_registry::Registry;

/// What stands behind the lock.
#[derive(Drop)]
pub(crate) struct Desk<T: Told> {
    pub registry: Registry<T>,
    /// A copy of each request, until a worker takes it.
    pub asked: Vec<Option<Request>>,
    /// The round that is being served.
    pub round: u32,
    /// A worker met a stray: all are to stop.
    pub stopped: bool,
}

impl<T: Told> Desk<T> {
    /// Posts the answer of a request, and begins the rounds that may begin then. False, where it was refused.
    pub(crate) fn post(&mut self, q: u32, finding: Finding<T>) -> bool
        ensures posted { MatchBool result
            (RoundsPassed (with_post self.old.registry q finding.answer) self.new.registry)
            (self.new.registry ≡ self.old.registry) }
    {
        match self.registry.post(q, finding) {
            Ok(()) => {
                self.pass_rounds();
                true
            }
            Err(refused) => {
                // (whole, since each way to take it apart is a case of the proof)
                drop(refused);
                false
            }
        }
    }

    /// The copy of a request of this round, if it has begun and no worker took it.
    pub(crate) fn take(&mut self, q: u32, round: u32) -> Option<Request>
        ensures { self.new.registry ≡ self.old.registry }
    {
        if self.round < round {
            return None;
        }
        self.asked.get_mut(q as usize)?.take()
    }

    /// Begins the next rounds, as long as nothing of the round is unposted and there is a later one.
    pub(crate) fn pass_rounds(&mut self)
        ensures passed { RoundsPassed self.old.registry self.new.registry }
        ensures kept { IsKept T.told self.new.registry }
    {
        loop {
            match self.registry.next_round() {
                Ok(round) => self.round = round,
                Err(_) => return,
            }
        }
    }
}
