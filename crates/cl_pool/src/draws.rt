//! The numbers of requests, drawn from one atomic word.

ghost use Rattle.std.specs.Prelude.{◌≡◌, ◌<◌, ◌≤◌, IfOk, IfErr, IfSome, MatchOption};
ghost use Rattle.cl_pool.specs.Numbers.{both, first_hand, new_hand, one_split_less};
ghost use Rattle.cl_pool.specs.declared.limits.TheConstants.{MOST_WORKERS};
ghost use Rattle.cl_pool.specs.Seats.{Drew, HoldsAll, IsSeatOf, MayDraw, Missed, bounds};
ghost use Rattle.cl_pool.specs.Served.{WorkersMayServe};

use crate::hand::{Both, Bounds, Cut, Draw, Hand, Look, Rule};
use atomic_table::{Seat as Token, Table};
use std::alloc::{AllocError, Global};
use std::marker::Model;
use thiserror::Error;

/// Why there is no word, or no further seat of it.
#[derive(Clone, Copy, Debug, PartialEq, Eq, Error)]
pub enum DrawFault {
    #[error("V0 Memory")]
    Memory,
    /// No seat is left for a further worker.
    #[error("V1 Workers")]
    Workers,
}

impl From<AllocError> for DrawFault {
    ghost use Rattle.cl_pool.specs.declared.draws.DrawFault.TheVariants.{Memory};

    ghost from_gives = { λ _ e. e ≡ Memory };

    fn from(_error: AllocError) -> DrawFault {
        DrawFault::Memory
    }
}

/// The right to draw numbers of a word. A thread owns it.
#[derive(Drop)]
pub struct Seat {
    token: Token<(), Hand>,
    splits: u32,
}

impl Model for Seat {
    ghost use Rattle.std.specs.Prelude.{◌≡◌, ◌≤◌, []};
    ghost use Rattle.cl_pool.specs.Seats.{Seated};
    ghost use Rattle.cl_pool.specs.declared.limits.TheConstants.{MOST_WORKERS};

    ghost Value = { Seated };

    ghost view = { λ s. record { word = s.token.table_id; hand = s.token.me.0 } };

    ghost invariant = { λ s. (s.token.me.1 ≡ []) × (s.token.me.0.splits ≡ s.splits) × (s.splits ≤
        MOST_WORKERS) };
}

/// The numbers below the count of requests, each for one seat, whatever threads the seats are in. No call waits.
pub struct Draws {
    table: Table<(), Hand, Bounds, Rule, Global>,
    bounds: Bounds,
}

impl Drop for Draws {
    fn drop(self) {
        let Draws {
            table: _,
            bounds: _,
        } = self;
    }
}

impl Model for Draws {
    ghost use Rattle.std.specs.Prelude.{◌≡◌, ◌≤◌, ◌<◌, ◌^◌};
    ghost use Rattle.cl_pool.specs.Seats.{Drawing};
    ghost use Rattle.cl_pool.specs.declared.limits.TheConstants.{MOST_WORKERS};

    ghost Value = { Drawing };

    ghost view = { λ d. record { word = d.table.shared.table_id; of = d.bounds } };

    ghost invariant = { λ d. (d.table.shared.table_id.words ≡ 1) × (d.table.shared.key ≡ d.bounds) ×
        (d.bounds.workers ≤ MOST_WORKERS) × (d.bounds.requests < 2 ^ 32) };
}

impl Draws {
    /// A word for the numbers of so many requests, with its first seat, from which one less than the workers can be split
    /// off. `Memory`.
    pub fn new(alloc: Global, requests: u32, workers: u32) -> Result<(Draws, Seat), DrawFault>
        requires { WorkersMayServe workers }
        ensures bounds { IfOk result (λ r. r.0.of ≡ bounds requests workers) }
        ensures seat { IfOk result (λ r. IsSeatOf r.0 r.1) }
        ensures first { IfOk result (λ r. r.1.hand ≡ first_hand r.0.of) }
        ensures may { IfOk result (λ r. MayDraw r.1) }
        ensures refused { IfErr result (λ fault. fault ≡ DrawFault.Memory) }
    {
        let bounds = Bounds { requests, workers };
        let (table, token) = Table::of_words(alloc, &[0], &bounds)?;
        let splits = workers - 1;
        Ok((Draws { table, bounds }, Seat { token, splits }))
    }

    /// A further seat. `Workers` exactly where none may be split off from this one. It takes no memory.
    pub fn split(&self, seat: &mut Seat) -> Result<Seat, DrawFault>
        requires { IsSeatOf self.now seat.old }
        ensures seat { IsSeatOf self.now seat.new }
        ensures split { IfOk result (λ s. seat.new.hand ≡ one_split_less seat.old.hand) }
        ensures left { IfOk result (λ s. 0 < seat.old.hand.splits) }
        ensures further { IfOk result (λ s. IsSeatOf self.now s
            × (s.hand ≡ new_hand seat.old.hand)) }
        ensures may { IfOk result (λ s. MayDraw s) }
        ensures refused { IfErr result (λ fault. (fault ≡ DrawFault.Workers)
            × (seat.old.hand.splits ≡ 0) × (seat.new ≡ seat.old)) }
    {
        if seat.splits == 0 {
            return Err(DrawFault::Workers);
        }
        let token = self.table.shared.split_seat::<Cut>(&mut seat.token);
        seat.splits -= 1;
        Ok(Seat { token, splits: 0 })
    }

    /// The next number, which this seat has not drawn; none, where the word is past the last request. That no other seat has
    /// drawn it, or will, is the word's rule (`Drawn`). It takes no memory.
    pub fn draw(&self, seat: &mut Seat) -> Option<u32>
        requires seat { IsSeatOf self.now seat.old }
        requires may { MayDraw seat.old }
        ensures seat { IsSeatOf self.now seat.new }
        ensures drawn { MatchOption result (Missed seat.old seat.new)
            (λ n. Drew seat.old seat.new n) }
        ensures within { IfSome result (λ n. n < self.now.of.requests) }
        ensures may { IfSome result (λ n. MayDraw seat.new) }
    {
        let number = self.table.shared.fetch_add::<Draw>(&mut seat.token, 0, 1);
        if number < u64::from(self.bounds.requests) {
            Some(number as u32)
        } else {
            None
        }
    }

    /// Takes another seat in: its numbers, what it stands for and the seats that it may split off. It takes no memory.
    pub fn join(&self, seat: &mut Seat, other: Seat)
        requires seat { IsSeatOf self.now seat.old }
        requires other { IsSeatOf self.now other }
        ensures seat { IsSeatOf self.now seat.new }
        ensures both { seat.new.hand ≡ both seat.old.hand other.hand }
        ensures all { HoldsAll seat.new }
    {
        let Seat { token, splits } = other;
        self.table.shared.join_seat::<Both>(&mut seat.token, token);
        self.table.shared.load::<Look>(&mut seat.token, 0);
        seat.splits += splits;
    }
}
