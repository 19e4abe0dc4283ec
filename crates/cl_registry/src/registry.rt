//! The registry: what it has, how it begins and what it reports.

ghost use Rattle.std.specs.Prelude.{◌≡◌, OnOk, IfOk, IfErr, MatchOption, map};
ghost use Rattle.std.specs.Option.{option_map};
ghost use Rattle.cl_model.specs.Tables.{Records};
ghost use Rattle.cl_registry.specs.Tables.{IsKept, LacksRecord, RoundMayBegin, empty_of, looked_row, round_of, state_of, with_round};
ghost use Rattle.cl_registry.specs.Refusals.{RoundRefusedFor};
ghost use Rattle.cl_registry.specs.Reports.{IsBack, IsReported};
ghost use Rattle.cl_findings.specs.Findings.{Decides};

use crate::report::{Answers, History, Report};
use crate::rounds::{collect, counts_of, rooms_for};
use crate::tables::{References, Rows, empty_rows, find};
use cl_config::{Config, Script};
use cl_constraints::{ConstraintBook, GroupedBook};
use cl_findings::Finding;
use cl_hierarchy::{ClassRow, Draft};
use cl_model::{Answer, Class, Equality, Event, LoaderId, Need, Told};
use cl_names::{Name, Seed};
use indexmap::{IndexMap, IndexSet};
use std::alloc::{AllocError, Global};
use std::marker::Model;
use std::sync::Arc;
use thiserror::Error;

/// Why a registry did nothing.
#[derive(Debug, Drop, PartialEq, Eq, Error)]
pub enum RegistryFault {
    #[error("B0 Memory")]
    Memory,
    /// The value does not fit this configuration, this script or these tables.
    #[error("B1 Stray")]
    Stray,
    /// This record or this equality would violate a loading constraint (JVMS SE 8, 5.3.4).
    #[error("B2 Violates")]
    Violates(Need),
    /// The request has an answer.
    #[error("B3 AlreadyPosted")]
    AlreadyPosted,
    /// A request has no answer, or is of a later round.
    #[error("B4 NotYet")]
    NotYet,
}

impl From<AllocError> for RegistryFault {
    ghost use Rattle.cl_registry.specs.declared.registry.RegistryFault.TheVariants.{Memory};

    ghost from_gives = { λ _ e. e ≡ Memory };

    fn from(_error: AllocError) -> RegistryFault {
        RegistryFault::Memory
    }
}

/// The classes that each loader has recorded, what happened, and the answers.
pub struct Registry<T: Told> {
    pub(crate) config: Arc<Config>,
    pub(crate) script: Arc<Script>,
    /// The rows of the classes that were defined, in order.
    pub(crate) rows: Vec<Arc<ClassRow<T>>>,
    /// The rows of each loader, by their names.
    pub(crate) tables: Rows<T>,
    /// Who defined what each loader has recorded, and the loading constraints.
    pub(crate) book: GroupedBook,
    pub(crate) references: References,
    /// The classes that are prepared, in order.
    pub(crate) prepared: IndexSet<Class, Seed>,
    /// The equalities of the list that is being imposed, in order, as far as they were found to be met.
    pub(crate) met: Vec<Equality>,
    pub(crate) history: Vec<Event>,
    pub(crate) answers: Vec<Option<Answer>>,
    pub(crate) round: u32,
    /// How many requests of each round have no answer.
    pub(crate) unanswered: Vec<usize>,
    /// How many requests have no answer; the history has room for as many posts, and for the rounds to come.
    pub(crate) left: usize,
    /// Room for the answers of a report.
    pub(crate) room: Vec<Answer>,
}

impl<T: Told> Drop for Registry<T> {
    fn drop(self) {
        let Registry {
            config: _,
            script: _,
            rows: _,
            tables: _,
            book: _,
            references: _,
            prepared: _,
            met: _,
            history: _,
            answers: _,
            round: _,
            unanswered: _,
            left: _,
            room: _,
        } = self;
    }
}

impl<T: Told> Model for Registry<T> {
    ghost use Rattle.std.specs.Prelude.{length, vec_len, vec_capacity};
    ghost use Rattle.cl_registry.specs.Parts.{shared_values};
    ghost use Rattle.cl_registry.specs.Tables.{Shown, reference_in, table_row};
    ghost use Rattle.cl_registry.specs.Kept.{IsRegistry};

    ghost Value = { Shown };

    ghost use Rattle.cl_registry.specs.View.{shown_of};

    ghost view = { shown_of };

    ghost invariant = { λ r. IsRegistry T.told (shown_of r) (record {
      table = shared_values (λ c. c.value) (table_row r.tables.items);
      parts = length r.tables.items;
      references = shared_values (λ s. s.value) (reference_in r.references);
      prepared = r.prepared.keys;
      met = r.met.items;
      events = vec_len r.history;
      room_for_events = vec_capacity r.history;
      left = r.left;
      unanswered = r.unanswered.items;
      round = r.round;
      filled = vec_len r.room;
      room = vec_capacity r.room;
    }) (⟦<GroupedBook as ConstraintBook>⟧.stands_for r.book) };
}

/// A registry could not be made.
#[derive(Debug, Drop, Error)]
#[error("B0 Memory")]
pub struct RegistryRefused {
    pub config: Arc<Config>,
    pub script: Arc<Script>,
}

/// A draft that was not recorded, and why.
#[derive(Drop)]
pub struct DefineRefused<T: Told> {
    pub fault: RegistryFault,
    pub draft: Draft<T>,
}

/// A finding that was not posted, and why.
#[derive(Drop)]
pub struct PostRefused<T: Told> {
    pub fault: RegistryFault,
    pub finding: Finding<T>,
}

/// A registry that has no report yet.
#[derive(Drop)]
pub struct NotYet<T: Told> {
    pub registry: Registry<T>,
}

impl<T: Told> Registry<T> {
    /// Empty tables, with room for all posts and rounds. Only memory refuses it. The script is to be one that was read over this
    /// configuration (`Script::read`, whose clause gives `HasLoaders`): of another, a request through a loader that this
    /// configuration has not is never posted.
    pub fn new(
        alloc: Global,
        config: Arc<Config>,
        script: Arc<Script>,
    ) -> Result<Registry<T>, RegistryRefused>
        ensures empty { IfOk result (λ r. r ≡ empty_of config.value script.value) }
        ensures kept { IfOk result (λ r. IsKept T.told r) }
        ensures config_back { IfErr result (λ e. e.config.value ≡ config.value) }
        ensures script_back { IfErr result (λ e. e.script.value ≡ script.value) }
    {
        let left = script.requests().len();
        let seed = config.seed();
        let Ok(tables) = empty_rows(alloc, seed, config.count()) else {
            return Err(RegistryRefused { config, script });
        };
        let Ok(unanswered) = counts_of(alloc, &script) else {
            return Err(RegistryRefused { config, script });
        };
        let Ok(rooms) = rooms_for(alloc, left, script.rounds() as usize) else {
            return Err(RegistryRefused { config, script });
        };
        Ok(Registry {
            config,
            script,
            rows: Vec::new(alloc),
            tables,
            book: GroupedBook::with_hasher(alloc, seed),
            references: IndexMap::with_hasher(alloc, seed),
            prepared: IndexSet::with_hasher(alloc, seed),
            met: Vec::new(alloc),
            history: rooms.history,
            answers: rooms.answers,
            round: 0,
            unanswered,
            left,
            room: rooms.room,
        })
    }

    /// Whether configuration and script are those of this registry.
    pub fn serves(&self, config: &Config, script: &Script) -> bool
        ensures { Decides result ((config.now ≡ self.now.config) × (script.now ≡ self.now.script)) }
    {
        config.is_same(&self.config) && script.is_same(&self.script)
    }

    /// The class that a loader has recorded for a name (JVMS SE 8, 5.3).
    pub fn look(&self, loader: LoaderId, name: &Name) -> Option<&Arc<ClassRow<T>>>
        ensures row { option_map (λ r. r.now.value) result ≡ looked_row self.now loader name.now }
        ensures found { MatchOption result (LacksRecord self.now loader name.now)
            (λ r. Records (state_of self.now) loader name.now r.now.value.class) }
        ensures kept { IsKept T.told self.now }
    {
        find(&self.tables, loader, name)
    }

    /// Begins the next round, once each request of this one has its answer, and answers its number.
    pub fn next_round(&mut self) -> Result<u32, RegistryFault>
        ensures may { OnOk result (RoundMayBegin self.old) }
        ensures begun { OnOk result (self.new ≡ with_round self.old) }
        ensures number { IfOk result (λ round. round ≡ round_of self.new) }
        ensures refused { IfErr result (λ fault. RoundRefusedFor self.old fault) }
        ensures unchanged { IfErr result (λ fault. self.new ≡ self.old) }
        ensures kept { IsKept T.told self.new }
    {
        let next = self.round + 1;
        if next >= self.script.rounds() || self.unanswered[self.round as usize] != 0 {
            return Err(RegistryFault::NotYet);
        }
        self.round = next;
        self.history.push_reserved(Event::NextRound);
        Ok(next)
    }

    /// The report, once each request has its answer and the last round has begun.
    pub fn into_report(self) -> Result<Report, NotYet<T>>
        ensures reported { IfOk result (IsReported T.told self) }
        ensures refused { IfErr result (λ e. IsBack self e.registry) }
    {
        match self.into_report_and_rows() {
            Ok((report, rows)) => {
                drop(rows);
                Ok(report)
            }
            Err(refused) => Err(refused),
        }
    }

    /// As `into_report`, with the rows of the classes that were defined, in order. They are most of a registry's memory:
    /// who has threads may have several free them.
    pub fn into_report_and_rows(self) -> Result<(Report, Vec<Arc<ClassRow<T>>>), NotYet<T>>
        ensures reported { IfOk result (λ r. IsReported T.told self r.0) }
        ensures rows { IfOk result (λ r. map (λ c. c.value) r.1.items ≡ self.rows) }
        ensures refused { IfErr result (λ e. IsBack self e.registry) }
    {
        if self.left != 0 || self.round + 1 < self.script.rounds() {
            return Err(NotYet { registry: self });
        }
        let Registry {
            config: _,
            script,
            rows,
            tables: _,
            book: _,
            references: _,
            prepared: _,
            met: _,
            history,
            answers,
            round: _,
            unanswered: _,
            left: _,
            room,
        } = self;
        let report = Report {
            script,
            history: History::from(history),
            answers: Answers::from(collect(answers, room)),
        };
        Ok((report, rows))
    }
}
