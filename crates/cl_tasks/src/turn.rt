use cl_delegation::Home;
use cl_findings::Finding;
use cl_hierarchy::{ClassRow, Draft, Equalities, Lineage};
use cl_model::{Class, LoaderId, Need, Settled, Told};
use cl_names::Name;
use cl_source::{Probe, SourceFault};
use std::sync::Arc;

/// What a task is told: the answer or the refusal of the call that its last turn asked for.
#[derive(Drop)]
pub enum Reply<T: Told> {
    /// To be the first.
    Start,
    Looked(Option<Arc<ClassRow<T>>>),
    Probed(Probe<T>),
    Defined(Arc<ClassRow<T>>),
    Initiated(Arc<ClassRow<T>>),
    Lineage(Lineage<T>),
    LookedReference(Option<Arc<Settled>>),
    Settled(Arc<Settled>),
    Imposed,
    LookedPrepared(bool),
    CountedPrepared(usize),
    Marked,
    /// What was to stand would have violated a loading constraint (JVMS SE 8, 5.3.4).
    Refused(Need),
    /// Memory was refused.
    Memory,
    SourceFault(SourceFault),
}

/// The call that a task asks for.
#[derive(Drop)]
pub enum Turn<T: Told> {
    /// To look a name up at a loader (JVMS SE 8, 5.3).
    Look(LoaderId, Name),
    /// To read a name of a loader (JVMS SE 8, 5.3.2).
    Read(LoaderId, Name),
    /// To record a class with its home (JVMS SE 8, 5.3.5, step 5).
    Define(Draft<T>),
    /// To record the loader that was asked for a class (JVMS SE 8, 5.3).
    Initiate(Arc<Home<T>>),
    /// To have a recorded class with all that stands above it (JVMS SE 8, 5.3.5).
    Lineage(Class),
    /// To look whether the entry of a class's pool is settled (JVMS SE 8, 5.4.3).
    LookReference(Class, u16),
    /// To settle the entry of the request's class (JVMS SE 8, 5.4.3).
    Settle(Finding<T>),
    /// To impose the equality at a place of a list, counted from 0 (JVMS SE 8, 5.3.4).
    Impose(Arc<Equalities<T>>, usize),
    /// To look whether a class is prepared (JVMS SE 8, 5.4.2).
    LookPrepared(Class),
    /// To count how many classes above another are prepared, from the first on (JVMS SE 8, 5.4.2).
    CountPrepared(Lineage<T>),
    /// To mark the class prepared whose preparation asked for a list (JVMS SE 8, 5.4.2).
    Mark(Arc<Equalities<T>>),
    /// To post the answer. It is the last.
    Post(Finding<T>),
}
