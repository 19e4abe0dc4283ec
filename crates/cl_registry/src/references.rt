//! The table of settled references, as a plain map.

ghost use Rattle.std.specs.Prelude.{◌≡◌, ◌+◌, None, IfOk, OnOk, OnErr, option_map, vec_len};
ghost use Rattle.std.specs.Vec.{VecUnchanged};
ghost use Rattle.indexmap.specs.IndexMap.{IsUnchanged, get};
ghost use Rattle.cl_model.specs.Classes.{same_class};
ghost use Rattle.cl_registry.specs.Parts.{HasRoom, HasSame, shared_values};
ghost use Rattle.cl_registry.specs.References.{AddsSettled, IsReferencePut};
ghost use Rattle.cl_registry.specs.Tables.{reference_in};

use crate::tables::References;
use cl_model::{Class, Event, Settled};
use cl_names::Seed;
use indexmap::IndexMap;
use std::alloc::{AllocError, Global};
use std::sync::Arc;

/// What an entry of a class is settled to.
pub fn find_reference<'a>(
    references: &'a References,
    class: &Class,
    index: u16,
) -> Option<&'a Arc<Settled>>
    ensures { option_map (λ s. s.now) result ≡ reference_in references.now class.now index }
{
    references.get(class)?.get(&index)
}

/// Puts what an entry is settled to, the first of its class.
fn put_first(
    references: &mut References,
    alloc: Global,
    seed: Seed,
    class: Class,
    index: u16,
    settled: Arc<Settled>,
) -> Result<(), AllocError>
    requires { get same_class references.old class ≡ None }
    ensures put { OnOk result (IsReferencePut (reference_in references.old)
        (reference_in references.new) class index settled) }
    ensures unchanged { OnErr result (IsUnchanged references.old references.new) }
{
    let mut one = IndexMap::with_hasher(alloc, seed);
    if one.insert(index, settled).is_err() {
        return Err(AllocError);
    }
    match references.insert(class, one) {
        Ok(_) => Ok(()),
        Err(_) => Err(AllocError),
    }
}

/// Puts what an entry of a class is settled to, in a table that hashes with this seed.
pub fn put_reference(
    references: &mut References,
    alloc: Global,
    seed: Seed,
    class: Class,
    index: u16,
    settled: Arc<Settled>,
) -> Result<(), AllocError>
    ensures put { OnOk result (IsReferencePut (reference_in references.old)
        (reference_in references.new) class index settled) }
    ensures unchanged { OnErr result (HasSame (reference_in references.old)
        (reference_in references.new)) }
{
    if let Some(one) = references.get_mut(&class) {
        return match one.insert(index, settled) {
            Ok(_) => Ok(()),
            Err(_) => Err(AllocError),
        };
    }
    put_first(references, alloc, seed, class, index, settled)
}

/// Settles an entry: one event more, and as much room left for other events.
pub fn bind(
    alloc: Global,
    references: &mut References,
    history: &mut Vec<Event>,
    left: usize,
    seed: Seed,
    settled: Settled,
) -> Result<Arc<Settled>, AllocError>
    // The room, before and after.
    requires room { HasRoom history.old left }
    ensures room { HasRoom history.new left }
    // What is added.
    ensures value { IfOk result (λ s. s.value ≡ settled) }
    ensures event { OnOk result (AddsSettled history.old.items history.new.items settled) }
    ensures used { OnOk result (vec_len history.new ≡ vec_len history.old + 1) }
    ensures put { OnOk result (IsReferencePut
        (shared_values (λ s. s.value) (reference_in references.old))
        (shared_values (λ s. s.value) (reference_in references.new))
        settled.class settled.index settled) }
    // Where memory runs out, all is as before.
    ensures same_history { OnErr result (VecUnchanged history.old history.new) }
    ensures same_references { OnErr result (HasSame (reference_in references.old)
        (reference_in references.new)) }
{
    let class = settled.class.try_clone(alloc)?;
    let index = settled.index;
    let settled = Arc::new(alloc, settled)?;
    let kept = Arc::try_clone(&settled)?;
    let answered = Arc::try_clone(&settled)?;
    history.reserve(left + 1)?;
    put_reference(references, alloc, seed, class, index, kept)?;
    history.push_reserved(Event::Settle(settled));
    Ok(answered)
}
