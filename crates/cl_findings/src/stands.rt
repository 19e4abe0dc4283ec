//! Whether tables bear what an answer rests on.

ghost use Rattle.std.specs.Prelude.{◌≡◌, Contains, IfSome, map, slice_get, take};
ghost use Rattle.std.specs.List.{AllByRecursion};
ghost use Rattle.std.specs.Option.{option_map};
ghost use Rattle.cl_model.specs.Frames.{KeepsAccepted, kept_of};
ghost use Rattle.cl_model.specs.declared.request.Request.{Request};
ghost use Rattle.cl_model.specs.States.{AllMet, Met, Refused, Keeps};
ghost use Rattle.cl_hierarchy.specs.Frames.{frame_of};
ghost use Rattle.cl_hierarchy.specs.Imposed.{needs_of};
ghost use Rattle.cl_hierarchy.specs.Lineages.{rows_in};
ghost use Rattle.cl_hierarchy.specs.Paths.{frames_of};
ghost use Rattle.cl_constraints.specs.Books.{TellsOf};
ghost use Rattle.cl_findings.specs.Bases.{at_needs, at_refused, basis_of};
ghost use Rattle.cl_findings.specs.Findings.{Carries, IsBorne};
ghost use Rattle.cl_findings.specs.Loads.{load_basis, target_needs};
ghost use Rattle.cl_findings.specs.References.{all_needs, asked_basis, class_need, imposed_basis, link_basis, reference_needs, sprung_needs};
ghost use Rattle.cl_findings.specs.Tables.{TellsStanding};

use crate::basis::{At, Basis};
use crate::finding::Finding;
use crate::load::Target;
use crate::tables::Tables;
use cl_config::Config;
use cl_hierarchy::{ClassRow, Equalities, Frame, Lineage, Origin, Path};
use cl_model::{Class, Equality, Request, Told};
use std::sync::Arc;

/// Whether the supertype that a frame accepted at a place, if it did, is one that its class's loader records.
fn accepted_stands<T: Told, X: Tables>(tables: &X, frame: &Frame<T>, at: usize) -> bool
    ensures { TellsOf (X.stands_for tables.now) result (λ s.
        IfSome (slice_get (frame_of frame.now).accepted at)
        (Keeps s frame.now.draft.class.loader)) }
{
    match frame.draft().supertype(at) {
        None => true,
        Some(above) => match frame.definers().get(at) {
            None => true,
            Some(accepted) => tables.has(frame.draft().class().loader, above.name, *accepted),
        },
    }
}

/// Whether what a frame accepted its class's loader records.
fn frame_stands<T: Told, X: Tables>(tables: &X, frame: &Frame<T>) -> bool
    ensures { TellsOf (X.stands_for tables.now) result (λ s. KeepsAccepted s (frame_of frame.now)) }
{
    for at in 0..frame.definers().len() {
        if !accepted_stands(tables, frame, at) {
            return false;
        }
    }
    true
}

/// Whether what the frame at a place accepted, if there is one, its class's loader records.
fn frame_at_stands<T: Told, X: Tables>(tables: &X, path: &Path<T>, at: usize) -> bool
    ensures { TellsOf (X.stands_for tables.now) result (λ s.
        IfSome (slice_get (frames_of path.now) at) (KeepsAccepted s)) }
{
    match path.frame(at) {
        None => true,
        Some(frame) => frame_stands(tables, frame),
    }
}

/// Whether what the classes of a path accepted their loaders record.
fn path_stands<T: Told, X: Tables>(tables: &X, path: &Path<T>) -> bool
    ensures { TellsOf (X.stands_for tables.now) result
        (λ s. AllMet s (kept_of (frames_of path.now))) }
{
    for at in 0..path.len() {
        if !frame_at_stands(tables, path, at) {
            return false;
        }
    }
    true
}

/// Whether the loader of a request records a class as the request's.
fn class_stands<X: Tables>(tables: &X, request: &Request, class: &Class) -> bool
    ensures { TellsOf (X.stands_for tables.now) result
        (λ s. Met s (class_need request.now class.now)) }
{
    tables.has(request.loader(), &class.name, class.loader)
}

/// Whether that of a target is, where a path loads the class of a reference.
fn target_stands<T: Told, X: Tables>(tables: &X, request: &Request, target: &Target<T>) -> bool
    ensures { TellsOf (X.stands_for tables.now) result
        (λ s. AllMet s (target_needs request.now target.now)) }
{
    match target {
        Target::Own => true,
        Target::Reference(d) => class_stands(tables, request, d.class()),
    }
}

/// Whether that is, and the loader that defined it records the class that a reference of it names.
fn reference_stands<X: Tables>(tables: &X, request: &Request, d: &Class, c: &Class) -> bool
    ensures { TellsOf (X.stands_for tables.now) result
        (λ s. AllMet s (reference_needs request.now d.now c.now)) }
{
    class_stands(tables, request, d) && tables.has(d.loader, &c.name, c.loader)
}

/// Whether what else a load's end rests on is recorded.
fn end_stands<T: Told, X: Tables>(tables: &X, path: &Path<T>, at: &At<T>) -> bool
    ensures { TellsOf (X.stands_for tables.now) result (λ s. AllMet s (at_needs path.now at.now)) }
{
    match at {
        At::Nothing => true,
        At::Misfit(place) => tables.has(path.at_loader(), path.at_name(), *place),
        At::Whole(frame) => frame_stands(tables, frame),
        At::Away(home) => tables.has(home.definer(), home.name(), home.definer()),
    }
}

/// Whether the record at which a load ends, if it ends at one, is refused.
fn end_is_refused<T: Told, X: Tables>(tables: &X, at: &At<T>) -> bool
    ensures { TellsOf (X.stands_for tables.now) result
        (λ s. IfSome (at_refused at.now) (Refused s)) }
{
    match at {
        At::Nothing => true,
        At::Misfit(_) => true,
        At::Whole(frame) => {
            let class = frame.draft().class();
            tables.rejects(class.loader, &class.name, class.loader)
        }
        At::Away(home) => tables.rejects(home.asked_loader(), home.name(), home.definer()),
    }
}

/// Whether the equality at an index, if there is one, joins its loaders.
fn equality_stands<X: Tables>(tables: &X, needs: &[Equality], at: usize) -> bool
    ensures { TellsOf (X.stands_for tables.now) result (λ s.
        IfSome (slice_get (needs_of needs.now) at) (Met s)) }
{
    match needs.get(at) {
        None => true,
        Some(equality) => tables.joined(&equality.name, equality.one, equality.other),
    }
}

/// Whether the first so many equalities join their loaders.
fn equalities_stand<X: Tables>(tables: &X, needs: &[Equality], met: usize) -> bool
    ensures { TellsOf (X.stands_for tables.now) result
        (λ s. AllMet s (take met (needs_of needs.now))) }
{
    for at in 0..met {
        if !equality_stands(tables, needs, at) {
            return false;
        }
    }
    true
}

/// Whether the equalities of the list at an index, if there is one, join their loaders.
fn list_stands<T: Told, X: Tables>(tables: &X, lists: &[Arc<Equalities<T>>], at: usize) -> bool
    ensures { TellsOf (X.stands_for tables.now) result (λ s.
        IfSome (slice_get (map (λ e. e.value) lists.now) at) (λ e. AllMet s (needs_of e.needs))) }
{
    match lists.get(at) {
        None => true,
        Some(list) => {
            let needs = list.needs();
            equalities_stand(tables, needs, needs.len())
        }
    }
}

/// Whether those of all these lists do.
fn lists_stand<T: Told, X: Tables>(tables: &X, lists: &[Arc<Equalities<T>>]) -> bool
    ensures { TellsOf (X.stands_for tables.now) result (λ s.
        AllMet s (all_needs (map (λ e. e.value) lists.now))) }
{
    for at in 0..lists.len() {
        if !list_stands(tables, lists, at) {
            return false;
        }
    }
    true
}

/// Whether the equality at an index, if there is one, is refused.
fn equality_is_refused<X: Tables>(tables: &X, needs: &[Equality], at: usize) -> bool
    ensures { TellsOf (X.stands_for tables.now) result (λ s.
        IfSome (slice_get (needs_of needs.now) at) (Refused s)) }
{
    match needs.get(at) {
        None => true,
        Some(equality) => tables.refuses(&equality.name, equality.one, equality.other),
    }
}

/// Whether the first so many equalities of a list stand, and the next one, if there is one, is refused.
fn imposed_stand<T: Told, X: Tables>(tables: &X, equalities: &Equalities<T>, met: usize) -> bool
    ensures { TellsOf (X.stands_for tables.now) result (λ s.
        AllMet s (take met (needs_of equalities.now.needs))
        × IfSome (slice_get (needs_of equalities.now.needs) met) (Refused s)) }
{
    let needs = equalities.needs();
    equalities_stand(tables, needs, met) && equality_is_refused(tables, needs, met)
}

/// Whether the classes that a list of equalities was made from are recorded.
fn origin_stands<T: Told, X: Tables>(
    tables: &X,
    request: &Request,
    equalities: &Equalities<T>,
) -> bool
    ensures { TellsOf (X.stands_for tables.now) result (λ s.
        AllMet s (sprung_needs request.now equalities.now.origin)) }
{
    match equalities.origin() {
        Origin::Reference { d, c, .. } => reference_stands(tables, request, d.class(), c.class()),
        Origin::Preparation { lineage } => class_stands(tables, request, lineage.class()),
    }
}

/// The row at a place of a lineage.
fn row_at<T: Told>(lineage: &Lineage<T>, at: usize) -> Option<&Arc<ClassRow<T>>>
    ensures { option_map (λ r. r.now.value) result ≡ slice_get (rows_in lineage.now) at }
{
    let above = lineage.above();
    if at == above.len() {
        return Some(lineage.own());
    }
    above.get(at)
}

/// Whether the class at a place of a lineage, if there is one, is prepared.
fn class_is_prepared<T: Told, X: Tables>(tables: &X, lineage: &Lineage<T>, at: usize) -> bool
    ensures { TellsOf (X.stands_for tables.now) result (λ s.
        IfSome (slice_get (rows_in lineage.now) at) (λ r. Contains s.prepared r.class)) }
{
    match row_at(lineage, at) {
        None => true,
        Some(row) => tables.is_prepared(row.class()),
    }
}

/// Whether the classes of a lineage before a place are prepared.
fn classes_are_prepared<T: Told, X: Tables>(tables: &X, lineage: &Lineage<T>, place: usize) -> bool
    ensures { TellsOf (X.stands_for tables.now) result (λ s.
        AllByRecursion (Contains s.prepared) (map
        (λ r. r.class) (take place (rows_in lineage.now)))) }
{
    for at in 0..place {
        if !class_is_prepared(tables, lineage, at) {
            return false;
        }
    }
    true
}

/// The configuration under which an answer was found.
fn config_of<T: Told>(basis: &Basis<T>) -> &Config
    ensures { (r : Request) → result.now ≡ (basis_of r basis.now).config }
{
    match basis {
        Basis::Load { path, .. } => path.config(),
        Basis::Entry { config, .. } => config,
        Basis::Class { config, .. } => config,
        Basis::Lookup { d, .. } => d.config(),
        Basis::Asked { equalities, .. } => match equalities.origin() {
            Origin::Reference { d, .. } => d.config(),
            Origin::Preparation { lineage } => lineage.config(),
        },
        Basis::Linked { lineage, .. } => lineage.config(),
        Basis::Imposed { lineage, .. } => lineage.config(),
    }
}

/// Whether what the end of a load rests on stands.
fn load_stands<T: Told, X: Tables>(
    tables: &X,
    request: &Request,
    target: &Target<T>,
    path: &Path<T>,
    at: &At<T>,
) -> bool
    ensures { TellsOf (X.stands_for tables.now) result (λ s.
        Carries s (load_basis request.now target.now path.now (at_needs path.now at.now)
        (at_refused at.now))) }
{
    if !target_stands(tables, request, target) {
        return false;
    }
    if !path_stands(tables, path) {
        return false;
    }
    end_stands(tables, path, at) && end_is_refused(tables, at)
}

/// Whether what the refusal of an equality of an entry, or its member, rests on stands.
fn asked_stands<T: Told, X: Tables>(
    tables: &X,
    request: &Request,
    equalities: &Equalities<T>,
    met: usize,
) -> bool
    ensures { TellsOf (X.stands_for tables.now) result (λ s.
        Carries s (asked_basis request.now equalities.now met
        (slice_get (needs_of equalities.now.needs) met))) }
{
    origin_stands(tables, request, equalities) && imposed_stand(tables, equalities, met)
}

/// Whether what the refusal of an equality of a preparation rests on stands.
fn link_stands<T: Told, X: Tables>(
    tables: &X,
    request: &Request,
    lineage: &Lineage<T>,
    place: usize,
    equalities: &Equalities<T>,
    met: usize,
) -> bool
    ensures { TellsOf (X.stands_for tables.now) result (λ s.
        Carries s (link_basis request.now lineage.now place equalities.now met
        (slice_get (needs_of equalities.now.needs) met))) }
{
    if !class_stands(tables, request, lineage.class())
        || !classes_are_prepared(tables, lineage, place)
    {
        return false;
    }
    imposed_stand(tables, equalities, met)
}

/// Whether the same stands where the classes before need not be prepared.
fn imposed_link_stands<T: Told, X: Tables>(
    tables: &X,
    request: &Request,
    lineage: &Lineage<T>,
    earlier: &[Arc<Equalities<T>>],
    equalities: &Equalities<T>,
    met: usize,
) -> bool
    ensures { TellsOf (X.stands_for tables.now) result (λ s.
        Carries s (imposed_basis request.now lineage.now (map (λ e. e.value) earlier.now)
        equalities.now met (slice_get (needs_of equalities.now.needs) met))) }
{
    if !class_stands(tables, request, lineage.class()) {
        return false;
    }
    if !lists_stand(tables, earlier) {
        return false;
    }
    imposed_stand(tables, equalities, met)
}

/// Whether what an answer of a request rests on stands, but for the configuration.
fn needs_stand<T: Told, X: Tables>(tables: &X, request: &Request, basis: &Basis<T>) -> bool
    ensures { TellsOf (X.stands_for tables.now) result
        (λ s. Carries s (basis_of request.now basis.now)) }
{
    match basis {
        Basis::Load { target, path, at } => load_stands(tables, request, target, path, at),
        Basis::Entry { d, .. } => class_stands(tables, request, d.class()),
        Basis::Class { d, c, .. } => reference_stands(tables, request, d.class(), c.class()),
        Basis::Lookup { d, c } => reference_stands(tables, request, d.class(), c.class()),
        Basis::Asked { equalities, met } => asked_stands(tables, request, equalities, *met),
        Basis::Linked {
            lineage,
            place,
            equalities,
            met,
        } => link_stands(tables, request, lineage, *place, equalities, *met),
        Basis::Imposed {
            lineage,
            earlier,
            equalities,
            met,
        } => {
            let earlier = earlier.as_slice();
            imposed_link_stands(tables, request, lineage, earlier, equalities, *met)
        }
    }
}

/// Whether what an answer of a request rests on stands.
fn basis_stands<T: Told, X: Tables>(
    tables: &X,
    config: &Config,
    request: &Request,
    basis: &Basis<T>,
) -> bool
    ensures { TellsOf (X.stands_for tables.now) result
        (λ s. IsBorne config.now s (basis_of request.now basis.now)) }
{
    config_of(basis).is_same(config) && needs_stand(tables, request, basis)
}

impl<T: Told> Finding<T> {
    /// Whether what the answer rests on stands: it was found under this configuration, whose loaders alone it names; in the
    /// tables its needs are met, its classes are prepared, and the need that is refused, if one is, is refused there. A
    /// finding that rests on nothing does not stand: it is looked up. Takes no memory.
    pub fn stands<X: Tables>(&self, tables: &X, config: &Config) -> bool
        ensures { TellsStanding (X.stands_for tables.now) config.now self.now result }
    {
        match &self.basis {
            None => false,
            Some(basis) => {
                self.is_within(config) && basis_stands(tables, config, &self.request, basis)
            }
        }
    }
}
