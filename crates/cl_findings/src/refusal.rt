//! Equalities that are refused (JVMS SE 8, 5.3.4).

ghost use Rattle.std.specs.Prelude.{◌≡◌, Some, length, map, slice_get};
ghost use Rattle.std.specs.List.{AllByRecursion};
ghost use Rattle.cl_model.specs.declared.verdict.Verdict.TheVariants as verdicts;
ghost use Rattle.cl_model.specs.Views.{need_of};
ghost use Rattle.cl_hierarchy.specs.Imposed.{IsListed, needs_of};
ghost use Rattle.cl_findings.specs.Findings.{grounded_answer};
ghost use Rattle.cl_hierarchy.specs.Lineages.{rows_in};
ghost use Rattle.cl_findings.specs.References.{AreAsked, AreLinked, AreOfRows, asked_basis, imposed_basis, link_basis};

use crate::basis::Basis;
use crate::finding::Finding;
use cl_hierarchy::{Equalities, Lineage};
use cl_model::{Need, Request, Told, Verdict};
use std::sync::Arc;

/// Brings what each of these lists keeps.
fn bring_lists<T: Told>(lists: &[Arc<Equalities<T>>])
    ensures { AllByRecursion (IsListed T.told) (map (λ e. e.value) lists.now) }
{
    for at in 0..lists.len() {
        let _ = lists[at].needs();
    }
}

impl<T: Told> Finding<T> {
    /// The refusal of the equality at this index of those of an entry's member, all before which are imposed: LinkageError of
    /// that need (JVMS SE 8, 5.3.4, 5.4.3).
    pub fn refused_member(
        request: Request,
        equalities: Arc<Equalities<T>>,
        index: usize,
        need: Need,
    ) -> Finding<T>
        requires reference { AreAsked request equalities.value.origin }
        requires need { slice_get (needs_of equalities.value.needs) index ≡ Some (need_of need) }
        ensures { result ≡ grounded_answer request (verdicts.Linkage need)
            (asked_basis request equalities.value index (Some (need_of need))) }
    {
        // brings what the list keeps
        let _ = equalities.needs();
        let basis = Basis::Asked {
            equalities,
            met: index,
        };
        Finding::with_verdict(request, Verdict::Linkage(need), basis)
    }

    /// The refusal of the equality at this index of those of the preparation of the class at this place of the lineage of a
    /// request to link, where all before it are imposed and all classes before the place are prepared: LinkageError of that
    /// need (JVMS SE 8, 5.3.4, 5.4.2).
    pub fn refused_link(
        request: Request,
        lineage: Lineage<T>,
        place: usize,
        equalities: Arc<Equalities<T>>,
        index: usize,
        need: Need,
    ) -> Finding<T>
        requires link { AreLinked request lineage place equalities.value.origin }
        requires need { slice_get (needs_of equalities.value.needs) index ≡ Some (need_of need) }
        ensures { result ≡ grounded_answer request (verdicts.Linkage need)
            (link_basis request lineage place equalities.value index (Some (need_of need))) }
    {
        // brings what the list and the lineage keep
        let _ = equalities.needs();
        let _ = lineage.class();
        let basis = Basis::Linked {
            lineage,
            place,
            equalities,
            met: index,
        };
        Finding::with_verdict(request, Verdict::Linkage(need), basis)
    }

    /// The same where the classes before need not be prepared: these are the lists of their preparations, in the order of
    /// the lineage, and all their equalities are imposed.
    pub fn refused_link_after(
        request: Request,
        lineage: Lineage<T>,
        earlier: Vec<Arc<Equalities<T>>>,
        equalities: Arc<Equalities<T>>,
        index: usize,
        need: Need,
    ) -> Finding<T>
        requires earlier { AreOfRows lineage.config (rows_in lineage)
            (map (λ e. e.value) earlier.items) }
        requires link { AreLinked request lineage (length earlier.items) equalities.value.origin }
        requires need { slice_get (needs_of equalities.value.needs) index ≡ Some (need_of need) }
        ensures { result ≡ grounded_answer request (verdicts.Linkage need)
            (imposed_basis request lineage (map (λ e. e.value) earlier.items) equalities.value
            index (Some (need_of need))) }
    {
        bring_lists(earlier.as_slice());
        // brings what the list keeps
        let _ = equalities.needs();
        // brings what is kept of the lineage
        let _ = lineage.class();
        let basis = Basis::Imposed {
            lineage,
            earlier,
            equalities,
            met: index,
        };
        Finding::with_verdict(request, Verdict::Linkage(need), basis)
    }
}
