//! How entries that ask for members end.

ghost use Rattle.std.specs.Prelude.{◌≡◌};
ghost use Rattle.cl_model.specs.Views.{verdict_of};
ghost use Rattle.cl_hierarchy.specs.Imposed.{OfReference};
ghost use Rattle.cl_findings.specs.Findings.{grounded_answer};
ghost use Rattle.cl_findings.specs.References.{GoesTo, IsOfFound, IsLookupError, class_basis, resolved_index, member_basis};

use crate::basis::Basis;
use crate::finding::Finding;
use cl_hierarchy::{Equalities, Lineage};
use cl_members::Found;
use cl_model::{Request, Told, Verdict};
use std::sync::Arc;

impl<T: Told> Finding<T> {
    /// The member that an entry is resolved to, all of whose equalities are imposed (JVMS SE 8, 5.4.3.2 to 5.4.3.4).
    pub fn member(
        request: Request,
        found: &Found<T>,
        equalities: Arc<Equalities<T>>,
        verdict: Verdict,
    ) -> Finding<T>
        requires reference { GoesTo request found.now.d found.now.c found.now.index }
        requires origin { equalities.value.origin ≡ OfReference found.now.d found.now.c
            found.now.index }
        requires verdict { IsOfFound found.now (verdict_of verdict) }
        ensures { result ≡ grounded_answer request verdict
            (member_basis request found.now equalities.value) }
    {
        // brings what is kept of the member, of its equalities, and of the classes' lineages
        let _ = found.index();
        let _ = found.d().class();
        let _ = found.c().class();
        let met = equalities.needs().len();
        Finding::with_verdict(request, verdict, Basis::Asked { equalities, met })
    }

    /// The error of an entry of the class `d` whose member was not found through the class `c`: NoSuchFieldError,
    /// NoSuchMethodError or IncompatibleClassChangeError of the class `c`, or IllegalAccessError of the class that declares
    /// the member (JVMS SE 8, 5.4.3.2 to 5.4.3.4).
    pub fn member_fault(
        request: Request,
        d: Lineage<T>,
        c: Lineage<T>,
        verdict: Verdict,
    ) -> Finding<T>
        requires reference { GoesTo request d c (resolved_index request) }
        requires lookup { IsLookupError d c (resolved_index request) verdict }
        ensures { result ≡ grounded_answer request verdict
            (class_basis d.config request d.own.class c.own.class) }
    {
        // brings what is kept of the classes' lineages
        let _ = d.class();
        let _ = c.class();
        Finding::with_verdict(request, verdict, Basis::Lookup { d, c })
    }
}
