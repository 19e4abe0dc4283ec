//! How entries end without a look at members.

ghost use Rattle.std.specs.Prelude.{◌≡◌};
ghost use Rattle.cl_model.specs.Views.{verdict_of};
ghost use Rattle.cl_findings.specs.Findings.{grounded_answer};
ghost use Rattle.cl_findings.specs.References.{IsAtClass, IsAtOnce, class_basis, entry_basis};

use crate::basis::Basis;
use crate::finding::Finding;
use cl_config::Config;
use cl_hierarchy::ClassRow;
use cl_model::{Request, Told, Verdict};
use std::sync::Arc;

impl<T: Told> Finding<T> {
    /// What an entry of the pool of the class `d` is resolved to that names no class: it is no reference, asks for a member of
    /// an array, or is an array of a primitive type (JVMS SE 8, 5.4.3.1).
    pub fn entry(
        request: Request,
        config: Arc<Config>,
        d: Arc<ClassRow<T>>,
        verdict: Verdict,
    ) -> Finding<T>
        requires ends { IsAtOnce request d.value (verdict_of verdict) }
        ensures { result ≡ grounded_answer request verdict
            (entry_basis config.value request d.value.class) }
    {
        // brings that the file is what the class's bytes spell, where a content is told
        let _ = d.class();
        Finding::with_verdict(request, verdict, Basis::Entry { config, d })
    }

    /// What an entry of the pool of the class `d` is resolved to that names the class `c`: an IllegalAccessError where that is
    /// not accessible, else the class, or an array of it, where no member is asked for (JVMS SE 8, 5.4.3.1, 5.4.4).
    pub fn class_entry(
        request: Request,
        config: Arc<Config>,
        d: Arc<ClassRow<T>>,
        c: Arc<ClassRow<T>>,
        verdict: Verdict,
    ) -> Finding<T>
        requires ends { IsAtClass request d.value c.value (verdict_of verdict) }
        ensures { result ≡ grounded_answer request verdict
            (class_basis config.value request d.value.class c.value.class) }
    {
        // brings that the files are what the classes' bytes spell, where a content is told
        let _ = d.class();
        let _ = c.class();
        Finding::with_verdict(request, verdict, Basis::Class { config, d, c })
    }
}
