//! How a load ends.

ghost use Rattle.std.specs.Prelude.{◌≡◌, None, Some};
ghost use Rattle.cl_hierarchy.specs.Drafts.{home_class};
ghost use Rattle.cl_model.specs.declared.verdict.Verdict.TheVariants as verdicts;
ghost use Rattle.cl_model.specs.Views.{need_of};
ghost use Rattle.cl_findings.specs.Bases.{IsSpeltIn, at_needs, at_refused};
ghost use Rattle.cl_findings.specs.Findings.{Rests, grounded_answer};
ghost use Rattle.cl_findings.specs.Loads.{ComesNext, IsFor, Stops, basis_at, kind_of, missing_kind, needs_at, next_need, next_needs, refused_at, verdict_at};

use crate::basis::{At, Basis};
use crate::finding::Finding;
use cl_delegation::{Home, Unfound};
use cl_hierarchy::{ClassRow, DraftFault, Frame, Path, Unreadable};
use cl_model::{Class, ErrorKind, Need, Request, Told, Verdict};
use std::sync::Arc;

/// What a path loads for a request.
#[derive(Drop)]
pub enum Target<T: Told> {
    /// The request's own class.
    Own,
    /// The class that the entry of a request to resolve names. This is the row of the class whose pool has the entry.
    Reference(Arc<ClassRow<T>>),
}

/// What stops a derivation (JVMS SE 8, 5.3.5).
#[derive(Drop)]
pub enum Obstacle<T: Told> {
    /// No loader has the name that is looked for.
    Missing(Unfound<T>),
    /// The bytes of the name that is looked for are not its class.
    Unreadable(Unreadable<T>),
    /// What is looked for is being derived already.
    Circle(Home<T>),
    /// The class that is looked for, as it is recorded, does not fit as a supertype.
    Misfit(Arc<ClassRow<T>>, Class, ErrorKind),
}

/// The record that comes next where a path is (JVMS SE 8, 5.3, 5.3.5).
#[derive(Drop)]
pub enum NextRecord<T: Told> {
    /// That of a class which has accepted all its supertypes, by its own loader.
    Define(Frame<T>),
    /// That of the loader that was asked, of a class that another loader has defined.
    Initiate(Arc<Home<T>>),
}

fn kind_of(fault: DraftFault) -> ErrorKind
    ensures { result ≡ kind_of fault }
{
    match fault {
        DraftFault::Format(_) => ErrorKind::ClassFormatError,
        DraftFault::Version => ErrorKind::UnsupportedClassVersionError,
        DraftFault::OtherName => ErrorKind::NoClassDefFoundError,
    }
}

fn missing_kind<T: Told>(target: &Target<T>, path: &Path<T>) -> ErrorKind
    ensures { result ≡ missing_kind target.now path.now.frames }
{
    match target {
        Target::Reference(_) => ErrorKind::NoClassDefFoundError,
        Target::Own => {
            if path.is_empty() {
                ErrorKind::ClassNotFoundException
            } else {
                ErrorKind::NoClassDefFoundError
            }
        }
    }
}

/// Brings that the file of the class that a target names is what its bytes spell.
fn bring_row<T: Told>(target: &Target<T>)
    ensures { IsSpeltIn T.told target.now }
{
    match target {
        Target::Own => {}
        Target::Reference(d) => {
            let _ = d.class();
        }
    }
}

/// The class of a home.
fn class_of<T: Told>(home: Home<T>) -> Class
    ensures { result ≡ home_class home }
{
    let loader = home.definer();
    Class {
        name: home.into_name(),
        loader,
    }
}

/// An error, and where its load ends.
#[derive(Drop)]
struct End<T: Told> {
    verdict: Verdict,
    at: At<T>,
}

/// The error of a load, from its path and what stopped it.
fn end_at<T: Told>(
    request: &Request,
    target: &Target<T>,
    path: &Path<T>,
    end: Obstacle<T>,
) -> End<T>
    requires path { IsFor request.now target.now path.now }
    requires stops { Stops path.now end }
    ensures verdict { result.verdict ≡ verdict_at target.now path.now end }
    ensures needs { at_needs path.now result.at ≡ needs_at path.now end }
    ensures refused { at_refused result.at ≡ None }
    ensures rests { Rests T.told (grounded_answer request.now result.verdict
        (basis_at request.now target.now path.now end)) }
{
    // brings what a path keeps
    let _ = path.config();
    bring_row(target);
    match end {
        Obstacle::Missing(unfound) => {
            // brings that no loader has the name, where a content is told
            let _ = unfound.config();
            let kind = missing_kind(target, path);
            let loader = unfound.asked_loader();
            let name = unfound.into_name();
            End {
                verdict: Verdict::Error(kind, Class { name, loader }),
                at: At::Nothing,
            }
        }
        Obstacle::Unreadable(unreadable) => {
            let kind = kind_of(unreadable.fault());
            let home = unreadable.into_home();
            // brings that the search led there, and that the bytes are the home's, where a content is told
            let _ = home.config();
            let _ = home.bytes();
            End {
                verdict: Verdict::Error(kind, class_of(home)),
                at: At::Nothing,
            }
        }
        Obstacle::Circle(home) => {
            // brings that the search led there, where a content is told
            let _ = home.config();
            let class = class_of(home);
            End {
                verdict: Verdict::Error(ErrorKind::ClassCircularityError, class),
                at: At::Nothing,
            }
        }
        Obstacle::Misfit(row, class, kind) => {
            // brings that the file is what the class's bytes spell, where a content is told
            let _ = row.class();
            let at = At::Misfit(class.loader);
            End {
                verdict: Verdict::Error(kind, class),
                at,
            }
        }
    }
}

/// Where a load ends whose next record is refused.
fn refused_at<T: Told>(
    request: &Request,
    target: &Target<T>,
    path: &Path<T>,
    next: NextRecord<T>,
    need: &Need,
) -> At<T>
    requires path { IsFor request.now target.now path.now }
    requires next { ComesNext T.told path.now next }
    requires need { need_of need.now ≡ next_need next }
    ensures needs { at_needs path.now result ≡ next_needs next }
    ensures refused { at_refused result ≡ Some (next_need next) }
    ensures rests { Rests T.told (grounded_answer request.now (verdicts.Linkage need.now)
        (refused_at request.now target.now path.now next)) }
{
    // brings what a path keeps
    let _ = path.config();
    bring_row(target);
    // the contract alone speaks of it
    let _ = need;
    match next {
        NextRecord::Define(frame) => At::Whole(frame),
        NextRecord::Initiate(home) => {
            // brings that the search led there, where a content is told
            let _ = home.config();
            At::Away(home)
        }
    }
}

impl<T: Told> Finding<T> {
    /// The error that a load ends in: the path from the class that is loaded down, and what stopped it there.
    pub fn obstacle(
        request: Request,
        target: Target<T>,
        path: Path<T>,
        end: Obstacle<T>,
    ) -> Finding<T>
        requires path { IsFor request target path }
        requires stops { Stops path end }
        ensures { result ≡ grounded_answer request (verdict_at target path end)
            (basis_at request target path end) }
    {
        let end = end_at(&request, &target, &path, end);
        let basis = Basis::Load {
            target,
            path,
            at: end.at,
        };
        Finding::with_verdict(request, end.verdict, basis)
    }

    /// The refusal of the record that comes next in a load: LinkageError of that need (JVMS SE 8, 5.3.4).
    pub fn refused(
        request: Request,
        target: Target<T>,
        path: Path<T>,
        next: NextRecord<T>,
        need: Need,
    ) -> Finding<T>
        requires path { IsFor request target path }
        requires next { ComesNext T.told path next }
        requires need { need_of need ≡ next_need next }
        ensures { result ≡ grounded_answer request (verdicts.Linkage need)
            (refused_at request target path next) }
    {
        let at = refused_at(&request, &target, &path, next, &need);
        Finding::with_verdict(
            request,
            Verdict::Linkage(need),
            Basis::Load { target, path, at },
        )
    }
}
