//! What any step may lead to: a look, or an answer.

ghost use Rattle.std.specs.Prelude.{◌≡◌};
ghost use Rattle.cl_tasks.specs.Steps.{memory_ends};

use crate::stage::{Entry, Next, Resolution, Stage};
use crate::turn::Turn;
use cl_findings::Finding;
use cl_model::{Request, Told};

/// Posts an answer.
pub(crate) fn post<T: Told>(q: u32, finding: Finding<T>) -> Next<T>
    ensures { result ≡ record { stage = Stage.Done q; turn = Turn.Post finding } }
{
    Next {
        stage: Stage::Done(q),
        turn: Turn::Post(finding),
    }
}

/// Memory ran out.
pub(crate) fn out_of_memory<T: Told>(q: u32, request: Request) -> Next<T>
    ensures { result ≡ memory_ends q request }
{
    post(q, Finding::memory(request))
}

/// Settles the reference of an entry.
pub(crate) fn settle<T: Told>(entry: Entry<T>, finding: Finding<T>) -> Next<T>
    ensures { result ≡ record {
      stage = Stage.Resolve (Resolution.Settling entry);
      turn = Turn.Settle finding;
    } }
{
    Next {
        stage: Stage::Resolve(Resolution::Settling(entry)),
        turn: Turn::Settle(finding),
    }
}
