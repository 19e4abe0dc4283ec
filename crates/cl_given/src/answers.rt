//! What histories and answers tell.

use crate::classes::{Named, is_class};
use crate::loaders::APP;
use cl_model::{Answer, Event, Verdict};
use std::alloc::{AllocError, Global};

/// How many references a history settles, and how many rounds it begins.
pub fn count_events(history: &[Event]) -> (usize, usize) {
    let mut settled = 0usize;
    let mut rounds = 0usize;
    for event in history {
        match event {
            Event::Settle(_) => settled = settled.saturating_add(1),
            Event::NextRound => rounds = rounds.saturating_add(1),
            _ => {}
        }
    }
    (settled, rounds)
}

fn is_service(verdict: &Verdict) -> bool {
    match verdict {
        Verdict::Method(class, _) => is_class(class, APP, Named::Service),
        _ => false,
    }
}

/// Whether each answer is the method of the service in `app`.
fn are_service(answers: &[Answer]) -> bool {
    for answer in answers {
        let is_so = match answer {
            Answer::Said(verdict) => is_service(verdict),
            Answer::Shared(settled) => is_service(&settled.verdict),
            _ => false,
        };
        if !is_so {
            return false;
        }
    }
    true
}

/// A script of a thousand requests for one reference, in `plug`.
pub fn thousand_resolutions(alloc: Global) -> Result<String, AllocError> {
    let mut script = String::new(alloc);
    for _ in 0..1000 {
        script.push_str("resolve plug p/Use 1\n")?;
    }
    Ok(script)
}

/// Whether these are the history and the answers of that script: the reference is settled once, and each request has it.
pub fn settles_once(history: &[Event], answers: &[Answer]) -> bool {
    let (settled, _) = count_events(history);
    settled == 1 && answers.len() == 1000 && are_service(answers)
}
