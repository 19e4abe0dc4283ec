ghost use Rattle.std.specs.Prelude.{◌≡◌};

use cl_config::Script;
use cl_model::{Answer, Event};
use std::marker::Model;
use std::sync::Arc;

/// Events, in order. Anyone can make one of any events. Where `Registry::into_report` made it, they are the history of that
/// registry: where a content is told, a run of the linkage machine.
#[derive(Debug)]
pub struct History {
    events: Vec<Event>,
}

impl Drop for History {
    fn drop(self) {
        let History { events: _ } = self;
    }
}

impl Model for History {
    ghost use Rattle.std.specs.Prelude.{List};
    ghost use Rattle.cl_model.specs.declared.event.Event.{Event};

    ghost Value = { List Event };

    ghost view = { λ h. h.events.items };
}

impl From<Vec<Event>> for History {
    ghost from_gives = { λ v h. h ≡ v.items };

    fn from(events: Vec<Event>) -> History {
        History { events }
    }
}

impl History {
    /// The events, in order.
    pub fn events(&self) -> &[Event]
        ensures { result.now ≡ self.now }
    {
        self.events.as_slice()
    }
}

/// Answers, in order. Anyone can make one of any answers. Where `Registry::into_report` made it, they are those of the
/// script's requests, one for each, in the requests' order.
#[derive(Debug)]
pub struct Answers {
    items: Vec<Answer>,
}

impl Drop for Answers {
    fn drop(self) {
        let Answers { items: _ } = self;
    }
}

impl Model for Answers {
    ghost use Rattle.std.specs.Prelude.{List};
    ghost use Rattle.cl_model.specs.declared.answer.Answer.{Answer};

    ghost Value = { List Answer };

    ghost view = { λ a. a.items.items };
}

impl From<Vec<Answer>> for Answers {
    ghost from_gives = { λ v a. a ≡ v.items };

    fn from(items: Vec<Answer>) -> Answers {
        Answers { items }
    }
}

impl Answers {
    /// The answers, in order.
    pub fn as_slice(&self) -> &[Answer]
        ensures { result.now ≡ self.now }
    {
        self.items.as_slice()
    }
}

/// A script with a history and answers. Anyone can put these together. Where `Registry::into_report` did, it is what was
/// asked of that registry, what happened there, and what each request was answered.
#[derive(Debug)]
pub struct Report {
    pub script: Arc<Script>,
    pub history: History,
    pub answers: Answers,
}

impl Drop for Report {
    fn drop(self) {
        let Report {
            script: _,
            history: _,
            answers: _,
        } = self;
    }
}
