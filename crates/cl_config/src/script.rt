//! The requests that a text asks for, in rounds.

ghost use Rattle.std.specs.Prelude.{◌≡◌, ◌<◌, List, ℕ, [], ◌∷◌, ◌++◌, MatchOption, IfOk, OnOk, codes, length, slice_get};
ghost use Rattle.cl_config.specs.Scripts.{script_of, line_of, HasLoaders, HasWords, IsScript, IsThen};
ghost use Rattle.cl_config.specs.declared.script.Action.{Action};
ghost use Rattle.cl_config.specs.Views.{Scripted, names_of};
ghost use Rattle.cl_names.specs.Truth.{Decides};

use crate::config::Config;
use crate::limits::{MOST_REQUESTS, MOST_THENS};
use crate::same::are_same;
use cl_lines::{Line, Stated, Words, number_of};
use cl_model::Request;
use cl_names::class_name;
use std::alloc::{AllocError, Global};
use std::error::Error;
use std::fmt::{self, Display, Formatter};
use std::marker::Model;

/// The requests, in order, at most `MOST_REQUESTS`, in 1 to `MOST_THENS` + 1 rounds. A round may be empty.
#[derive(Debug)]
pub struct Script {
    requests: Vec<Request>,
    /// The round of each request, counted from 0.
    rounds_of: Vec<u32>,
    rounds: u32,
}

impl Drop for Script {
    fn drop(self) {
        let Script {
            requests: _,
            rounds_of: _,
            rounds: _,
        } = self;
    }
}

impl Model for Script {
    ghost use Rattle.cl_config.specs.Scripts.{IsScript};
    ghost use Rattle.cl_config.specs.Views.{Scripted};

    ghost Value = { Scripted };

    ghost view = { λ s. record {
      requests = s.requests.items;
      rounds_of = s.rounds_of.items;
      rounds = s.rounds;
    } };

    ghost invariant = { λ s. IsScript (record {
      requests = s.requests.items;
      rounds_of = s.rounds_of.items;
      rounds = s.rounds;
    }) };
}

/// Why a text is no script. Lines count from 1, skipped ones included.
#[derive(Clone, Copy, Debug, PartialEq, Eq)]
pub enum ScriptFault {
    Memory,
    BadLine(usize),
    UnknownLoader(usize),
    TooMany,
}

impl Display for ScriptFault {
    ghost use Rattle.std.specs.Prelude.{Some};
    ghost use Rattle.cl_config.specs.Texts.{script_text};

    ghost output = { λ fault. Some (script_text fault) };

    fn fmt<W: fmt::Write>(&self, f: &mut Formatter<W>) -> fmt::Result {
        match self {
            ScriptFault::Memory => write!(f, "L0 Memory"),
            ScriptFault::BadLine(line) => write!(f, "L1 BadLine {line}"),
            ScriptFault::UnknownLoader(line) => write!(f, "L2 UnknownLoader {line}"),
            ScriptFault::TooMany => write!(f, "L3 TooMany"),
        }
    }
}

impl Error for ScriptFault {}

impl From<AllocError> for ScriptFault {
    ghost use Rattle.cl_config.specs.declared.script.ScriptFault.TheVariants.{Memory};

    ghost from_gives = { λ _ e. e ≡ Memory };

    fn from(_e: AllocError) -> ScriptFault {
        ScriptFault::Memory
    }
}

impl Script {
    /// The script that a text is, whose lines that are not skipped are `load LOADER NAME`, `resolve LOADER NAME INDEX`
    /// or `link LOADER NAME`, NAME the escaped text of a class's name and INDEX one to five digits, or `then`, which
    /// begins a round. Else the first line that is wrong: `BadLine`, then `UnknownLoader`, then `TooMany`, where it is
    /// one over `MOST_REQUESTS` requests or `MOST_THENS` lines `then`. `Memory`.
    pub fn read(alloc: Global, config: &Config, text: &str) -> Result<Script, ScriptFault>
        ensures read { script_of (names_of config.now) text.now result }
        ensures loaders { IfOk result (λ s. HasLoaders (length config.now.loaders) s.requests) }
    {
        let mut requests = Vec::new(alloc);
        let mut rounds_of = Vec::new(alloc);
        let mut round = 0;
        for line in Stated::new(text) {
            match line_says(alloc, config, line)? {
                Said::Ask(request) => {
                    if requests.len() == MOST_REQUESTS {
                        return Err(ScriptFault::TooMany);
                    }
                    push(&mut requests, &mut rounds_of, request, round)?;
                }
                Said::Then => {
                    if round == MOST_THENS {
                        return Err(ScriptFault::TooMany);
                    }
                    round += 1;
                }
            }
        }
        Ok(Script {
            requests,
            rounds_of,
            rounds: round + 1,
        })
    }

    /// Whether the other has the same requests, in order and in the same rounds, and as many rounds.
    pub fn is_same(&self, other: &Script) -> bool
        ensures { Decides result (self.now ≡ other.now) }
    {
        let same_rounds = self.rounds == other.rounds && self.rounds_of == other.rounds_of;
        same_rounds && are_same(self.requests.as_slice(), other.requests.as_slice())
    }

    /// The requests, in order.
    pub fn requests(&self) -> &[Request]
        ensures requests { result.now ≡ self.now.requests }
        ensures script { IsScript self.now }
    {
        self.requests.as_slice()
    }

    /// The round of a request, counted from 0.
    pub fn round_of(&self, request: usize) -> u32
        requires { request < length self.now.requests }
        ensures { slice_get self.now.rounds_of request ≡ Some result }
    {
        self.rounds_of[request]
    }

    /// How many rounds there are: 1 and one for each line `then`.
    pub fn rounds(&self) -> u32
        ensures { result ≡ self.now.rounds }
    {
        self.rounds
    }
}

/// A law of the definition: a text is one script at most.
pub fn text_is_one_script()
    ensures { (names : List (List ℕ)) (text : List ℕ) (a b : Scripted) → script_of names text (Ok a)
        → script_of names text (Ok b) → a ≡ b }
{}

/// What a line says.
#[derive(Debug, Drop)]
pub(crate) enum Said {
    /// A request.
    Ask(Request),
    /// A new round begins.
    Then,
}

/// What a request's line asks for, loader and name apart.
#[derive(Clone, Copy, Debug)]
pub(crate) enum Action {
    Load,
    /// The entry of this index.
    Resolve(u16),
    Link,
}

/// What a line says.
fn line_says(alloc: Global, config: &Config, line: Line<'_>) -> Result<Said, ScriptFault>
    ensures { line_of (names_of config.now)
        (record { number = line.entry.number; text = line.entry.text.now }) result }
{
    if is_then(line.text) {
        return Ok(Said::Then);
    }
    let Some((action, word, text)) = request_words(line.text) else {
        return Err(ScriptFault::BadLine(line.number));
    };
    let Some(name) = class_name(alloc, text)? else {
        return Err(ScriptFault::BadLine(line.number));
    };
    let Some(loader) = config.loader(word) else {
        return Err(ScriptFault::UnknownLoader(line.number));
    };
    Ok(Said::Ask(match action {
        Action::Load => Request::Load(loader, name),
        Action::Resolve(index) => Request::Resolve(loader, name, index),
        Action::Link => Request::Link(loader, name),
    }))
}

/// Whether a line is the one word `then`.
fn is_then(line: &str) -> bool
    ensures { Decides result (IsThen line.now) }
{
    let mut words = Words::new(line);
    match (words.next(), words.next()) {
        (Some(first), None) => first == "then",
        _ => false,
    }
}

/// What a line asks for, the name of its loader and the text of its class's name, where its words are those of a
/// request.
fn request_words(line: &str) -> Option<(Action, &str, &str)>
    ensures { MatchOption result ((action : Action) (a b : List ℕ)
        → HasWords line.now action a b → ⊥) (λ p. HasWords line.now p.0 p.1.now p.2.now) }
{
    let mut words = Words::new(line);
    let first = words.next()?;
    let loader = words.next()?;
    let name = words.next()?;
    let action = match (words.next(), words.next()) {
        (None, _) if first == "load" => Action::Load,
        (None, _) if first == "link" => Action::Link,
        (Some(index), None) if first == "resolve" => Action::Resolve(number_of(index)?),
        _ => return None,
    };
    Some((action, loader, name))
}

/// Adds a request of a round.
fn push(
    requests: &mut Vec<Request>,
    rounds_of: &mut Vec<u32>,
    request: Request,
    round: u32,
) -> Result<(), AllocError>
    ensures request { OnOk result (requests.new.items ≡ requests.old.items ++ request ∷ []) }
    ensures round { OnOk result (rounds_of.new.items ≡ rounds_of.old.items ++ round ∷ []) }
{
    requests.push(request)?;
    rounds_of.push(round)?;
    Ok(())
}
