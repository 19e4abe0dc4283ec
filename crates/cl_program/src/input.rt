//! What the program reads and draws for a run: its input, and a seed.

ghost use Rattle.std.specs.Prelude.{◌≡◌, IfOk, IfErr, IfSome, Err, string_bytes};
ghost use Rattle.cl_streams.specs.Reading.{GivesOver};
ghost use Rattle.cl_program.specs.Files.{AreNoText};
ghost use Rattle.cl_program.specs.Faults.{IsInputFault, input_fault};
ghost use Rattle.cl_program.specs.Runs.{IsInput};

use crate::fault::Fault;
use crate::limits::MOST_INPUT_BYTES;
use cl_names::Seed;
use cl_streams::read_bytes;
use std::alloc::Global;
use std::hash::RandomState;
use std::io::Read;
use std::random::RandomSource;

/// The text of an input, read to its end.
pub(crate) fn read_text<I: Read + Drop>(alloc: Global, mut input: I) -> Result<String, Fault>
    ensures ok { IfOk result (λ t. IsInput (I.remaining input) (string_bytes t)) }
    ensures large { result ≡ Err Fault.TooLarge
        → GivesOver (I.remaining input) MOST_INPUT_BYTES }
    ensures not_text { result ≡ Err Fault.NotUtf8
        → IfSome (I.remaining input) (λ bytes. AreNoText bytes) }
    ensures faults { IfErr result IsInputFault }
{
    let bytes = read_bytes(alloc, &mut input, MOST_INPUT_BYTES)?;
    match String::from_utf8(bytes) {
        Ok(text) => Ok(text),
        Err(_) => Err(Fault::NotUtf8),
    }
}

/// A seed for the tables of names, which strangers cannot know, if one is to be had.
pub(crate) fn draw_seed<F: RandomSource>(random: &F) -> Option<Seed> {
    match RandomState::new(random) {
        Ok(state) => Some(Seed::from_state(state)),
        Err(_) => None,
    }
}
