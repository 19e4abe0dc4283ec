//! Reading to the end.

ghost use Rattle.std.specs.Prelude.{◌≡◌, ◌<◌, ◌≤◌, ◌^◌, length, IfOk, Err, vec_len};
ghost use Rattle.cl_streams.specs.Reading.{AreAllOf, GivesOver};

use std::alloc::{AllocError, Global};
use std::io::{ErrorKind, Read};

/// Why the bytes of an input were not read to their end.
#[derive(Clone, Copy, Debug, PartialEq, Eq)]
pub enum InputFault {
    /// A read failed.
    Unread,
    /// There are more bytes than are wanted.
    TooLarge,
    Memory,
}

impl From<AllocError> for InputFault {
    ghost use Rattle.cl_streams.specs.declared.input.InputFault.TheVariants.{Memory};

    ghost from_gives = { λ _ e. e ≡ Memory };

    fn from(_error: AllocError) -> InputFault {
        InputFault::Memory
    }
}

/// The bytes of an input, read to its end, of which there are at most so many, where nothing is known of its length.
pub fn read_bytes<I: Read>(alloc: Global, input: &mut I, most: usize) -> Result<Vec<u8>, InputFault>
    requires { most < 2 ^ 32 }
    ensures ok { IfOk result (λ v. AreAllOf (I.remaining input.old) v.items) }
    ensures small { IfOk result (λ v. vec_len v ≤ most) }
    ensures large { result ≡ Err InputFault.TooLarge
        → GivesOver (I.remaining input.old) most }
{
    read_limited(alloc, input, most, 0)
}

/// The bytes of an input, read to its end, of which there are at most so many. No more than one byte beyond them is
/// asked for, and a read that was interrupted is made again. The buffer starts with room for the expected length.
pub fn read_limited<I: Read + Drop>(
    alloc: Global,
    input: I,
    most: usize,
    expected: u64,
) -> Result<Vec<u8>, InputFault>
    requires { most < 2 ^ 32 }
    ensures ok { IfOk result (λ v. AreAllOf (I.remaining input) v.items) }
    ensures small { IfOk result (λ v. length v.items ≤ most) }
    ensures large { result ≡ Err InputFault.TooLarge
        → GivesOver (I.remaining input) most }
{
    let limit = most as u64 + 1;
    let room = expected.min(limit);
    let mut bytes = Vec::with_capacity(alloc, room as usize)?;
    let mut limited = input.take(limit);
    match limited.read_to_end(&mut bytes) {
        Ok(_) if bytes.len() > most => Err(InputFault::TooLarge),
        Ok(_) => Ok(bytes),
        Err(error) if error.kind() == ErrorKind::OutOfMemory => Err(InputFault::Memory),
        Err(_) => Err(InputFault::Unread),
    }
}
