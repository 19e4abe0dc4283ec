//! Sources in memory: what is put, what is refused, and the count of refused reads.

use cl_given::class_name;
use cl_model::{LoaderId, Untold};
use cl_source::{FaultySource, MemorySource, Outcome, Probe, Source, SourceFault, Telling};
use std::alloc::{AllocError, Global};
use std::process::Abort;
use std::test::Fail;

/// Loaders, lengths of what is put for `p/A`, and the refusal.
const PUTS: [(u16, usize, Option<SourceFault>); 6] = [
    (2, 2, None),
    (0, 0, None),
    (2, 1, Some(SourceFault::Twice)),
    (1, 16_777_217, Some(SourceFault::TooLarge)),
    (2, 16_777_217, Some(SourceFault::TooLarge)),
    (4, 16_777_216, None),
];

/// Loaders, and the lengths of what is found for `p/A`.
const READS: [(u16, Option<usize>); 5] = [
    (2, Some(2)),
    (0, Some(0)),
    (1, None),
    (4, Some(16_777_216)),
    (9, None),
];

/// How many bytes a probe found, if there are any.
fn length_of(probe: Probe<Untold>) -> Option<usize> {
    let length = match probe.outcome() {
        Outcome::Found(bytes) => Some(bytes.as_slice().len()),
        Outcome::Absent => None,
    };
    drop(probe);
    length
}

/// How much a source has for `p/A`.
fn length_in<S: Source<Untold>>(
    alloc: Global,
    source: &mut S,
    loader: u16,
) -> Result<Option<usize>, SourceFault> {
    let name = class_name(alloc, b"p/A")?;
    match source.read(alloc, LoaderId(loader), &name) {
        Ok(probe) => Ok(length_of(probe)),
        Err(fault) => Err(fault),
    }
}

/// What a source tells of so many bytes for `p/A`.
fn put(
    alloc: Global,
    source: &mut MemorySource,
    loader: u16,
    length: usize,
) -> Result<Option<SourceFault>, AllocError> {
    let name = class_name(alloc, b"p/A")?;
    let bytes = vec![in alloc; 0u8; length]?;
    match source.put(alloc, LoaderId(loader), name, bytes) {
        Ok(()) => Ok(None),
        Err(refused) => {
            let fault = refused.fault;
            drop(refused);
            Ok(Some(fault))
        }
    }
}

/// A source, after all puts.
fn fill_source<R: Abort>(rt: &R, alloc: Global) -> Result<Telling<Untold>, AllocError> {
    let mut source = MemorySource::new(alloc);
    for (loader, length, fault) in PUTS {
        assert!(rt; put(alloc, &mut source, loader, length)? == fault);
    }
    Ok(source.tell::<Untold>())
}

/// Reads all, of which one fails.
fn read_all<R: Abort, S: Source<Untold>>(rt: &R, alloc: Global, source: &mut S, failing: usize) {
    for (number, (loader, length)) in READS.iter().enumerate() {
        let wanted = if number == failing {
            Err(SourceFault::Device)
        } else {
            Ok(*length)
        };
        assert!(rt; length_in(alloc, source, *loader) == wanted);
    }
}

/// What was put is found; what is too large or there already is refused. One read of each source fails where that is asked
/// for, is counted, and no other is; another of the source tells the same and counts for itself.
#[test]
fn sources(rt: HostRuntime) -> Result<(), Fail> {
    let alloc = rt.alloc();
    let telling = fill_source(&rt, alloc)?;
    for (at, failing) in [(0u64, 9), (1, 0), (3, 2)] {
        let mut faulty = FaultySource::new(telling.another(alloc)?, at);
        read_all(&rt, alloc, &mut faulty, failing);
        assert!(rt; faulty.failures() == u64::from(at != 0));
        let second = faulty.another(alloc);
        drop(faulty);
        let mut second = second?;
        assert!(rt; second.failures() == 0);
        assert!(rt; length_in(alloc, &mut second, 2).is_err() == (at == 1));
        drop(second);
    }
    Ok(())
}
