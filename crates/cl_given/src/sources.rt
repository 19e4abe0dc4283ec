//! Sources of files.

ghost use Rattle.std.specs.Prelude.{OnOk};
ghost use Rattle.cl_source.specs.Puts.{TellsMore};

use crate::classes::{Named, bytes_of, class_name, file_bytes};
use crate::loaders::{APP, BOOT, PLUG};
use cl_model::{LoaderId, Untold};
use cl_source::{MemorySource, Telling};
use std::alloc::{AllocError, Global};

/// A service in `app` whose method takes a `p/T`, a class in `plug` that calls it, and a `p/T` in each.
pub const SHARED: [(u16, Named); 5] = [
    (BOOT, Named::Top),
    (APP, Named::Service),
    (APP, Named::T),
    (PLUG, Named::T),
    (PLUG, Named::User),
];

/// Puts bytes for a name of a loader.
pub fn put(
    alloc: Global,
    source: &mut MemorySource,
    loader: u16,
    name: &[u8],
    bytes: Vec<u8>,
) -> Result<(), AllocError>
    ensures { OnOk result (TellsMore source.old source.new loader name.now bytes.items) }
{
    let name = class_name(alloc, name)?;
    match source.put(alloc, LoaderId(loader), name, bytes) {
        Ok(()) => Ok(()),
        Err(refused) => {
            drop(refused);
            Err(AllocError)
        }
    }
}

/// Puts the files of these classes of these loaders.
fn put_classes(
    alloc: Global,
    source: &mut MemorySource,
    classes: &[(u16, Named)],
) -> Result<(), AllocError> {
    for (loader, name) in classes {
        let bytes = Vec::from_slice(alloc, file_bytes(*name))?;
        put(alloc, source, *loader, bytes_of(*name), bytes)?;
    }
    Ok(())
}

/// What has the files of these classes of these loaders, and can be given more.
pub fn source(alloc: Global, classes: &[(u16, Named)]) -> Result<MemorySource, AllocError> {
    let mut source = MemorySource::new(alloc);
    match put_classes(alloc, &mut source, classes) {
        Ok(()) => Ok(source),
        Err(fault) => {
            drop(source);
            Err(fault)
        }
    }
}

/// A source of the files of these classes of these loaders.
pub fn telling_source(
    alloc: Global,
    classes: &[(u16, Named)],
) -> Result<Telling<Untold>, AllocError> {
    Ok(source(alloc, classes)?.tell::<Untold>())
}
