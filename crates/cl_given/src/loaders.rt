//! Loaders, and scripts over them.

ghost use Rattle.std.specs.Prelude.{length, IfOk};
ghost use Rattle.cl_config.specs.Scripts.{HasLoaders};

use cl_config::{Config, Script};
use std::alloc::{AllocError, Global};
use std::sync::Arc;

/// Four loaders, of which `plug` looks at its own content first.
pub const LOADERS: &str =
    "[[loader]]\nname = \"boot\"\n[[loader]]\nname = \"app\"\nparent = \"boot\"\n[[loader]]\nname = \"plug\"\nparent = \"app\"\norder = \"child\"\n[[loader]]\nname = \"kid\"\nparent = \"app\"\n";

pub const BOOT: u16 = 0;

pub const APP: u16 = 1;

pub const PLUG: u16 = 2;

pub const KID: u16 = 3;

/// The configuration that a text is.
pub fn config(alloc: Global, text: &str) -> Result<Arc<Config>, AllocError> {
    match Config::read(alloc, text) {
        Ok(config) => Ok(Arc::new(alloc, config)?),
        Err(refused) => {
            drop(refused);
            Err(AllocError)
        }
    }
}

/// The script that a text is, of these loaders.
pub fn script(alloc: Global, config: &Arc<Config>, text: &str) -> Result<Arc<Script>, AllocError>
    ensures { IfOk result (λ s. HasLoaders (length config.now.value.loaders) s.value.requests) }
{
    let Ok(script) = Script::read(alloc, config, text) else {
        return Err(AllocError);
    };
    Ok(Arc::new(alloc, script)?)
}
