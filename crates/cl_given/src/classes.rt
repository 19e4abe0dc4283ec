//! Classes, by names that stand in tables, and their files.

ghost use Rattle.std.specs.Prelude.{◌≡◌, IfOk};

use cl_model::{Class, LoaderId};
use cl_names::Name;
use std::alloc::{AllocError, Global};

/// The classes of the tests. (A table of names as bytes costs the proof of whoever reads it minutes, one of these seconds.)
#[derive(Clone, Copy)]
pub enum Named {
    Top,
    T,
    Service,
    Sub,
    User,
}

// (a function hides the bytes from the proofs of those that call it, which would carry them through each step)
pub fn bytes_of(name: Named) -> &'static [u8] {
    match name {
        Named::Top => b"java/lang/Object",
        Named::T => b"p/T",
        Named::Service => b"p/Svc",
        Named::Sub => b"q/C",
        Named::User => b"p/Use",
    }
}

/// The file of a class: `java/lang/Object`, three public classes over it, and `q/C` over `p/Svc`. These two have the public
/// method `m (Lp/T;)V`, and the first entry of `p/Use` is a reference to that of `p/Svc`.
pub fn file_bytes(name: Named) -> &'static [u8] {
    match name {
        Named::Top => {
            b"\xca\xfe\xba\xbe\x00\x00\x00\x34\x00\x03\x01\x00\x10java/lang/Object\x07\x00\x01\x00\x21\x00\x02\x00\x00\x00\x00\x00\x00\x00\x00\x00\x00"
        }
        Named::T => {
            b"\xca\xfe\xba\xbe\x00\x00\x00\x34\x00\x05\x01\x00\x03p/T\x07\x00\x01\x01\x00\x10java/lang/Object\x07\x00\x03\x00\x21\x00\x02\x00\x04\x00\x00\x00\x00\x00\x00\x00\x00"
        }
        Named::Service => {
            b"\xca\xfe\xba\xbe\x00\x00\x00\x34\x00\x07\x01\x00\x05p/Svc\x07\x00\x01\x01\x00\x10java/lang/Object\x07\x00\x03\x01\x00\x01m\x01\x00\x08(Lp/T;)V\x00\x21\x00\x02\x00\x04\x00\x00\x00\x00\x00\x01\x00\x01\x00\x05\x00\x06\x00\x00\x00\x00"
        }
        Named::Sub => {
            b"\xca\xfe\xba\xbe\x00\x00\x00\x34\x00\x07\x01\x00\x03q/C\x07\x00\x01\x01\x00\x05p/Svc\x07\x00\x03\x01\x00\x01m\x01\x00\x08(Lp/T;)V\x00\x21\x00\x02\x00\x04\x00\x00\x00\x00\x00\x01\x00\x01\x00\x05\x00\x06\x00\x00\x00\x00"
        }
        Named::User => {
            b"\xca\xfe\xba\xbe\x00\x00\x00\x34\x00\x0b\x0a\x00\x03\x00\x06\x01\x00\x05p/Svc\x07\x00\x02\x01\x00\x01m\x01\x00\x08(Lp/T;)V\x0c\x00\x04\x00\x05\x01\x00\x05p/Use\x07\x00\x07\x01\x00\x10java/lang/Object\x07\x00\x09\x00\x21\x00\x08\x00\x0a\x00\x00\x00\x00\x00\x00\x00\x00"
        }
    }
}

/// The name that bytes spell.
pub fn class_name(alloc: Global, name: &[u8]) -> Result<Name, AllocError>
    ensures { IfOk result (λ n. n ≡ name.now) }
{
    Name::class(alloc, name).map_err(|_| AllocError)
}

/// Whether a class is that of a name and a loader.
pub fn is_class(class: &Class, loader: u16, name: Named) -> bool {
    class.loader == LoaderId(loader) && class.name.bytes() == bytes_of(name)
}
