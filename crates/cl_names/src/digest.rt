//! What stands behind the text of a long name, so that no table and no test of packages need go through the text each time.

ghost use Rattle.std.specs.Prelude.{◌≡◌, IfOk};
ghost use Rattle.cl_names.specs.Digest.{digest, bytes_to_keep};

use std::alloc::{AllocError, Global};
use std::hash::{DefaultHasher, Hasher};

/// A name of no more bytes may be a part of bytes that others share. A longer one has its text in an allocation of its own, with
/// a digest behind it, which is what tables hash.
pub const MOST_SHARED_BYTES: usize = 256;

/// How many bytes a digest has.
pub const DIGEST_BYTES: usize = 8;

/// The digest of a text, which the hasher with the known keys makes of it: equal names have to be hashed alike, whatever table
/// they stand in, so a digest knows no seed (`docs/DECISIONS.md`).
fn digest(text: &[u8]) -> [u8; 8]
    ensures { result ≡ digest text.now }
{
    let mut hasher = DefaultHasher::new();
    hasher.write(text);
    hasher.finish().to_le_bytes()
}

/// A copy of a text as a name keeps it: with its digest behind it, if it is long.
pub fn bytes_to_keep(alloc: Global, text: &[u8]) -> Result<Vec<u8>, AllocError>
    ensures { IfOk result (λ v. v.items ≡ bytes_to_keep text.now) }
{
    if text.len() <= MOST_SHARED_BYTES {
        return Vec::from_slice(alloc, text);
    }
    let mut bytes = Vec::with_capacity(alloc, text.len().saturating_add(DIGEST_BYTES))?;
    bytes.extend_from_slice(text)?;
    bytes.extend_from_slice(&digest(text))?;
    Ok(bytes)
}
