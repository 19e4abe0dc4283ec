//! What bytes spell of a pool, and what not: its count, the width of each entry, and the indices that a long or a double
//! takes (JVMS SE 8, 4.1, 4.4).

ghost use Rattle.std.specs.Prelude.{◌≡◌, ◌+◌, ◌<◌, ◌^◌, false, length};
ghost use Rattle.cl_classfile.specs.Raw.{plain_entry, plain_entries};
ghost use Rattle.cl_classfile.specs.Widths.{entry_fits, is_unusable};
ghost use Rattle.cl_names.specs.Steps.{Finds};
ghost use Rattle.cl_classfile.specs.Checking.{fits_slot, checked_slots};

use crate::fault::Fault;
use crate::raw::{RawEntry, is_wide};
use cl_names::MOST_TEXT_BYTES;

/// Whether the entry is such as its width can say: of what an entry may hold a text alone can be too long.
fn entry_fits(entry: RawEntry<'_>) -> bool
    ensures { result ≡ entry_fits (plain_entry entry.entry) }
{
    match entry {
        RawEntry::Utf8(text) => text.len() <= MOST_TEXT_BYTES,
        _ => true,
    }
}

/// Whether it is the second index of a long or a double.
fn is_unusable(entry: RawEntry<'_>) -> bool
    ensures { result ≡ is_unusable (plain_entry entry.entry) }
{
    match entry {
        RawEntry::Unusable => true,
        _ => false,
    }
}

/// Whether the entry may stand behind one that takes its index too, or behind another.
fn fits_slot(taken: bool, entry: RawEntry<'_>) -> bool
    ensures { result ≡ fits_slot taken (plain_entry entry.entry) }
{
    if taken {
        is_unusable(entry)
    } else {
        !is_unusable(entry) && entry_fits(entry)
    }
}

/// Whether each entry may stand where it does.
pub fn check_slots(pool: &[RawEntry<'_>]) -> Result<(), Fault>
    requires { length pool.now + 1 < 2 ^ 16 }
    ensures { Finds (λ u. u) result (checked_slots 0 false (plain_entries pool.now)) }
{
    let mut taken = false;
    for (i, entry) in pool.iter().enumerate() {
        if !fits_slot(taken, *entry) {
            return Err(Fault::BadPool(i as u16 + 1));
        }
        taken = is_wide(*entry);
    }
    if taken {
        return Err(Fault::BadPool(pool.len() as u16));
    }
    Ok(())
}
