//! What stands at an index of the pool (JVMS SE 8, 4.1).

ghost use Rattle.std.specs.Prelude.{◌≡◌};
ghost use Rattle.std.specs.Option.{option_map};
ghost use Rattle.cl_classfile.specs.Pool.{at};

/// What stands at an index among these, one for each entry of the pool: from 1 on.
pub fn item_at<T>(items: &[T], index: u16) -> Option<&T>
    ensures { option_map (λ t. t.now) result ≡ at items.now index }
{
    if index == 0 {
        return None;
    }
    items.get(index as usize - 1)
}
