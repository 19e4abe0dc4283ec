//! Members by their names and descriptors (JVMS SE 8, 4.5, 4.6).

ghost use Rattle.std.specs.Prelude.{◌≡◌, Some, find};
ghost use Rattle.std.specs.Option.{option_map};
ghost use Rattle.cl_classfile.specs.Files.{file_of};
ghost use Rattle.cl_classfile.specs.Lookups.{field_named, method_named, linked_field, linked_method, has_texts};

use crate::checking::is_text;
use crate::entry::Entry;
use crate::file::ClassFile;
use crate::index::led_to;
use crate::member::Member;
use cl_names::Name;

fn has_texts(pool: &[Entry], name: &Name, descriptor: &Name, member: &Member) -> bool
    ensures { result ≡ has_texts pool.now name.now descriptor.now member.now }
{
    is_text(pool, member.descriptor_index(), descriptor) && is_text(pool, member.name_index(), name)
}

/// The first of these members with this name and this descriptor.
fn find<'a>(
    pool: &[Entry],
    members: &'a [Member],
    name: &Name,
    descriptor: &Name,
) -> Option<&'a Member>
    ensures { option_map (λ m. m.now) result ≡ find (has_texts pool.now name.now descriptor.now)
        members.now }
{
    members
        .iter()
        .find(|member| has_texts(pool, name, descriptor, member))
}

impl ClassFile {
    /// The field of this name and this descriptor, if the class declares one; no two fields agree in both (JVMS SE 8,
    /// 4.5). Takes no memory; compares each of the two texts with at most 16 others, or else with one, and with some log n of n
    /// others where they were chosen to share a slot with it.
    pub fn field(&self, name: &Name, descriptor: &Name) -> Option<&Member>
        ensures { option_map (λ m. linked_field self.now m.now) result ≡ option_map (λ m. Some m)
            (field_named (file_of self.now) name.now descriptor.now) }
    {
        let pool = self.pool();
        let fields = self.fields();
        match self.index() {
            Some(it) => led_to(pool, &it.numbers, &it.fields, fields, name, descriptor),
            None => find(pool, fields, name, descriptor),
        }
    }

    /// The method of this name and this descriptor, if the class declares one; no two methods agree in both (JVMS SE 8,
    /// 4.6). Takes no memory; compares each of the two texts with at most 16 others, or else with one, and with some log n of n
    /// others where they were chosen to share a slot with it.
    pub fn method(&self, name: &Name, descriptor: &Name) -> Option<&Member>
        ensures { option_map (λ m. linked_method self.now m.now) result ≡ option_map (λ m. Some m)
            (method_named (file_of self.now) name.now descriptor.now) }
    {
        let pool = self.pool();
        let methods = self.methods();
        match self.index() {
            Some(it) => led_to(pool, &it.numbers, &it.methods, methods, name, descriptor),
            None => find(pool, methods, name, descriptor),
        }
    }
}
