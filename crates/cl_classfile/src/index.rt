//! Where the members of a class stand, by their names and descriptors: made once for a class of many members, as it is read.

ghost use Rattle.std.specs.Prelude.{◌≡◌, ℕ, List, [], true, not, IfOk};
ghost use Rattle.cl_classfile.specs.Structure.{MemberInfo};
ghost use Rattle.std.specs.Option.{option_map};
ghost use Rattle.cl_classfile.specs.declared.entry.Entry.{Entry};
ghost use Rattle.cl_classfile.specs.Numbers.{AreNoted};
ghost use Rattle.cl_classfile.specs.Indexes.{MembersAreFew, IndexLeads, StandThere, PutsPlace, has_place, led_to, member_in};

use crate::entry::Entry;
use crate::member::Member;
use crate::numbers::Numbers;
use cl_names::Name;
use std::alloc::{AllocError, Global};
use std::collections::BTreeMap;

/// So many members are looked through as fast, without an index.
const FEW_MEMBERS: usize = 16;

/// Where members stand, by the numbers of their names and descriptors.
#[derive(Debug, Drop)]
pub struct Places {
    map: BTreeMap<(u16, u16), usize, Global>,
}

/// Where the fields and the methods of a class stand.
#[derive(Debug, Drop)]
pub struct Index {
    pub(crate) numbers: Numbers,
    pub(crate) fields: Places,
    pub(crate) methods: Places,
}

/// Whether these members are so few that they have no index.
pub fn are_few(fields: &[Member], methods: &[Member]) -> bool
    ensures { result ≡ true → MembersAreFew fields.now methods.now }
{
    fields.len() <= FEW_MEMBERS && methods.len() <= FEW_MEMBERS
}

/// The index of members that have these numbers and stand at these places.
pub fn index_of(numbers: Numbers, fields: Places, methods: Places) -> Index
    ensures { (pool : List Entry) (fs ms : List MemberInfo) → AreNoted pool numbers fs
        → AreNoted pool numbers ms → StandThere numbers fields fs → StandThere numbers methods ms
        → IndexLeads pool result fs ms }
{
    Index {
        numbers,
        fields,
        methods,
    }
}

impl Places {
    /// Of no members.
    pub fn new(alloc: Global) -> Places
        ensures { result.map.entries ≡ [] }
    {
        Places {
            map: BTreeMap::new(alloc),
        }
    }

    /// Puts the place of a member of these numbers. Answers whether there was none.
    pub fn put(&mut self, name: u16, descriptor: u16, place: usize) -> Result<bool, AllocError>
        ensures { IfOk result (λ first. (first ≡ not (has_place self.old (name, descriptor)))
            × PutsPlace self.old self.new (name, descriptor) place) }
    {
        Ok(self.map.insert((name, descriptor), place)?.is_none())
    }

    /// The member of these numbers.
    fn member<'a>(&self, members: &'a [Member], name: u16, descriptor: u16) -> Option<&'a Member>
        ensures { option_map (λ m. m.now) result ≡ member_in self.now members.now name descriptor }
    {
        let place = self.map.get(&(name, descriptor))?;
        members.get(*place)
    }
}

/// The member of this name and this descriptor among these, which stand at these places by the numbers of their texts.
pub fn led_to<'a>(
    pool: &[Entry],
    numbers: &Numbers,
    places: &Places,
    members: &'a [Member],
    name: &Name,
    descriptor: &Name,
) -> Option<&'a Member>
    ensures { option_map (λ m. m.now) result
        ≡ led_to pool.now numbers.now places.now members.now name.now descriptor.now }
{
    let name = numbers.number_of(pool, name)?;
    let descriptor = numbers.number_of(pool, descriptor)?;
    places.member(members, name, descriptor)
}
