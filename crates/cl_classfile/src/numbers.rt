//! Numbers of texts, the same for equal ones: each text that members name is looked for once, however many members name it and
//! however long it is.

ghost use Rattle.std.specs.Prelude.{◌≡◌, List, true, false, Some, None, IfOk, bit_and};
ghost use Rattle.cl_classfile.specs.declared.entry.Entry.{Entry};
ghost use Rattle.cl_classfile.specs.Files.{text_at};
ghost use Rattle.cl_classfile.specs.Numbers.{IsNumber, AreNumbers, AreNoted, Notes, KeepsNumbers, NotesAll, PutsNumber, TakesSlot, rank_of, number_in_slot, found_number, number_of, noted_at, with_number};

use crate::checking::{is_text, text_at};
use crate::entry::Entry;
use crate::indices::item_at;
use crate::member::Member;
use cl_names::Name;
use std::alloc::{AllocError, Global};
use std::collections::BTreeMap;
use std::hash::{FoldHasher, Hash, Hasher};

/// The numbers of texts: of each text that was met, the first index of it that was asked for.
#[derive(Debug, Drop)]
pub struct Numbers {
    /// The number of the first text that was met of those that share a slot, or 0: few do.
    slots: Vec<u16>,
    /// Which bits of a rank tell the slot.
    mask: usize,
    /// The numbers of the texts whose slot another had before them. Who picks texts can make all of them share one, so this
    /// map is in order.
    others: BTreeMap<Name, u16, Global>,
    /// Of each index of the pool the number of the text there, or 0 where it was not asked for.
    noted: Vec<u16>,
}

/// The rank of a text, which equal texts have alike. Of a long one no byte is looked at (`Name` keeps a digest).
#[tactic(auto, unfolding(crate::specs::Numbers::rank_of))]
fn rank_of(text: &Name) -> usize
    ensures { result ≡ rank_of text.now }
{
    let mut hasher = FoldHasher::default();
    text.hash(&mut hasher);
    hasher.finish() as usize
}

/// The mask of some eight slots for each of so many members, and of at least 128.
fn mask_of(members: usize) -> usize {
    let mut mask = 127usize;
    for _ in 0..12 {
        if mask / 8 < members {
            mask = mask.wrapping_mul(2) | 1;
        }
    }
    mask
}

/// The numbers of the texts that the members name.
pub fn numbers_of(
    alloc: Global,
    pool: &[Entry],
    fields: &[Member],
    methods: &[Member],
) -> Result<Numbers, AllocError>
    ensures fields { IfOk result (λ ns. AreNoted pool.now ns fields.now) }
    ensures methods { IfOk result (λ ns. AreNoted pool.now ns methods.now) }
{
    let mask = mask_of(fields.len().saturating_add(methods.len()));
    let mut numbers = Numbers {
        slots: vec![in alloc; 0u16; mask.saturating_add(1)]?,
        mask,
        others: BTreeMap::new(alloc),
        noted: vec![in alloc; 0u16; pool.len()]?,
    };
    numbers.note_all(alloc, pool, fields)?;
    numbers.note_all(alloc, pool, methods)?;
    Ok(numbers)
}

impl Numbers {
    /// The number of the text at an index, or 0 where it is none or was not asked for.
    pub fn at(&self, index: u16) -> u16
        ensures { result ≡ noted_at self.now.noted.items index }
    {
        match item_at(self.noted.as_slice(), index) {
            Some(number) => *number,
            None => 0,
        }
    }

    /// The number of a text, if a member that was asked for names it, in the pool that was asked. Bytes are looked at where a
    /// text of the same slot was met.
    pub fn number_of(&self, pool: &[Entry], text: &Name) -> Option<u16>
        ensures { result ≡ number_of pool.now self.now text.now }
    {
        self.number_at_rank(pool, rank_of(text), text)
    }

    /// The number of the text of this rank.
    fn number_at_rank(&self, pool: &[Entry], rank: usize, text: &Name) -> Option<u16>
        ensures { result ≡ found_number pool.now self.now rank text.now }
    {
        let number = self.slot(rank);
        if is_text(pool, number, text) {
            return Some(number);
        }
        self.others.get(text).copied()
    }

    /// The number that the slot of this rank has, or 0.
    fn slot(&self, rank: usize) -> u16
        ensures { result ≡ number_in_slot self.now.slots.items (bit_and rank self.now.mask) }
    {
        self.slots.get(rank & self.mask).copied().unwrap_or(0)
    }

    /// Asks for the texts of these members.
    fn note_all(
        &mut self,
        alloc: Global,
        pool: &[Entry],
        members: &[Member],
    ) -> Result<(), AllocError>
        requires { AreNumbers pool.now self.old }
        ensures { IfOk result (λ _. NotesAll pool.now self.old self.new members.now) }
    {
        for member in members {
            self.note(alloc, pool, member.name_index())?;
            self.note(alloc, pool, member.descriptor_index())?;
        }
        Ok(())
    }

    /// Asks for the text at an index.
    fn note(&mut self, alloc: Global, pool: &[Entry], index: u16) -> Result<(), AllocError>
        requires { AreNumbers pool.now self.old }
        ensures { IfOk result (λ _. Notes pool.now self.old self.new index) }
    {
        if self.at(index) == 0 {
            let number = self.number(alloc, pool, index)?;
            self.put(index, number);
        }
        Ok(())
    }

    /// The number of the text at an index, or 0 where it is none.
    fn number(&mut self, alloc: Global, pool: &[Entry], index: u16) -> Result<u16, AllocError>
        requires { AreNumbers pool.now self.old }
        ensures is { IfOk result
            (λ n. IsNumber (number_of pool.now self.new) (text_at pool.now index) n) }
        ensures numbers { IfOk result (λ _. AreNumbers pool.now self.new) }
        ensures grows { IfOk result (λ _. KeepsNumbers pool.now self.old self.new) }
        ensures noted { self.new.noted.items ≡ self.old.noted.items }
    {
        let Some(text) = text_at(pool, index) else {
            return Ok(0);
        };
        let rank = rank_of(text);
        if let Some(number) = self.number_at_rank(pool, rank, text) {
            return Ok(number);
        }
        self.meet(alloc, rank, text, index)?;
        Ok(index)
    }

    /// Gives a text that has none this number.
    fn meet(
        &mut self,
        alloc: Global,
        rank: usize,
        text: &Name,
        number: u16,
    ) -> Result<(), AllocError>
        requires { rank ≡ rank_of text.now }
        ensures met { (pool : List Entry) → text_at pool number ≡ Some text.now
            → number_of pool self.old text.now ≡ None
            → IfOk result (λ _. PutsNumber pool self.old self.new text.now number) }
        ensures noted { self.new.noted.items ≡ self.old.noted.items }
    {
        if self.take_slot(rank & self.mask, number) {
            return Ok(());
        }
        self.others.insert(text.try_clone(alloc)?, number)?;
        Ok(())
    }

    /// Puts a number into a slot, if it is free.
    fn take_slot(&mut self, place: usize, number: u16) -> bool
        ensures took { result ≡ true
            → TakesSlot self.old.slots.items self.new.slots.items place number }
        ensures left { result ≡ false → self.new.slots ≡ self.old.slots }
        ensures mask { self.new.mask ≡ self.old.mask }
        ensures others { self.new.others ≡ self.old.others }
        ensures noted { self.new.noted ≡ self.old.noted }
    {
        if place >= self.slots.len() {
            return false;
        }
        if self.slots[place] != 0 {
            return false;
        }
        self.slots[place] = number;
        true
    }

    fn put(&mut self, index: u16, number: u16)
        ensures noted { self.new.noted.items ≡ with_number self.old.noted.items index number }
        ensures slots { self.new.slots ≡ self.old.slots }
        ensures mask { self.new.mask ≡ self.old.mask }
        ensures others { self.new.others ≡ self.old.others }
    {
        if index == 0 {
            return;
        }
        if let Some(place) = self.noted.get_mut(index as usize - 1) {
            *place = number;
        }
    }
}
