//! Context ids, numbered in the order in which they are added.
ghost use Rattle.std.specs.Prelude.{◌≡◌, ◌<◌, [], length, slice_get, IfOk, OnErr, OnOk, Some};
ghost use Rattle.dict_image.specs.NumberedIds.{AreBelow, AreNumbersOf, IsAdded};

use std::alloc::{AllocError, Global};
use std::marker::Model;

/// The greatest number of ids that get a number. The connection costs between that many left ids
/// and right ids take 8 MiB.
pub const NUMBERED_MAX: usize = 1 << 11;

/// The value that marks an id without a number.
const NONE: u16 = u16::MAX;

/// Distinct context ids of one side, left or right, numbered from 0 in the order in which they were
/// added. Ids after the first `NUMBERED_MAX` get no number.
#[derive(Debug, Drop)]
pub struct NumberedIds {
    ids: Vec<u16>,
    /// The number of each id of the dictionary, or `NONE`.
    numbers: Vec<u16>,
}

impl Model for NumberedIds {
    ghost use Rattle.std.specs.Prelude.{length};
    ghost use Rattle.dict_image.specs.NumberedIds.{AreNumbered, IdList};

    ghost Value = { IdList };

    ghost view = { λ n. record { ids = n.ids.items; size = length n.numbers.items } };

    ghost invariant = { λ n. AreNumbered n.ids.items n.numbers.items };
}

impl NumberedIds {
    /// Returns an empty collection for ids below `size`. Allocates 2 bytes for each of them.
    pub fn new(alloc: Global, size: u32) -> Result<NumberedIds, AllocError>
        ensures ids { IfOk result (λ made. made.ids ≡ []) }
        ensures size { IfOk result (λ made. made.size ≡ size) }
    {
        let mut numbers = Vec::new(alloc);
        numbers.resize(size as usize, NONE)?;
        Ok(NumberedIds {
            ids: Vec::new(alloc),
            numbers,
        })
    }

    /// Gives `id` the next number, unless it has one, is not below the size, or `NUMBERED_MAX` ids
    /// have one.
    pub fn add(&mut self, id: u16) -> Result<(), AllocError>
        ensures size { self.new.size ≡ self.old.size }
        ensures added { OnOk result (IsAdded self.old id self.new) }
        ensures unchanged { OnErr result (self.new.ids ≡ self.old.ids) }
    {
        let number = self.ids.len();
        let at = usize::from(id);
        if number == NUMBERED_MAX || at >= self.numbers.len() {
            return Ok(());
        }
        if usize::from(self.numbers[at]) < number {
            return Ok(());
        }
        self.ids.push(id)?;
        self.numbers[at] = number as u16;
        Ok(())
    }

    /// Returns the number of an id, or a number that no id has.
    #[inline(always)]
    pub fn number(&self, id: usize) -> usize
        requires { id < self.now.size }
        ensures { result < length self.now.ids → slice_get self.now.ids result ≡ Some id }
    {
        usize::from(self.numbers[id])
    }

    /// Returns for each id of the dictionary its number, or a number that no id has.
    #[inline(always)]
    pub fn numbers(&self) -> &[u16]
        ensures numbers { AreNumbersOf self.now.ids result.now }
        ensures count { length result.now ≡ self.now.size }
    {
        &self.numbers
    }

    /// Returns the ids in the order of their numbers.
    pub fn ids(&self) -> &[u16]
        ensures ids { result.now ≡ self.now.ids }
        ensures below { AreBelow self.now.size self.now.ids }
    {
        &self.ids
    }
}
