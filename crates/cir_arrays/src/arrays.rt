//! Numbers and arrays: dimensions, and items in row order.
ghost use Rattle.std.specs.Prelude.{◌≡◌, length};
ghost use Rattle.cir_arrays.specs.Made.{made_count};

use crate::counts::{is_too_large, made_elements};
use crate::reach::{Part, Reach};
use crate::values::{are_known, copies, fillings, forget_all, unknown_among};
use cir_values::Value;
use gold_field::Gold;
use std::alloc::{AllocError, Global};
use std::mem::replace;

/// A number, or an array of some dimensions.
pub enum Datum {
    Number(Value),
    Array(Array),
}

// Written out, so that the proof of an owner sees one call and not the drop of each part.
impl Drop for Datum {
    fn drop(self) {
        match self {
            Datum::Number(_number) => (),
            Datum::Array(_array) => (),
        }
    }
}

/// A number, or the items of an array without its dimensions.
pub enum Contents {
    Number(Value),
    Items(Vec<Value>),
}

/// An array with one dimension or more, and its items in row order. One that is too large is never
/// made: it has no items, and its elements read as 0.
#[derive(Drop)]
pub struct Array {
    pub dims: Vec<u64>,
    pub items: Vec<Value>,
    pub ghost sized: { length items.items ≡ made_count dims.items },
}

const NO_DIMS: &[u64] = &[];

impl Datum {
    ghost use Rattle.std.specs.Prelude.{ℕ, false, not, List, map, count_by, Option, option_map};
    ghost use Rattle.std.specs.Prelude.{option_copied, slice_get, slice_set, IfOk};
    ghost use Rattle.cir_values.specs.Meant.{meant};
    ghost use Rattle.cir_meaning.specs.Places.{elements as element_count};
    ghost use Rattle.cir_meaning.specs.Limits.{is_too_large as is_large};
    ghost use Rattle.cir_meaning.specs.Values.{Known as KnownValue};
    ghost use Rattle.cir_meaning.specs.Arrays as A;
    ghost use Rattle.cir_meaning.specs.Places.{numbers_from};
    ghost use Rattle.cir_meaning.specs.Writing.{written_datum};
    ghost use Rattle.cir_arrays.specs.Reached.{IsReach};
    ghost use Rattle.cir_arrays.specs.Shown.{contents_of, datum_of, filling_of};

    /// The number 0.
    pub fn zero() -> Datum
        ensures { datum_of result ≡ A.single (KnownValue 0) }
    {
        Datum::Number(Value::Known(Gold::ZERO))
    }

    /// These items, in these dimensions.
    pub fn made(alloc: Global, dims: Vec<u64>, mut items: Vec<Value>) -> Datum
        requires { is_large dims.items ≡ false → length items.items ≡ element_count dims.items }
        ensures { datum_of result ≡ A.made dims.items (map meant items.items) }
    {
        if dims.is_empty() {
            return match items.pop() {
                Some(v) => Datum::Number(v),
                None => Datum::zero(),
            };
        }
        if is_too_large(dims.as_slice()) {
            let items = Vec::new(alloc);
            return Datum::Array(Array { dims, items });
        }
        Datum::Array(Array { dims, items })
    }

    /// Zeros, or opaque values.
    pub fn filled(alloc: Global, dims: Vec<u64>, with: Filling) -> Result<Datum, AllocError>
        ensures { IfOk result (λ d. datum_of d ≡ A.filled dims.items (filling_of with)) }
    {
        if dims.is_empty() {
            return Ok(Datum::Number(with.value()));
        }
        let items = fillings(alloc, made_elements(dims.as_slice()), with)?;
        Ok(Datum::Array(Array { dims, items }))
    }

    /// The dimensions, the outermost first. A number has none.
    pub fn dims(&self) -> &[u64]
        ensures { result.now ≡ (datum_of self.now).dims }
    {
        match self {
            Datum::Number(_) => NO_DIMS,
            Datum::Array(array) => array.dims.as_slice(),
        }
    }

    /// The same dimensions and items, in memory of their own.
    pub fn copy(&self, alloc: Global) -> Result<Datum, AllocError>
        ensures { IfOk result (λ d. datum_of d ≡ datum_of self.now) }
    {
        match self {
            Datum::Number(v) => {
                let v = v.copy(alloc)?;
                Ok(Datum::Number(v))
            }
            Datum::Array(array) => {
                let dims = Vec::from_slice(alloc, array.dims.as_slice())?;
                let items = copies(alloc, array.items.as_slice())?;
                Ok(Datum::Array(Array { dims, items }))
            }
        }
    }

    /// The item at a place, if it was made.
    pub fn item(&self, place: u64) -> Option<&Value>
        ensures { option_map meant (option_copied result)
            ≡ slice_get (datum_of self.now).items place }
    {
        match self {
            Datum::Number(v) => { if place == 0 { Some(v) } else { None } }
            Datum::Array(array) => array.items.get(place as usize),
        }
    }

    /// A copy of the item at a place; an element that was not made reads as 0.
    pub fn item_at(&self, alloc: Global, place: u64) -> Result<Value, AllocError>
        ensures { IfOk result (λ v. meant v ≡ A.item_at (datum_of self.now).items place) }
    {
        match self.item(place) {
            Some(v) => v.copy(alloc),
            None => Ok(Value::Known(Gold::ZERO)),
        }
    }

    /// The number or the items, given up.
    pub fn into_contents(self) -> Contents
        ensures { contents_of result ≡ (datum_of self).items }
    {
        match self {
            Datum::Number(v) => Contents::Number(v),
            Datum::Array(Array { dims: _, items }) => Contents::Items(items),
        }
    }

    /// The first item, given up.
    pub fn into_item(self) -> Value
        ensures { meant result ≡ A.the_item (datum_of self) }
    {
        match self {
            Datum::Number(v) => v,
            Datum::Array(Array { dims: _, mut items }) => {
                items.truncate(1);
                match items.pop() {
                    Some(v) => v,
                    None => Value::Known(Gold::ZERO),
                }
            }
        }
    }

    /// Whether each item is a known number; so it is where there is no item.
    pub fn is_all_known(&self) -> bool
        ensures { result ≡ A.is_all_known (datum_of self.now) }
    {
        match self {
            Datum::Number(v) => v.is_known(),
            Datum::Array(array) => are_known(array.items.as_slice()),
        }
    }

    /// How many items aren't known.
    pub fn unknown_count(&self) -> u64
        ensures { result ≡ count_by (λ v. not (A.is_known v)) (datum_of self.now).items }
    {
        match self {
            Datum::Number(v) => { if v.is_known() { 0 } else { 1 } }
            Datum::Array(array) => unknown_among(array.items.as_slice()),
        }
    }

    /// A copy of the part that is meant; it is opaque where it isn't known which part that is.
    pub fn part(&self, alloc: Global, reach: Reach) -> Result<Datum, AllocError>
        ensures { (indices : List (Option ℕ)) (m : A.Reach)
            → IsReach (datum_of self.now).dims indices reach m
            → IfOk result (λ d. datum_of d
            ≡ A.read_part m (A.item_at (datum_of self.now).items)) }
    {
        let Reach { left, part } = reach;
        match part {
            Part::Unknown | Part::Outside => Datum::filled(alloc, left, Filling::Opaque),
            Part::Known { first, count: _ } => {
                if left.is_empty() {
                    let v = self.item_at(alloc, first)?;
                    return Ok(Datum::Number(v));
                }
                let items = self.items_from(alloc, first, made_elements(left.as_slice()))?;
                Ok(Datum::Array(Array { dims: left, items }))
            }
        }
    }

    /// Copies of as many items, from a place on.
    fn items_from(&self, alloc: Global, first: u64, count: u64) -> Result<Vec<Value>, AllocError>
        ensures { IfOk result (λ items. map meant items.items
            ≡ map (A.item_at (datum_of self.now).items) (numbers_from first count)) }
    {
        let mut items = Vec::with_capacity(alloc, count as usize)?;
        for k in 0..count {
            let v = self.item_at(alloc, first.saturating_add(k))?;
            items.push(v)?;
        }
        Ok(items)
    }

    /// Puts new items into the part that is meant; every item is opaque afterwards where it isn't
    /// known which part that is.
    pub fn write(&mut self, reach: &Reach, new: Datum)
        ensures { (indices : List (Option ℕ)) (m : A.Reach)
            → IsReach (datum_of self.old).dims indices reach.now m
            → datum_of self.new ≡ written_datum (datum_of self.old) m (datum_of new) }
    {
        match reach.part {
            Part::Unknown | Part::Outside => self.forget(),
            Part::Known { first, count } => self.put(first, count, new),
        }
    }

    fn put(&mut self, first: u64, count: u64, new: Datum)
        ensures { datum_of self.new ≡ record (datum_of self.old) {
          items = A.put_items (numbers_from first count) (datum_of new).items
              (datum_of self.old).items;
        } }
    {
        match new {
            Datum::Number(v) => {
                if count > 0 {
                    self.set(first, v);
                }
            }
            Datum::Array(Array { dims: _, mut items }) => {
                for at in 0..items.len().min(count as usize) {
                    let v = replace(&mut items[at], Value::Opaque);
                    self.set(first.saturating_add(at as u64), v);
                }
            }
        }
    }

    fn set(&mut self, place: u64, new: Value)
        ensures { datum_of self.new ≡ record (datum_of self.old) {
          items = slice_set (datum_of self.old).items place (meant new);
        } }
    {
        match self {
            Datum::Number(v) => {
                if place == 0 {
                    *v = new;
                }
            }
            Datum::Array(array) => {
                if place < array.items.len() as u64 {
                    array.items[place as usize] = new;
                }
            }
        }
    }

    /// Makes every item opaque.
    pub fn forget(&mut self)
        ensures { datum_of self.new ≡ A.forgotten (datum_of self.old) }
    {
        match self {
            Datum::Number(v) => *v = Value::Opaque,
            Datum::Array(array) => forget_all(array.items.as_mut_slice()),
        }
    }
}

/// What an array is filled with.
#[derive(Clone, Copy, PartialEq, Eq)]
pub enum Filling {
    Zero,
    Opaque,
}

impl Filling {
    ghost use Rattle.cir_values.specs.Meant.{meant};
    ghost use Rattle.cir_arrays.specs.Shown.{filling_of};

    pub(crate) fn value(self) -> Value
        ensures { meant result ≡ filling_of self }
    {
        match self {
            Filling::Zero => Value::Known(Gold::ZERO),
            Filling::Opaque => Value::Opaque,
        }
    }
}
