ghost use Rattle.std.specs.Prelude.{◌≡◌, ◌+◌, ◌-◌, ◌<◌, ◌≤◌, ◌^◌, []};
ghost use Rattle.std.specs.Prelude.{◌∷◌, ◌++◌, length, slice_index};
ghost use Rattle.std.specs.Prelude.{false, slice_set, slice_range, replicate, IfOk, OnOk};
ghost use Rattle.wit_code.specs.Frames.{Closes, own_numbers, width_of};

use crate::room::{Room, lengthened, push_zeros, zeros_again};
use gold_field::Gold;
use std::alloc::AllocError;
use std::marker::Model;

/// Whose code runs: the step's own, or that of a procedure, by its number.
#[derive(Clone, Copy)]
pub enum Running {
    Own,
    Called(u32),
}

/// How a call that waits goes on: in which code, at which place, and with the answer in which slot.
#[derive(Clone, Copy)]
pub struct Resume {
    pub running: Running,
    pub place: usize,
    pub answer: u32,
}

/// A call that waits, with the number of its slots.
#[derive(Clone, Copy)]
pub struct Caller {
    pub resume: Resume,
    pub width: usize,
}

/// A step's own frame of at most so many slots is cleared whole, and no place of it is noted.
const FEW_SLOTS: usize = 32;

/// The frames of all open calls, on one stack of numbers. The running frame is the last, from
/// `base` on. The step's own frame, from `first` on, is cleared behind the run: `places` notes
/// where the step wrote in it, until there are as many notes as slots.
#[derive(Drop)]
pub struct Frames {
    numbers: Vec<Gold>,
    callers: Vec<Caller>,
    base: usize,
    first: usize,
    places: Vec<usize>,
    is_full: bool,
}

impl Model for Frames {
    ghost use Rattle.std.specs.Prelude.{[], drop};
    ghost use Rattle.wit_code.specs.Frames as F;
    ghost use Rattle.wit_code.specs.Frames.{opened, IsLaid};

    ghost Value = { F.Frames };

    ghost view = { λ a. record {
      slots = drop a.base a.numbers.items;
      open_calls =
          opened [] a.callers.items (drop a.first a.numbers.items);
    } };

    ghost invariant = { λ a. IsLaid a.first a.base a.is_full a.callers.items a.places.items
        a.numbers.items };
}

impl Frames {
    /// One frame, all zeros, at the end of the room.
    pub fn over(room: Room, slots: usize) -> Result<Frames, AllocError>
        ensures { IfOk result (λ f. f ≡ record { slots = replicate slots 0; open_calls = [] }) }
    {
        let Room {
            zeros,
            mut places,
            mut callers,
        } = room;
        places.clear();
        callers.clear();
        let numbers = lengthened(zeros, slots)?;
        let first = numbers.len() - slots;
        Ok(Frames {
            numbers,
            callers,
            base: first,
            first,
            places,
            is_full: slots <= FEW_SLOTS,
        })
    }

    /// The room for the next run. It takes as long as the run did, however long the frame is.
    pub fn into_room(self) -> Room {
        let Frames {
            numbers,
            callers,
            base: _,
            first,
            places,
            is_full,
        } = self;
        let own = up_to_own(numbers, callers.as_slice(), first);
        Room {
            zeros: zeros_again(own, places.as_slice(), first, is_full),
            places,
            callers,
        }
    }

    /// How many slots the running frame has.
    #[inline(always)]
    pub fn width(&self) -> usize
        ensures { result ≡ length self.now.slots }
    {
        self.numbers.len() - self.base
    }

    /// How many calls are open.
    #[inline(always)]
    pub fn depth(&self) -> usize
        ensures { result ≡ length self.now.open_calls }
    {
        self.callers.len()
    }

    #[inline(always)]
    pub fn get(&self, slot: usize) -> Gold
        requires { slot < length self.now.slots }
        ensures { result ≡ slice_index self.now.slots slot }
    {
        self.numbers[self.base + slot]
    }

    #[inline(always)]
    pub fn set(&mut self, slot: usize, v: Gold)
        requires { slot < length self.old.slots }
        ensures { self.new
            ≡ record { slots = slice_set self.old.slots slot v; open_calls = self.old.open_calls } }
    {
        let at = self.base + slot;
        if self.is_full {
            self.numbers[at] = v;
            return;
        }
        if self.callers.len() > 0 {
            self.numbers[at] = v;
            return;
        }
        self.is_full = note(&mut self.places, at, self.numbers.len() - self.first);
        self.numbers[at] = v;
    }

    /// Opens a call, whose parameters are the slots from `first` on.
    #[tactic(auto, using(crate::proofs::Stack::width_of_push))]
    #[inline(always)]
    pub fn open(
        &mut self,
        resume: Resume,
        first: usize,
        params: usize,
        slots: usize,
    ) -> Result<(), AllocError>
        requires in_frame { first + params ≤ length self.old.slots }
        requires params { params ≤ slots }
        ensures { OnOk result (self.new ≡ record {
          slots = slice_range self.old.slots first (first + params) ++ replicate (slots - params) 0;
          open_calls = record { resume = resume; slots = self.old.slots } ∷ self.old.open_calls;
        }) }
    {
        let width = self.width();
        let start = self.base + first;
        // Frames that aren't complete would be cleared whole.
        let was_full = self.is_full;
        self.is_full = true;
        self.numbers.extend_from_within(start..start + params)?;
        push_zeros(&mut self.numbers, slots - params)?;
        self.callers.push(Caller { resume, width })?;
        self.base += width;
        self.is_full = was_full;
        Ok(())
    }

    /// Ends the running call, if it is one.
    #[tactic(auto, using(crate::proofs::Stack::width_of_push))]
    #[inline(always)]
    pub fn close(&mut self) -> Option<Resume>
        ensures { Closes self.old result self.new }
    {
        let caller = self.callers.pop()?;
        self.numbers.truncate(self.base);
        self.base -= caller.width;
        Some(caller.resume)
    }
}

// The numbers up to the end of the step's own frame.
fn up_to_own(mut numbers: Vec<Gold>, callers: &[Caller], first: usize) -> Vec<Gold>
    requires { first + width_of callers.now < 2 ^ 64 }
    ensures { result.items ≡ own_numbers first callers.now numbers.items }
{
    if callers.is_empty() {
        return numbers;
    }
    numbers.truncate(first + callers[0].width);
    numbers
}

// Notes a place, so long as there are fewer notes than `most` and memory for one more. Whether the
// notes are full.
fn note(places: &mut Vec<usize>, place: usize, most: usize) -> bool
    ensures { result ≡ false → places.new.items ≡ places.old.items ++ place ∷ [] }
{
    most <= places.len() || places.push(place).is_err()
}
