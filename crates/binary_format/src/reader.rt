ghost use Rattle.std.specs.Prelude.{◌≡◌, ◌≤◌, ◌<◌, ◌+◌, ◌-◌, ◌^◌, ◌==◌, length, IfSome};
ghost use Rattle.std.specs.Int.{w32, w64};
ghost use Rattle.binary_format.specs.Reading.{Takes, front_of, number_of};

/// The bytes of a file, or of a part of it, that are left to read, and the place in the file where
/// they end. Each place is counted from the file's first byte, which is at 0.
///
/// A call that answers None takes nothing.
#[derive(Clone, Copy)]
pub struct Reader<'a> {
    pub rest: &'a [u8],
    pub end: u64,
    ghost within: { length rest.now ≤ end },
}

impl<'a> Reader<'a> {
    /// A reader of a whole file.
    pub fn new(bytes: &'a [u8]) -> Reader<'a>
        ensures bytes { result.rest.now ≡ bytes.now }
        ensures end { result.end ≡ length bytes.now }
    {
        Reader {
            rest: bytes,
            end: bytes.len() as u64,
        }
    }

    /// The place of the next byte.
    pub fn offset(&self) -> u64
        ensures place { result ≡ self.now.end - length self.now.rest.now }
        ensures fits { result + length self.now.rest.now < 2 ^ 64 }
    {
        self.end - self.rest.len() as u64
    }

    /// Whether all bytes are read.
    pub fn is_empty(&self) -> bool
        ensures { result ≡ (length self.now.rest.now == 0) }
    {
        self.rest.is_empty()
    }

    /// The next bytes as they are.
    pub fn bytes(&mut self, count: usize) -> Option<&'a [u8]>
        ensures taken { Takes (λ x. x.now) result self.old.rest.now self.new.rest.now
            (front_of count self.old.rest.now) }
        ensures end { self.new.end ≡ self.old.end }
    {
        if self.rest.len() < count {
            return None;
        }
        let (front, rest) = self.rest.split_at(count);
        self.rest = rest;
        Some(front)
    }

    /// A reader of the next bytes alone.
    pub fn part(&mut self, count: usize) -> Option<Reader<'a>>
        ensures taken { Takes (λ x. x.rest.now) result self.old.rest.now self.new.rest.now
            (front_of count self.old.rest.now) }
        ensures part_end { IfSome result (λ x. x.end ≡ self.new.end - length self.new.rest.now) }
        ensures end { self.new.end ≡ self.old.end }
    {
        let rest = self.bytes(count)?;
        let end = self.offset();
        Some(Reader { rest, end })
    }

    /// The number that the next 4 bytes spell, the lowest byte first.
    pub fn u32(&mut self) -> Option<u32>
        ensures taken { Takes (λ x. x) result self.old.rest.now self.new.rest.now
            (number_of w32 self.old.rest.now) }
        ensures end { self.new.end ≡ self.old.end }
    {
        if self.rest.len() < 4 {
            return None;
        }
        let (front, rest) = self.rest.split_at(4);
        self.rest = rest;
        Some(u32::from_le_bytes([front[0], front[1], front[2], front[3]]))
    }

    /// The number that the next 8 bytes spell, the lowest byte first.
    pub fn u64(&mut self) -> Option<u64>
        ensures taken { Takes (λ x. x) result self.old.rest.now self.new.rest.now
            (number_of w64 self.old.rest.now) }
        ensures end { self.new.end ≡ self.old.end }
    {
        if self.rest.len() < 8 {
            return None;
        }
        let (front, rest) = self.rest.split_at(8);
        self.rest = rest;
        Some(u64::from_le_bytes([
            front[0], front[1], front[2], front[3], front[4], front[5], front[6], front[7],
        ]))
    }
}
