// Sets of numbers below 128, the places of a line, as two words: the lowest place is the lowest bit.
ghost use Rattle.std.specs.Prelude.{◌≡◌, Bool, ℕ, ◌+◌, ◌*◌, ◌-◌, ◌^◌, ◌<◌, ◌≤◌};
ghost use Rattle.below.specs.Below.{bit, ◌<?◌, ◌≤?◌, ◌and◌, first_below, end_below};
ghost use Rattle.places.specs.Algorithm.Words.{word_of};
ghost use Rattle.places.specs.Algorithm.Places.{places_where, both_places, either_of, without_of, has_place, size, occupied};

#[derive(Clone, Copy, Default)]
pub struct Places {
    pub low: u64,
    pub high: u64,
}

impl Places {
    // The places in both sets.
    pub fn both(self, other: Places) -> Places
        ensures { result ≡ both_places self other }
    {
        Places {
            low: self.low & other.low,
            high: self.high & other.high,
        }
    }

    // The places in either set.
    pub fn either(self, other: Places) -> Places
        ensures { result ≡ either_of self other }
    {
        Places {
            low: self.low | other.low,
            high: self.high | other.high,
        }
    }

    // The places that the other set has not.
    pub fn without(self, other: Places) -> Places
        ensures { result ≡ without_of self other }
    {
        Places {
            low: self.low & !other.low,
            high: self.high & !other.high,
        }
    }

    // Whether it has place c.
    pub fn has(self, c: usize) -> bool
        requires { c < 128 }
        ensures { result ≡ has_place self c }
    {
        // Two branches and not a word chosen: a loop that asks for one place of many sets is faster so.
        if c < 64 {
            (self.low >> c) % 2 == 1
        } else {
            (self.high >> (c - 64)) % 2 == 1
        }
    }

    // Every place s further up; those that come past the last are left out.
    pub fn raised(self, s: usize) -> Places
        ensures { (p : ℕ → Bool) → self ≡ places_where p → result ≡ places_where (λ c. s ≤? c and p (c - s)) }
    {
        if s == 0 {
            self
        } else if s < 64 {
            Places {
                low: self.low << s,
                high: (self.high << s) + (self.low >> (64 - s)),
            }
        } else if s < 128 {
            Places {
                low: 0,
                high: self.low << (s - 64),
            }
        } else {
            Places::default()
        }
    }

    // The first places.
    pub fn first(count: usize) -> Places
        requires { count ≤ 128 }
        ensures { result ≡ places_where (λ c. c <? count) }
    {
        Places {
            low: first_bits(count.min(64)),
            high: first_bits(count.saturating_sub(64)),
        }
    }

    // How many places the set has.
    pub fn count(self) -> u32
        ensures number { result ≡ size self }
        ensures most { result ≤ 128 }
    {
        self.low.count_ones() + self.high.count_ones()
    }

    // Whether it has one.
    pub fn any(self) -> bool
        ensures { result ≡ occupied self }
    {
        (self.low | self.high) != 0
    }

    // Its lowest place, and 128 where it has none, as `first_below` says it.
    pub fn lowest(self) -> u32
        ensures { result ≡ first_below 128 (has_place self) }
    {
        if self.low != 0 {
            self.low.trailing_zeros()
        } else {
            64 + self.high.trailing_zeros()
        }
    }

    // One past its highest place, and 0 where it has none, as `end_below` says it.
    pub fn end(self) -> u32
        ensures { result ≡ end_below 128 (has_place self) }
    {
        if self.high != 0 {
            128 - self.high.leading_zeros()
        } else {
            64 - self.low.leading_zeros()
        }
    }
}

// The word with one bit more, above all its bits, set or not. A test and not `with_digits`, which is slower where many are added.
pub fn with_bit(word: u64, b: usize, on: bool) -> u64
    requires { (b < 64) × (word < 2 ^ b) }
    ensures { result ≡ bit on * 2 ^ b + word }
{
    if on { (1u64 << b) + word } else { word }
}

// The lowest bits of a word.
fn first_bits(count: usize) -> u64
    requires { count ≤ 64 }
    ensures { result ≡ word_of 64 (λ b. b <? count) }
{
    if count == 64 {
        u64::MAX
    } else {
        (1u64 << count) - 1
    }
}
