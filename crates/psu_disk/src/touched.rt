//! The ranges written since the last sync, covered by a fixed number of spans.
ghost use Rattle.std.specs.Prelude.{◌≡◌, ℕ, ◌<◌, ◌≤◌, true, false, length};
ghost use Rattle.psu_disk.specs.declared.touched.TheConstants.{SPANS};

// The number of ranges that are kept apart. Where more are written, the last span grows to cover them.
const SPANS: usize = 8;

// The bytes from `low` on, and below `high`.
#[derive(Clone, Copy)]
pub(crate) struct Span {
    pub(crate) low: usize,
    pub(crate) high: usize,
}

impl Span {
    ghost use Rattle.psu_disk.specs.Touched.{is_in};

    // Returns the smallest span that covers this one and the bytes from `low` on and below `high`.
    fn joined(self, low: usize, high: usize) -> Span
        ensures own { (k : ℕ) → is_in self k ≡ true → is_in result k ≡ true }
        ensures others { (k : ℕ) → low ≤ k → k < high → is_in result k ≡ true }
        ensures within { (size : ℕ) → high ≤ size → ((k : ℕ) → is_in self k ≡ true → k < size) → (k : ℕ) → is_in result k ≡ true → k < size }
    {
        if self.high <= self.low {
            return Span { low, high };
        }
        if high <= low {
            return self;
        }
        Span {
            low: self.low.min(low),
            high: self.high.max(high),
        }
    }
}

// Spans that cover all that was written.
#[derive(Clone, Copy)]
pub(crate) struct Touched {
    pub(crate) spans: [Span; SPANS],
    next: usize,
    ghost next_in: { next < SPANS },
    ghost long: { length spans ≡ SPANS },
}

impl Touched {
    ghost use Rattle.psu_disk.specs.Touched.{is_covered};

    // Returns spans that cover nothing.
    pub(crate) fn new() -> Touched
        ensures { (k : ℕ) → is_covered result.spans k ≡ false }
    {
        Touched {
            spans: [Span { low: 0, high: 0 }; SPANS],
            next: 0,
        }
    }

    // Adds the bytes from `low` on and below `high`, which are written.
    pub(crate) fn add(&mut self, low: usize, high: usize)
        ensures own { (k : ℕ) → is_covered self.old.spans k ≡ true → is_covered self.new.spans k ≡ true }
        ensures others { (k : ℕ) → low ≤ k → k < high → is_covered self.new.spans k ≡ true }
        ensures within { (size : ℕ) → high ≤ size → ((k : ℕ) → is_covered self.old.spans k ≡ true → k < size)
            → (k : ℕ) → is_covered self.new.spans k ≡ true → k < size }
    {
        self.spans[self.next] = self.spans[self.next].joined(low, high);
        self.next = (self.next + 1).min(SPANS - 1);
    }
}
