//! Sets of places, kept as machine words.

ghost use Rattle.std.specs.Prelude.{◌≡◌, ◌<◌, ◌≤◌, ◌-◌, ◌||◌, ◌&&◌, ◌==◌, nat_le, nat_lt, ℕ, false, length, IsTrue};

/// How many places a pattern may have: the limit of its size.
pub const MOST_PLACES: usize = 1024;

const WORDS: usize = 16;

/// A set of places below `MOST_PLACES`, one bit each.
#[derive(Clone, Copy)]
pub struct Places {
    words: [u64; WORDS],
    ghost full: { length words ≡ 16 },
}

impl Places {
    ghost use Rattle.yang_pattern.specs.PlaceSets.{contains};

    /// The empty set.
    pub fn new() -> Places
        ensures { (q : ℕ) → contains result q ≡ false }
    {
        Places { words: [0; WORDS] }
    }

    pub fn contains(&self, place: usize) -> bool
        requires { place < 1024 }
        ensures { result ≡ contains self.now place }
    {
        (self.words[place / 64] >> (place % 64)) & 1 == 1
    }

    pub fn insert(&mut self, place: usize)
        requires { place < 1024 }
        ensures { (q : ℕ) → contains self.new q ≡ (contains self.old q || q == place) }
    {
        self.words[place / 64] |= 1 << (place % 64);
    }

    /// Adds each place of the other set.
    pub fn insert_all(&mut self, other: &Places)
        ensures { (q : ℕ) → q < 1024
            → contains self.new q ≡ (contains self.old q || contains other.now q) }
    {
        for i in 0..WORDS {
            self.words[i] |= other.words[i];
        }
    }

    /// The set, and if `added` each place of the other set too.
    pub fn with(&self, other: &Places, added: bool) -> Places
        ensures { (q : ℕ) → q < 1024
            → contains result q ≡ (contains self.now q || (added && contains other.now q)) }
    {
        let mut joined = *self;
        if added {
            joined.insert_all(other);
        }
        joined
    }

    /// Whether no place is in the set.
    fn is_empty(&self) -> bool
        ensures { IsTrue result → (q : ℕ) → q < 1024 → contains self.now q ≡ false }
    {
        for word in &self.words {
            if *word != 0 {
                return false;
            }
        }
        true
    }

    /// Each place of the set, `by` further on.
    pub fn shift(&self, by: usize) -> Places
        requires { by ≤ 1024 }
        ensures { (q : ℕ) → q < 1024
            → contains result q ≡ (nat_le by q && contains self.now (q - by)) }
    {
        if self.is_empty() {
            return *self;
        }
        let mut result_set = Places::new();
        for place in 0..MOST_PLACES - by {
            if self.contains(place) {
                result_set.insert(place + by);
            }
        }
        result_set
    }
}
