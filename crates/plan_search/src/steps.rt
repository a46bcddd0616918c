//! The counter of a search's steps.
ghost use Rattle.std.specs.Prelude.{◌≡◌, ◌+◌, ◌<◌, min};
ghost use Rattle.plan_search.specs.Counting.{largest_count};

use std::marker::Model;
use std::sync::ledger::{Book, Ledger, Share};

/// How many steps were taken. Only `tick` changes it.
#[derive(Drop)]
pub struct Steps<L: Ledger> {
    count: u64,
    book: Book<L>,
    share: Share<L>,
}

impl<L: Ledger> Model for Steps<L> {
    ghost use Rattle.std.specs.Prelude.{◌≡◌, ◌<◌, ℕ, min};
    ghost use Rattle.plan_search.specs.Counting.{largest_count};

    ghost Value = { ℕ };

    ghost view = { λ s. s.book.total };

    ghost invariant = { λ s. (0 < s.share.parts) × (s.count ≡ min s.book.total largest_count) };
}

impl<L: Ledger> Steps<L> {
    /// No steps, in a ledger that was opened for them.
    pub fn new(book: Book<L>, share: Share<L>) -> Steps<L>
        requires parts { 0 < share.parts }
        requires none { book.total ≡ 0 }
        ensures { result ≡ 0 }
    {
        Steps {
            count: 0,
            book,
            share,
        }
    }

    /// One more step.
    pub fn tick(&mut self)
        ensures { self.new ≡ self.old + 1 }
    {
        let Steps { count, book, share } = self;
        book.add(share, 1);
        *count = count.saturating_add(1);
    }

    /// How many steps there were, or the greatest u64 where there were more.
    pub fn count(&self) -> u64
        ensures { result ≡ min self.now largest_count }
    {
        self.count
    }
}
