// The count of rows read and pages shared.
ghost use Rattle.std.specs.Prelude.{◌≡◌, ◌+◌, ◌<◌, ℕ};

use std::marker::Model;
use std::sync::ledger::{Blank, Book, Ledger, Share};

/// How many rows were read and pages shared. It takes no bytes, and only a read and a snapshot change it.
///
/// Contracts see the count.
#[derive(Drop)]
pub struct Reads<L: Ledger> {
    book: Book<L>,
    share: Share<L>,
}

impl<L: Ledger> Model for Reads<L> {
    ghost Value = { ℕ };

    ghost view = { λ r. r.book.total };

    ghost invariant = { λ r. 0 < r.share.parts };
}

impl<L: Ledger> Reads<L> {
    /// The count of nothing.
    pub fn open(blank: Blank) -> Reads<L>
        requires name { blank.name ≡ L.name }
        requires parts { blank.parts ≡ L.parts }
        requires some { 0 < blank.parts }
        ensures none { result ≡ 0 }
    {
        let (book, share) = blank.open::<L>();
        Reads { book, share }
    }

    /// One row or page more.
    pub(crate) fn count(&mut self)
        ensures { self.new ≡ self.old + 1 }
    {
        self.book.add(&mut self.share, 1);
    }
}
