// Where links come from.
ghost use Rattle.std.specs.Prelude.{◌≡◌, true};
ghost use Rattle.ecr_outside.specs.Accept.{Entrance, Opens, GoesOn};

use crate::{Clock, Sink, Source};

/// Whether an acceptor's address was opened.
#[derive(Clone, Copy, Debug, PartialEq, Eq)]
pub enum Opened {
    /// It was, and links come.
    Ready,
    /// The acceptor failed, which raised its count of faults.
    Failed,
}

/// What an acceptor gives next.
#[derive(Drop)]
pub enum Next<I, O> {
    /// A link: where its bytes come from, and where its replies go.
    Link(I, O),
    /// No link comes any more.
    Closed,
    /// The acceptor failed, which raised its count of faults.
    Failed,
}

/// Where the links of clients come from. Contracts see how often it failed, whether its address was opened, and whether
/// it said that no link comes any more.
pub trait Accept {
    /// Where the bytes of a link come from.
    type In: Source + Send + Drop;

    /// Where the replies of a link go.
    type Out: Sink + Send + Drop;

    ghost entrance: { Self → Entrance };

    /// Opens an address, as `127.0.0.1:5000`.
    fn open(&mut self, address: &str) -> Opened
        ensures opens { Opens (entrance self.old) (entrance self.new) result };

    /// The next link. It waits for one.
    fn next(&mut self) -> Next<Self::In, Self::Out>
        requires open { (entrance self.old).is_open ≡ true }
        ensures goes_on { GoesOn (entrance self.old) (entrance self.new) result };
}

/// A clock for each worker.
pub trait Clocks {
    type One: Clock + Send + Drop;

    /// The clock of the worker of this number, which is made in its thread.
    fn one(&self, worker: u32) -> Self::One;
}
