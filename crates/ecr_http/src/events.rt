// What comes next of a source.
use crate::framing::closes;
use ecr_model::{Request, Section};

/// What comes next of a source. Places count the bytes before them.
#[derive(Drop)]
pub enum Event {
    /// A whole request.
    Request(Request),
    /// The source ended between two requests.
    End,
    /// The source ended inside the request at this place.
    Truncated(u64),
    /// What stands at this place is no request.
    Bad(u64),
    /// The section of what stands at this place has more bytes than the limit allows.
    TooLong {
        at: u64,
        section: Section,
        limit: u64,
    },
    /// The source failed.
    ReadFault,
    /// The sink failed while the client was told to go on.
    WriteFault,
    /// All bytes that may be read were read, and more are needed.
    Spent,
    /// There was no memory.
    Mem,
}

impl Event {
    ghost use Rattle.std.specs.Prelude.{◌≡◌};
    ghost use Rattle.ecr_http.specs.Events.{closes_after};

    // Whether nothing comes after it.
    pub(crate) fn closes(&self) -> bool
        ensures closes { result ≡ closes_after self.now }
    {
        match self {
            Event::Request(request) => closes(request),
            _ => true,
        }
    }
}
