// Why no request is taken of the bytes that come.
ghost use Rattle.std.specs.Prelude.{◌≡◌};
ghost use Rattle.ecr_http.specs.declared.fault.Fault.TheVariants as faults;

use ecr_model::{Mem, Section};

/// Why no request is taken of the bytes that come.
#[derive(Clone, Copy)]
pub enum Fault {
    /// More bytes are needed, and the source has ended.
    Ended,
    /// More bytes are needed, and the source failed.
    ReadFault,
    /// The sink failed while the client was told to go on.
    WriteFault,
    /// More bytes are needed, and all that may be read were read.
    Spent,
    /// There was no memory.
    Mem,
    /// No request stands there.
    Bad,
    /// The section has more bytes than that limit allows.
    TooLong(Section, u64),
}

impl From<Mem> for Fault {
    ghost from_gives = { λ error fault. fault ≡ faults.Mem };

    fn from(_error: Mem) -> Fault {
        Fault::Mem
    }
}
