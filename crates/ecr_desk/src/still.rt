// The desk of one caller.
ghost use Rattle.ecr_desk.specs.Desks.{IsStill};

use crate::AnyDesk;

/// A registry for one caller, whose turns follow one another: a turn's ticket is one more than the last in its cell,
/// and 0 in an empty one, and the caller is 0.
///
/// Contracts see the journals of all its cells, and how many entries were added since it was made ([`AnyDesk::made`]).
pub trait StillDesk: AnyDesk {
    /// The caller is alone, and has seen every journal whole.
    ghost is_still: { (desk : Self) → IsStill (Self.seen desk) };
}
