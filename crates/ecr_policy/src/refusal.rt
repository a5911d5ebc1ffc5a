// Why a text gives no policy.
use thiserror::Error;

/// Why a text gives no policy.
#[derive(Debug, Drop, Error)]
pub enum PolicyRefusal {
    /// Rule `rule` of the list, counted from 1, or the text (0) has the cause; no earlier cause holds.
    #[error("rule {rule} of the policy is refused for cause {cause}")]
    Bad { rule: u32, cause: u8 },
    /// There was no memory.
    #[error("there was no memory")]
    Mem,
}
