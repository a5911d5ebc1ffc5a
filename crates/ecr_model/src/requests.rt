// What requests ask, and what they are answered.
pub mod action;
pub mod call;
pub mod refusal;
pub mod reply;
