// Values of the library that contracts see as plain ones: texts, lists and options.
pub mod listed;
pub mod rare;
pub mod shared;
pub mod text;
pub mod twin;
