// Whole sessions by the bytes that come in and go out.
mod actions;
mod bytes;
mod callers;
mod faults;
mod harness;
mod http;
mod limits;
mod server;
mod sessions;
mod words;
