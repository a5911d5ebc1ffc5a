// The time of a read.
use std::io;
use std::io::ErrorKind;
use std::time::Instant;

/// Reads so many times, and prints how long it takes once. Where it is refused, that is an error.
pub(crate) fn print_time<F: FnMut() -> bool>(
    rt: &HostRuntime,
    name: &str,
    times: u32,
    mut read: F,
) -> io::Result<()>
    requires { F.IsAlwaysCallable read }
{
    let start = Instant::now(rt)?;
    for _ in 0..times {
        if !read() {
            return Err(ErrorKind::InvalidData.into());
        }
    }
    let nanoseconds = start.elapsed(rt)?.as_nanos() / (times.max(1) as u128);
    println!(rt; "{name}: {nanoseconds} nanoseconds")
}
