// What the calls of a source or a sink in memory are to do.
ghost use Rattle.std.specs.Prelude.{◌≡◌, None, Some, if◌then◌else◌};
ghost use Rattle.ecr_outside.specs.Plan.{most_at, is_failing, next_call};

/// What each call is to do, by its number from 0. Past `u64::MAX` calls, all have that number.
#[derive(Drop)]
pub struct Plan {
    sizes: Vec<usize>,
    fails: Vec<u64>,
    calls: u64,
}

impl Plan {
    /// The plan by which the calls of the numbers in `fails` fail, and each other moves at most its
    /// size in `sizes`: past the end the last one, of an empty list any, and 1 for 0.
    pub fn new(sizes: Vec<usize>, fails: Vec<u64>) -> Plan
        ensures sizes { result.sizes ≡ sizes }
        ensures fails { result.fails ≡ fails }
        ensures calls { result.calls ≡ 0 }
    {
        Plan {
            sizes,
            fails,
            calls: 0,
        }
    }

    /// What the next call is to do: `None` where it is to fail, else how many bytes it moves at most.
    pub fn next(&mut self) -> Option<usize>
        ensures most { result ≡ (if is_failing self.old.fails.items self.old.calls then None else Some
            (most_at self.old.sizes.items self.old.calls)) }
        ensures calls { self.new.calls ≡ next_call self.old.calls }
        ensures sizes { self.new.sizes ≡ self.old.sizes }
        ensures fails { self.new.fails ≡ self.old.fails }
    {
        let call = self.calls;
        self.calls = call.saturating_add(1);
        if is_among(&self.fails, call) {
            return None;
        }
        Some(most_at(&self.sizes, call))
    }
}

fn is_among(numbers: &[u64], number: u64) -> bool
    ensures { result ≡ is_failing numbers.now number }
{
    numbers.iter().any(|n| *n == number)
}

// How many bytes the call of this number moves at most.
fn most_at(sizes: &[usize], call: u64) -> usize
    ensures { result ≡ most_at sizes.now call }
{
    if sizes.is_empty() {
        return usize::MAX;
    }
    let at = (call as usize).min(sizes.len() - 1);
    sizes[at].max(1)
}

#[cfg(test)]
mod tests {
    use crate::{Clock, Got, MemClock, MemSink, MemSource, Sink, Source, Took};
    use std::alloc::{AllocError, Global};

    // What eight reads into four bytes answer, how many bytes each gave, `F` for a failure, `E` for
    // the end; the bytes that they gave; what four writes answer; and the bytes that they left.
    fn said_of(alloc: Global, sizes: &[usize], fails: &[u64]) -> Result<Vec<u8>, AllocError> {
        let (sizes, fails) = (sizes.to_vec(alloc)?, fails.to_vec(alloc)?);
        let source = MemSource::new(b"vwxyz".to_vec(alloc)?, sizes.clone()?, fails.clone()?);
        let mut said = eight_reads(alloc, source)?;
        said.push(b' ')?;
        four_writes(&mut said, MemSink::new(alloc, sizes, fails))?;
        Ok(said)
    }

    fn eight_reads(alloc: Global, mut source: MemSource) -> Result<Vec<u8>, AllocError> {
        let mut said = Vec::new(alloc);
        let mut bytes = Vec::new(alloc);
        for _ in 0..8 {
            let mut buf = [0; 4];
            match source.read(&mut buf) {
                Got::Bytes(n) => {
                    bytes.extend_from_slice(&buf[..n])?;
                    said.push(b'0' + n as u8)?;
                }
                Got::End => said.push(b'E')?,
                Got::Failed => said.push(b'F')?,
            }
        }
        said.push(b' ')?;
        said.extend_from_slice(&bytes)?;
        Ok(said)
    }

    fn four_writes(said: &mut Vec<u8>, mut sink: MemSink) -> Result<(), AllocError> {
        for _ in 0..4 {
            match sink.write(b"abcd") {
                Took::Bytes(n) => said.push(b'0' + n.min(9) as u8)?,
                Took::Failed => said.push(b'F')?,
            }
        }
        said.push(b' ')?;
        said.extend_from_slice(sink.held())
    }

    #[test]
    fn what_is_in_memory_moves_by_its_lists(rt: HostRuntime) -> Result<(), AllocError> {
        let alloc = rt.alloc();
        let cases: [(&[usize], &[u64], &str); 4] = [
            (&[], &[], "41EEEEEE vwxyz 4444 abcdabcdabcdabcd"),
            (&[2, 7, 1], &[1], "2F111EEE vwxyz 2F11 abaa"),
            (&[0], &[0, 2, 9], "F1F1111E vwxyz F1F1 aa"),
            (&[3, 1, 9], &[], "311EEEEE vwxyz 3144 abcaabcdabcd"),
        ];
        for (sizes, fails, want) in cases {
            let said = said_of(alloc, sizes, fails)?;
            assert_eq!(rt; said.as_slice(), want.as_bytes());
        }
        let mut clock = MemClock::new([7, 300_000_000_000, 8].to_vec(alloc)?);
        for moment in [7, 253_402_300_799, 8, 8] {
            assert_eq!(rt; clock.now(), moment);
        }
        Ok(())
    }
}
