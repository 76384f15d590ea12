// How long work takes, and what its output adds up to, so that two programs can be seen to have done the same.
use anyhow::Result;
use std::rt::Runtime;
use std::time::Instant;

/// The least time of so many runs, in microseconds.
pub fn least<W: FnMut()>(rt: &impl Runtime, times: u32, mut work: W) -> Result<u128>
    requires { W.IsAlwaysCallable work }
{
    let mut least = u128::MAX;
    for _ in 0..times {
        let start = Instant::now(rt)?;
        work();
        least = least.min(start.elapsed(rt)?.as_micros());
    }
    Ok(least)
}

/// Prints the time that the work of this name takes, and the sum of the bytes that it left.
pub fn print(rt: &impl Runtime, name: &str, micros: u128, bytes: &[u8]) -> Result<()> {
    let sum = bytes
        .iter()
        .fold(0u64, |sum, byte| sum.wrapping_add(u64::from(*byte)));
    println!(rt; "{name}: {micros} microseconds, {sum}")?;
    Ok(())
}
