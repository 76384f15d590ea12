// The texts of events and replies.
use cache_key::LoadSpec;
use engine_core::{Piece, Reply};
use engine_world::Totals;
use faults::NoMemory;

// What a load asks for: its url, which is one letter, the wanted width, and the rest.
fn write_spec(line: &mut String, spec: &LoadSpec) -> Result<(), NoMemory> {
    for letter in spec.key.url.bytes() {
        write!(line, "{letter}")?;
    }
    let width = spec.key.width;
    let priority = spec.priority;
    let skip = spec.skip;
    let cached = spec.cached;
    write!(line, " {width} {priority:?} {skip} {cached}")?;
    Ok(())
}

/// A load, and what it asks for.
pub fn write_load(line: &mut String, who: u32, spec: &LoadSpec) -> Result<(), NoMemory> {
    write!(line, "{who} Load ")?;
    write_spec(line, spec)?;
    line.push_str(": ")?;
    Ok(())
}

/// Bytes in hex.
pub fn write_bytes(line: &mut String, bytes: &[u8]) -> Result<(), NoMemory> {
    for byte in bytes {
        write!(line, "{byte:02x}")?;
    }
    Ok(())
}

fn write_piece(line: &mut String, piece: &Piece) -> Result<(), NoMemory> {
    line.push_str("Piece ")?;
    for (place, byte) in piece.bytes.iter().enumerate() {
        if place < piece.count {
            write!(line, "{byte:02x}")?;
        }
    }
    Ok(())
}

/// The thirteen numbers.
pub fn write_totals(line: &mut String, sums: &Totals) -> Result<(), NoMemory> {
    write!(
        line,
        "Totals {} {} {} ",
        sums.loads, sums.active, sums.memory
    )?;
    write!(line, "{} {} {} ", sums.joined, sums.started, sums.takes)?;
    write!(line, "{} {} {} ", sums.reused, sums.made, sums.decoding)?;
    write!(
        line,
        "{} {} {} {}",
        sums.held, sums.cached, sums.pooled, sums.recycled
    )?;
    Ok(())
}

// The replies that have more than a number.
fn write_other(line: &mut String, reply: &Reply) -> Result<(), NoMemory> {
    match reply {
        Reply::Shape(shape) => {
            write!(line, "Shape {} {} ", shape.width, shape.height)?;
            write!(line, "{:?} {}", shape.config, shape.length)?;
        }
        Reply::Piece(piece) => write_piece(line, piece)?,
        Reply::Job(job, room) => {
            write!(line, "Job {job} ")?;
            write_spec(line, room.spec())?;
        }
        Reply::Taken(bitmap) => {
            write!(line, "Taken {} {}", bitmap.number(), bitmap.allocation())?;
        }
        Reply::Totals(sums) => write_totals(line, sums)?,
        _ => {}
    }
    Ok(())
}

/// What the core replied.
pub fn write_reply(line: &mut String, reply: &Reply) -> Result<(), NoMemory> {
    match reply {
        Reply::Full => line.push_str("Full")?,
        Reply::Ready => line.push_str("Ready")?,
        Reply::Joined(job) => write!(line, "Joined {job}")?,
        Reply::Started(job) => write!(line, "Started {job}")?,
        Reply::NotYet(job) => write!(line, "NotYet {job}")?,
        Reply::Failed(cause) => write!(line, "Failed {cause:?}")?,
        Reply::Closed(_) => line.push_str("Closed")?,
        Reply::Idle(_) => line.push_str("Idle")?,
        Reply::NoMemory => line.push_str("NoMemory")?,
        Reply::Discarded => line.push_str("Discarded")?,
        Reply::Cancelled(is) => write!(line, "Cancelled {is}")?,
        Reply::Done => line.push_str("Done")?,
        _ => write_other(line, reply)?,
    }
    Ok(())
}
