use std::alloc::Global;
use std::io;
use std::io::Read;

// The most bytes that are read of a bundle, and of lines.
const MOST_BYTES: u64 = 32768;

// The first 32,768 bytes of a source, or all of them if there are fewer.
pub fn first_bytes<R: Read + Drop>(source: R, heap: Global) -> io::Result<Vec<u8>> {
    let mut bytes = Vec::new(heap);
    let mut part = source.take(MOST_BYTES);
    part.read_to_end(&mut bytes)?;
    Ok(bytes)
}
