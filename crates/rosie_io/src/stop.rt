// Why reading stops before the end of the input.

use thiserror::Error;

/// The reason why reading stopped before the end of the input. The reader of lines and the runs of
/// the commands pass this value on unchanged.
///
/// # Examples
///
/// ```
/// use rosie_io::{Bytes, Calls, LineFault, LineReader, MemorySource, ReadStop};
/// let first = Calls::from_slice(alloc, &[1])?;
/// let mut source = MemorySource::new(Bytes::new(alloc), 8, first);
/// let line = LineReader::new(alloc, false, 80)?.next(&mut source);
/// assert!(rt; line == Err(LineFault::Stopped(ReadStop::ReadFault)));
/// ```
#[derive(Clone, Copy, Debug, PartialEq, Eq, Error)]
pub enum ReadStop {
    /// A read failed, or opening a file failed for a reason other than that the file is missing.
    #[error("read failed")]
    ReadFault,
    /// The reader has made 4,294,967,296 reads that took at least one byte, and needs another read.
    #[error("too many reads")]
    Spent,
}
