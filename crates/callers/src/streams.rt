//! A caller of za_base.

ghost use Rattle.std.specs.Prelude.{◌<◌};
ghost use Rattle.callers.specs.Streams.{HasCopied};

use std::alloc::Global;
use za_base::{ReadEnd, Sink, Source, read_all, write_all};

/// Why a source wasn't copied whole.
#[derive(Clone, Copy, Debug, PartialEq, Eq)]
pub enum CopyEnd {
    /// It wasn't read to its end, and nothing was written.
    Unread(ReadEnd),
    /// A write failed after so many bytes.
    Unwritten(usize),
}

/// Copies all bytes of a source, at most `limit`, to a sink.
pub fn copy_all<S: Source, K: Sink>(
    alloc: Global,
    source: &mut S,
    sink: &mut K,
    limit: usize,
) -> Result<(), CopyEnd>
    requires { limit < 4294967295 }
    ensures { HasCopied (S.left source.old) (S.left source.new)
        (K.written sink.old) (K.written sink.new) result }
{
    let bytes = match read_all(alloc, source, limit) {
        Ok(bytes) => bytes,
        Err(end) => return Err(CopyEnd::Unread(end)),
    };
    match write_all(sink, bytes.as_slice()) {
        Ok(()) => Ok(()),
        Err(k) => Err(CopyEnd::Unwritten(k)),
    }
}
