ghost use Rattle.std.specs.Prelude.{◌<◌};
ghost use Rattle.za_base.specs.Read.{HasRead};

use crate::source::{Failed, Source};
use std::alloc::Global;
use thiserror::Error;

/// Why a source wasn't read to its end.
#[derive(Clone, Copy, Debug, PartialEq, Eq, Error)]
pub enum ReadEnd {
    /// A read failed: the source's count of faults rose in this call, or stands at its last value.
    #[error("a read failed")]
    Fault,
    /// There were more bytes than the limit.
    #[error("too many bytes")]
    TooLong,
    /// Want of memory is the one free answer.
    #[error("out of memory")]
    OutOfMemory,
}

/// The most bytes that one read asks for.
const PIECE: usize = 4096;

/// Reads a source to its end, and gives all bytes that it had left, at most `limit`.
///
/// `TooLong` comes exactly where `limit + 1` bytes were taken; with any other answer at most `limit`
/// were. `Fault` comes only where the source's count of faults rose in this call, or stands at its last
/// value; after any other answer the count is what it was. After an error the source has left what
/// comes after the bytes taken. What is said of bytes holds where the source tells those that it has
/// left.
pub fn read_all<S: Source>(alloc: Global, source: &mut S, limit: usize) -> Result<Vec<u8>, ReadEnd>
    requires { limit < 4294967295 }
    ensures { HasRead limit (S.left source.old) (S.left source.new)
        (S.faults source.old) (S.faults source.new) result }
{
    let mut text = Vec::new(alloc);
    let mut piece = [0u8; PIECE];
    'turns: loop {
        let room = PIECE.min(limit + 1 - text.len());
        let n = match source.read(&mut piece[..room]) {
            Ok(n) => n,
            Err(Failed) => return Err(ReadEnd::Fault),
        };
        if n == 0 {
            return Ok(text);
        }
        // Here limit + 1 bytes were taken, so the source had too many.
        if n > limit - text.len() {
            return Err(ReadEnd::TooLong);
        }
        if text.extend_from_slice(&piece[..n]).is_err() {
            return Err(ReadEnd::OutOfMemory);
        }
    }
}
