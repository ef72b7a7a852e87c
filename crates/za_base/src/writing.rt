ghost use Rattle.za_base.specs.Write.{HasWritten};

use crate::sink::Sink;
use crate::source::Failed;

/// Writes the whole text.
///
/// After `Err(k)` exactly the first `k` bytes of the text were appended, fewer than all, and the
/// sink's count of faults rose in this call, or stands at its last value. After `Ok` the count is
/// what it was. What is said of bytes holds where the sink tells those that were written to it.
pub fn write_all<K: Sink>(sink: &mut K, text: &[u8]) -> Result<(), usize>
    ensures { HasWritten text.now (K.written sink.old) (K.written sink.new)
        (K.faults sink.old) (K.faults sink.new) result }
{
    let mut at = 0;
    'turns: while at < text.len() {
        match sink.write(&text[at..]) {
            Ok(n) => at += n,
            Err(Failed) => return Err(at),
        }
    }
    Ok(())
}
