ghost use Rattle.std.specs.Prelude.{◌≡◌, ◌++◌, OnOk, OnErr};
ghost use Rattle.std.specs.List.{flat_map};

use za_alpha::OutOfMemory;

/// Appends the pieces, one after another. Want of memory is the one free answer; then the text is as
/// it was.
pub fn push_pieces(text: &mut Vec<u8>, pieces: &[&[u8]]) -> Result<(), OutOfMemory>
    ensures ok { OnOk result (text.new.items ≡ text.old.items ++ flat_map (λ piece. piece.now) pieces.now) }
    ensures err { OnErr result (text.new.items ≡ text.old.items) }
{
    let len = text.len();
    for piece in pieces {
        if text.extend_from_slice(piece).is_err() {
            text.truncate(len);
            return Err(OutOfMemory);
        }
    }
    Ok(())
}
