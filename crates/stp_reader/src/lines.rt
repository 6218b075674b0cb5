ghost use Rattle.std.specs.Prelude.{◌≡◌, ◌<◌, [], ◌∷◌, length, MatchOption, IfSome};
ghost use Rattle.stp_reader.specs.Lines.{pieces, without_cr};

use plain_text::cut_at;

/// The first line, without its LF, and what stands after it.
pub fn next_piece(bytes: &[u8]) -> Option<(&[u8], &[u8])>
    ensures piece { MatchOption result (pieces bytes.now ≡ [])
        (λ x. pieces bytes.now ≡ x.0.now ∷ pieces x.1.now) }
    ensures shorter { IfSome result (λ x. length x.1.now < length bytes.now) }
{
    if bytes.is_empty() {
        return None;
    }
    let Some((piece, after)) = cut_at(bytes, b'\n') else {
        return Some((bytes, &bytes[..0]));
    };
    Some((piece, after))
}

/// The line without the CR that ends it, if one does.
pub fn without_cr(piece: &[u8]) -> &[u8]
    ensures { result.now ≡ without_cr piece.now }
{
    let Some(last) = piece.len().checked_sub(1) else {
        return piece;
    };
    if piece[last] == b'\r' {
        return &piece[..last];
    }
    piece
}
