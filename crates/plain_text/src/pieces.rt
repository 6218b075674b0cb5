ghost use Rattle.std.specs.Prelude.{◌≡◌, ◌<◌, ◌==◌, length, IfSome, position, option_map};
ghost use Rattle.plain_text.specs.Pieces.{cut};

// The index of the first such byte.
fn index_of(bytes: &[u8], byte: u8) -> Option<usize>
    ensures { result ≡ position (λ b. b == byte) bytes.now }
{
    bytes.iter().position(|b| *b == byte)
}

/// What stands before the first byte of this value, and what stands after it.
pub fn cut_at(bytes: &[u8], byte: u8) -> Option<(&[u8], &[u8])>
    ensures cut { option_map (λ x. (x.0.now, x.1.now)) result ≡ cut byte bytes.now }
    ensures shorter { IfSome result (λ x. length x.1.now < length bytes.now) }
{
    let index = index_of(bytes, byte)?;
    Some((&bytes[..index], &bytes[index + 1..]))
}
