//! Texts, cut at a byte.

ghost use Rattle.std.specs.Prelude.{◌≡◌, ◌++◌, ◌==◌, ◌≤◌, length, not, true};
ghost use Rattle.std.specs.List.{prefix_len};
ghost use Rattle.texts.specs.Cuts.{begins_at, has_no};

/// What stands before the first byte of this value, and the rest from that byte on; all and nothing
/// where there is none.
pub fn cut_at(text: &[u8], byte: u8) -> (&[u8], &[u8])
    ensures parts { result.0.now ++ result.1.now ≡ text.now }
    ensures before { has_no byte result.0.now ≡ true }
    ensures after { begins_at byte result.1.now ≡ true }
{
    text.split_at(count_before(text, byte))
}

/// How many bytes stand before the first one of this value.
fn count_before(text: &[u8], byte: u8) -> usize
    ensures within { result ≤ length text.now }
    ensures count { result ≡ prefix_len (λ b. not (b == byte)) text.now }
{
    text.iter().take_while(|b| **b != byte).count()
}
