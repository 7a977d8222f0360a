// Fixed words, given as byte strings in small letters.
ghost use Rattle.std.specs.Prelude.{◌≡◌};
ghost use Rattle.wire.specs.Laid.{laid};
ghost use Rattle.text.specs.Word.{lowered, spells};

// The byte, a capital letter made small.
#[tactic(auto, unfolding(crate::specs::Word::lowered, crate::specs::Range::within))]
pub fn small(byte: u8) -> u8
    ensures { result ≡ lowered byte }
{
    byte.to_ascii_lowercase()
}

// Whether `bytes` spell the word, letter case not looked at.
pub fn spelled(bytes: &[u8], word: &[u8]) -> bool
    ensures { result ≡ spells word.now bytes.now }
{
    bytes.len() == word.len()
        && bytes
            .iter()
            .zip(word)
            .all(|(byte, letter)| small(*byte) == *letter)
}

// Copies the word into the first bytes of `out`; where it doesn't fit, nothing changes.
#[tactic(auto, unfolding(wire::specs::Laid::laid, wire::specs::Splice::splice))]
pub fn copy(out: &mut [u8], word: &[u8])
    ensures { out.new ≡ laid word.now out.old }
{
    if word.len() <= out.len() {
        out[..word.len()].copy_from_slice(word);
    }
}
