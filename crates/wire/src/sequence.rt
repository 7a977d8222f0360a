// Which of two RTP sequence numbers is the newer (01, "Cursor packets": "Newer"; serial numbers as in RFC 1982).
ghost use Rattle.std.specs.Prelude.{◌≡◌};
ghost use Rattle.wire.specs.Sequence.{is_newer};

// Whether the sequence number `new` is newer than `last`; where no last one is known, every number is. An Option would be no plainer:
// each caller has the flag and the number apart, as fields of a record.
#[tactic(auto, unfolding(crate::specs::Sequence::is_newer, crate::specs::Sequence::distance))]
pub fn newer(known: bool, last: u16, new: u16) -> bool
    ensures { result ≡ is_newer known last new }
{
    if !known {
        return true;
    }
    let ahead = new.wrapping_sub(last);
    if ahead < 1 {
        return false;
    }
    ahead <= 32767
}
