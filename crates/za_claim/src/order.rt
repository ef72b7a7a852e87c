ghost use Rattle.std.specs.Prelude.{◌≡◌};
ghost use Rattle.za_claim.specs.Grammar.{claim_head, claim_order_fault, next_claim_place};

use za_text::Kind;

/// What the first word of a line of a claim says it is.
#[derive(Clone, Copy, Debug, PartialEq, Eq)]
pub(crate) enum Head {
    Claim,
    Fire,
    End,
    Other,
}

/// Where a claim has come to.
#[derive(Clone, Copy, Debug, PartialEq, Eq)]
pub(crate) enum Place {
    AtClaim,
    AtEvents,
    AfterEnd,
}

pub(crate) fn head_of(word: &[u8]) -> Head
    ensures { result ≡ claim_head word.now }
{
    if word == b"claim".as_slice() {
        Head::Claim
    } else if word == b"fire".as_slice() {
        Head::Fire
    } else if word == b"end".as_slice() {
        Head::End
    } else {
        Head::Other
    }
}

/// The place after a line.
pub(crate) fn next_place(place: Place, head: Head) -> Place
    ensures { result ≡ next_claim_place place head }
{
    match head {
        Head::Claim | Head::Fire => Place::AtEvents,
        Head::End => Place::AfterEnd,
        Head::Other => place,
    }
}

/// Whether a line may stand at a place.
pub(crate) fn order_fault(place: Place, head: Head) -> Option<Kind>
    ensures { result ≡ claim_order_fault place head }
{
    match place {
        Place::AtClaim => match head {
            Head::Claim => None,
            _ => Some(Kind::OutOfOrder),
        },
        Place::AtEvents => match head {
            Head::Fire | Head::End => None,
            _ => Some(Kind::OutOfOrder),
        },
        Place::AfterEnd => Some(Kind::Trailing),
    }
}
