//! Laws of printed claims.

ghost use Rattle.za_claim.specs.Laws.{ClaimsAreReadBack, ClaimsFollowDocuments};

/// A document followed by the printed form of a claim about its job isn't refused, and the job and the claim
/// that are read from it are these. So `read_audited` of a text that `read_job` takes and then of what
/// `print_claim` gives answers an equal job and an equal claim, unless memory is refused.
pub fn claims_follow_documents()
    ensures { ClaimsFollowDocuments }
{}

/// The printed form of a job followed by that of a claim about it isn't refused, and the job and the
/// claim that are read from it are these. So `read_audited` of what `print_job` and then `print_claim`
/// give answers an equal job and an equal claim, unless memory is refused.
pub fn printed_claims_are_read_back()
    ensures { ClaimsAreReadBack }
{}
