//! Laws of visits that convert. Each function's contract is one, and its body does nothing.
ghost use Rattle.cbor_edn_model.specs.visit.Seeking.{IsTag, IsApplication};
ghost use Rattle.cbor_edn_conversions.specs.Addresses.{resolve_address, pretty_address};
ghost use Rattle.cbor_edn_conversions.specs.Annotations.{comment_lang};
ghost use Rattle.cbor_edn_conversions.specs.Bignums.{pretty_bignum};
ghost use Rattle.cbor_edn_conversions.specs.Cose.{comment_cose};
ghost use Rattle.cbor_edn_conversions.specs.MessageClaims.{message_claims};
ghost use Rattle.cbor_edn_conversions.specs.Times.{resolve_time, pretty_time};
ghost use Rattle.cbor_edn_application.specs.VisitLaws.{SequencesResolvedAgain, ItemsResolvedAgain, SequencesMeanAgain, ItemsMeanAgain, VisitsKeep, VisitsLeave, ClaimsSetsKeep, LiteralsResolvedInTurn, VisitedOnce};

/// Decoded items that were prettified, and resolved then, mean what they were decoded from. Any others that meant a value mean it again.
pub fn calls_resolve_again()
    ensures sequences { SequencesResolvedAgain }
    ensures items { ItemsResolvedAgain }
    ensures any_sequences { SequencesMeanAgain }
    ensures any_items { ItemsMeanAgain }
{}

/// Visits keep what items mean where literals stand for values: those that make such literals, those that put other items in their place,
/// and those that put comments.
pub fn visits_keep()
    ensures pretty_times { VisitsKeep IsTag pretty_time }
    ensures pretty_addresses { VisitsKeep IsTag pretty_address }
    ensures pretty_bignums { VisitsKeep IsTag pretty_bignum }
    ensures times { VisitsKeep IsApplication resolve_time }
    ensures addresses { VisitsKeep IsApplication resolve_address }
    ensures languages { VisitsLeave IsTag comment_lang }
    ensures cose { VisitsLeave IsTag comment_cose }
    ensures claims { ClaimsSetsKeep }
    ensures message_claims { VisitsKeep IsTag message_claims }
{}

/// Items whose literals were all resolved mean what they meant where these stood for values.
pub fn visits_resolve()
    ensures { LiteralsResolvedInTurn }
{}

/// A whole visit with a function has one result.
pub fn visited_once()
    ensures tags { VisitedOnce IsTag }
    ensures literals { VisitedOnce IsApplication }
{}
