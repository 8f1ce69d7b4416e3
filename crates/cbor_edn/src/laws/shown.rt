//! Laws of CBOR that is shown.
ghost use Rattle.cbor_edn_model.specs.visit.Seeking.{CallArguments};
ghost use Rattle.cbor_edn_model.specs.visit.Visits.{fine};
ghost use Rattle.cbor_edn_conversions.specs.Addresses.{pretty_address};
ghost use Rattle.cbor_edn_conversions.specs.Annotations.{comment_lang};
ghost use Rattle.cbor_edn_conversions.specs.Bignums.{pretty_bignum};
ghost use Rattle.cbor_edn_conversions.specs.Claims.{with_claims};
ghost use Rattle.cbor_edn_conversions.specs.Cose.{comment_cose};
ghost use Rattle.cbor_edn_conversions.specs.CoseKeys.{with_key_names};
ghost use Rattle.cbor_edn_conversions.specs.MessageClaims.{message_claims};
ghost use Rattle.cbor_edn_conversions.specs.Times.{pretty_time};
ghost use Rattle.cbor_edn.specs.ShowLaws.{ShownOnce, ShownOrFault, NeverDeepens, ShownNestsWithin, ShownActsOnNothing, NamedActsOnNothing, ShownReadsBack};

/// An input is shown in one way, or it has a fault.
pub fn shown_once()
    ensures once { ShownOnce }
    ensures or_fault { ShownOrFault }
{}

/// No step behind that which shows embedded CBOR lets items nest deeper, so what is shown nests within the limit.
pub fn shown_within()
    ensures times { (a : CallArguments) → NeverDeepens (pretty_time a) }
    ensures addresses { (a : CallArguments) → NeverDeepens (pretty_address a) }
    ensures bignums { (a : CallArguments) → NeverDeepens (pretty_bignum a) }
    ensures languages { (a : CallArguments) → NeverDeepens (comment_lang a) }
    ensures claims { NeverDeepens with_claims }
    ensures keys { NeverDeepens (λ w. (fine, with_key_names w)) }
    ensures messages { (a : CallArguments) → NeverDeepens (message_claims a) }
    ensures names { (a : CallArguments) → NeverDeepens (comment_cose a) }
    ensures within { ShownNestsWithin }
{}

/// What is shown of some bytes, `Diag2Cbor` encodes as these bytes again.
pub fn shown_reads_back()
    ensures { ShownReadsBack }
{}

/// What is shown acts on a terminal by its line feeds alone.
pub fn shown_acts_on_nothing()
    ensures shown { ShownActsOnNothing }
    ensures named { NamedActsOnNothing }
{}
