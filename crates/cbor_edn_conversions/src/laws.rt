//! Laws of the definitions that conversions cite. Each function's contract is one, and its body does nothing.
ghost use Rattle.cbor_edn_model.specs.visit.Seeking.{IsTag, IsApplication};
ghost use Rattle.cbor_edn_conversions.specs.Resolving.{no_resolver};
ghost use Rattle.cbor_edn_conversions.specs.ResolvingLaws.{NoneResolved, DecodedUnresolved, VisitKeeps, VisitKeepsExactly, VisitResolves, VisitResolvesExactly, ResolvedAgain, ResolvedInTurn, ResolversByPrefix, VisitedOnce, NeverRefused, VisitsExist, VisitsItems, ItemsVisitedOnce, VisitsTurnItems, ItemsResolvedAgain, AnswersResolvedAgain};
ghost use Rattle.cbor_edn_conversions.specs.VisitedItems.{IsTagNode, IsApplicationNode};
ghost use Rattle.cbor_edn_conversions.specs.Resolvers.{time_resolver, address_resolver, literal_resolver};
ghost use Rattle.cbor_edn_conversions.specs.Times.{resolve_time, pretty_time};
ghost use Rattle.cbor_edn_conversions.specs.Addresses.{resolve_address, pretty_address};
ghost use Rattle.cbor_edn_conversions.specs.All.{resolve_all, pretty_all};
ghost use Rattle.cbor_edn_conversions.specs.Bignums.{pretty_bignum};
ghost use Rattle.cbor_edn_conversions.specs.Annotations.{comment_lang};
ghost use Rattle.cbor_edn_conversions.specs.Tag999.{to_tag999};
ghost use Rattle.cbor_edn_conversions.specs.NestingLaws.{NestsAsMeant, DecodedIsDirect, VisitKeepsDirect, CallsKeepDirect, ClaimsKeepDirect, LanguageKeepsItems};
ghost use Rattle.cbor_edn_conversions.specs.CoseLaws.{CoseKeepsItems, HeadersKeepItems, KeyNamesKeepItems, CoseGiven, ClaimsAndKeysKeep, MessageClaimsKeep, MessageClaimsGiven};
ghost use Rattle.cbor_edn_conversions.specs.EmbeddedLaws.{BytesAreContent, DecodedItemIs, ShowKeeps, ShowGiven, ShownAtOnce, ShownMeans, ShownMeansAlone, ShownNests, ShownWithin};
ghost use Rattle.cbor_edn_conversions.specs.ConversionLaws.{IsOfApplications, LiteralsStandFor, LiteralsOfItems, EncodingsComputed, OnOneLine, StampsTested, TimesReadBack, PrettyKeeps, BignumsKept, ClaimsKeep, Resolves, PrettyByNumber, ResolvedByPrefix, PrettyResolvedAgain, PrettyResolvedInTurn, ItemsResolvedBack};

/// By no resolver items mean what they mean, and decoded items mean the same by any of application literals.
pub fn decoded_means()
    ensures none { NoneResolved }
    ensures decoded { DecodedUnresolved }
{}

/// Resolvers that look at prefix and text are of application literals.
pub fn by_prefix()
    ensures { ResolversByPrefix }
{}

/// A visit keeps what its calls keep.
pub fn visits_keep()
    ensures tags { VisitKeeps IsTag }
    ensures tags_exactly { VisitKeepsExactly IsTag }
    ensures literals { VisitKeeps IsApplication }
    ensures literals_exactly { VisitKeepsExactly IsApplication }
{}

/// A whole visit of literals turns the one resolver into the other where its calls do.
pub fn visits_resolve()
    ensures values { VisitResolves }
    ensures exactly { VisitResolvesExactly }
{}

/// The items of a value mean it again once literals stood for parts of them, and were replaced by what they stand for.
pub fn resolved_again()
    ensures one_visit { ResolvedAgain }
    ensures in_turn { ResolvedInTurn }
    ensures of_items { ItemsResolvedAgain }
    ensures of_answers { AnswersResolvedAgain }
{}

/// Visits with the same answers have the same result.
pub fn visited_once()
    ensures tags { VisitedOnce IsTag }
    ensures literals { VisitedOnce IsApplication }
    ensures tag_items { ItemsVisitedOnce IsTagNode }
    ensures literal_items { ItemsVisitedOnce IsApplicationNode }
{}

/// By answers that take no memory each tree has a whole visit.
pub fn visits_exist()
    ensures tags { VisitsExist IsTag }
    ensures literals { VisitsExist IsApplication }
{}

/// A whole visit of a tree is one of its items.
pub fn visits_items()
    ensures tags { VisitsItems IsTag IsTagNode }
    ensures literals { VisitsItems IsApplication IsApplicationNode }
    ensures tags_turn { VisitsTurnItems IsTag IsTagNode }
    ensures literals_turn { VisitsTurnItems IsApplication IsApplicationNode }
{}

/// The resolvers give values to application literals without a content alone.
pub fn resolvers()
    ensures times { IsOfApplications time_resolver }
    ensures addresses { IsOfApplications address_resolver }
    ensures values { LiteralsStandFor }
{}

/// What conversions compare and make: the bytes of items, the spaces of a single line, and the instants of numbers.
pub fn conversions()
    ensures encodings { EncodingsComputed }
    ensures spaces { OnOneLine }
    ensures stamps { StampsTested }
    ensures instants { TimesReadBack }
    ensures items { LiteralsOfItems }
{}

/// Items that are prettified mean what they meant, and so do claims sets with their comments.
pub fn pretty_calls_keep()
    ensures times { PrettyKeeps time_resolver pretty_time }
    ensures addresses { PrettyKeeps address_resolver pretty_address }
    ensures bignums { BignumsKept }
    ensures times_of_all { PrettyKeeps literal_resolver pretty_time }
    ensures addresses_of_all { PrettyKeeps literal_resolver pretty_address }
    ensures all { PrettyKeeps literal_resolver pretty_all }
    ensures claims { ClaimsKeep }
{}

/// Literals that are resolved mean what they stood for.
pub fn calls_resolve()
    ensures times_of_all { Resolves resolve_time literal_resolver address_resolver }
    ensures times_kept { Resolves resolve_time literal_resolver literal_resolver }
    ensures times { Resolves resolve_time time_resolver no_resolver }
    ensures addresses_of_all { Resolves resolve_address literal_resolver time_resolver }
    ensures addresses_kept { Resolves resolve_address literal_resolver literal_resolver }
    ensures addresses { Resolves resolve_address address_resolver no_resolver }
    ensures all { Resolves resolve_all literal_resolver no_resolver }
{}

/// At most one conversion does something: at a tag by its number, at a literal by its prefix.
pub fn one_acts()
    ensures tags { PrettyByNumber }
    ensures literals { ResolvedByPrefix }
{}

/// The items of a value mean it again once they were prettified and resolved.
pub fn pretty_resolved_again()
    ensures one_visit { PrettyResolvedAgain }
    ensures in_turn { PrettyResolvedInTurn }
    ensures of_items { ItemsResolvedBack }
{}

/// Calls of conversions and of comments take no memory.
pub fn answers_given()
    ensures pretty_times { NeverRefused pretty_time }
    ensures pretty_addresses { NeverRefused pretty_address }
    ensures pretty_bignums { NeverRefused pretty_bignum }
    ensures all_pretty { NeverRefused pretty_all }
    ensures resolved_times { NeverRefused resolve_time }
    ensures resolved_addresses { NeverRefused resolve_address }
    ensures all_resolved { NeverRefused resolve_all }
    ensures others { NeverRefused to_tag999 }
    ensures comments { NeverRefused comment_lang }
{}

/// Direct items nest no deeper than those of the values that they mean, and decoded items are direct.
pub fn nest_as_meant()
    ensures within { NestsAsMeant }
    ensures decoded { DecodedIsDirect }
{}

/// Visits leave direct items direct where their calls do.
pub fn visits_keep_direct()
    ensures tags { VisitKeepsDirect IsTag }
    ensures literals { VisitKeepsDirect IsApplication }
{}

/// Calls of conversions leave direct items direct.
pub fn calls_keep_direct()
    ensures pretty_times { CallsKeepDirect pretty_time }
    ensures pretty_addresses { CallsKeepDirect pretty_address }
    ensures pretty_bignums { CallsKeepDirect pretty_bignum }
    ensures all_pretty { CallsKeepDirect pretty_all }
    ensures resolved_times { CallsKeepDirect resolve_time }
    ensures resolved_addresses { CallsKeepDirect resolve_address }
    ensures all_resolved { CallsKeepDirect resolve_all }
    ensures others { CallsKeepDirect to_tag999 }
{}

/// Comments at claims and at the direction of texts leave direct items direct.
pub fn annotations_keep_direct()
    ensures claims { ClaimsKeepDirect }
    ensures comments { CallsKeepDirect comment_lang }
    ensures comments_alone { LanguageKeepsItems }
{}

/// What is decoded of a literal's bytes.
pub fn embedded_bytes()
    ensures content { BytesAreContent }
    ensures item { DecodedItemIs }
{}

/// What visits that show byte strings leave: one whole visit shows them all, and within a limit.
pub fn shown_once()
    ensures given { ShowGiven }
    ensures at_once { ShownAtOnce }
    ensures nests { ShownNests }
    ensures within { ShownWithin }
{}

/// Byte strings that are shown mean what they meant, whatever literals stand for.
pub fn shown_keeps()
    ensures calls { ShowKeeps }
    ensures items { ShownMeans }
    ensures alone { ShownMeansAlone }
{}

/// Comments in COSE messages and in COSE keys leave the items.
pub fn cose_comments()
    ensures given { CoseGiven }
    ensures messages { CoseKeepsItems }
    ensures headers { HeadersKeepItems }
    ensures keys { KeyNamesKeepItems }
{}

/// Claims sets in COSE messages, and the keys in claims sets, keep what is meant.
pub fn message_claims()
    ensures given { MessageClaimsGiven }
    ensures claims { ClaimsAndKeysKeep }
    ensures messages { MessageClaimsKeep }
{}
