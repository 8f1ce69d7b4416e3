//! Visits, and the functions that they call, with the texts that they may leave.
use crate::acts::{Act, OfLiteral, OfTag};
use crate::change::{Change, OfItem, OfSequence, OfStandalone};
use crate::spaces::PAIR;
use crate::trees::Row;
use cbor_edn_application::{CcsHandler, CnfHandler, OscHandler};

/// Visits: a refused one has made a beginning of its calls, the last one's comment perhaps missing (`docs/DECISIONS.md`). What conversions
/// and comments leave has the sources of the tables of `cbor_edn_application_tests`.
pub(crate) const VISITS: &[Row] = &[
    (
        "Sequence::visit_tag",
        Change::Sequence(OfSequence::Tags),
        &[
            PAIR,
            "{4: 1(0)/ t /, 8: {4: {3: -17}}} , [_ h'00', <<dt'1970-01-01T00:00:23Z'>>]",
        ],
    ),
    (
        "Sequence::visit_tag_no_deeper",
        Change::Sequence(OfSequence::TagsThatStay),
        &[
            PAIR,
            "{4: 1(0)/ a comment of some length /, 8: {4: {3: -17}}} , [_ h'00', <<dt'1970-01-01T00:00:23Z'>>]",
        ],
    ),
    (
        "Sequence::visit_application_literals",
        Change::Sequence(OfSequence::Literals),
        &[
            PAIR,
            "{4: 1(0), 8: {4: {3: -17}}} , [_ h'00'/ a comment of some length /, <<dt'1970-01-01T00:00:23Z'>>]",
            "{4: 1(0), 8: {4: {3: -17}}} , [_ h'00'/ a comment of some length /, <<dt'1970-01-01T00:00:23Z'/ a comment of some length />>]",
        ],
    ),
    (
        "Sequence::visit_application_items",
        Change::Sequence(OfSequence::LiteralItems),
        &[
            PAIR,
            "{4: 1(0), 8: {4: {3: -17}}} , [_ h'00'/ a comment of some length /, <<dt'1970-01-01T00:00:23Z'>>]",
            "{4: 1(0), 8: {4: {3: -17}}} , [_ h'00'/ a comment of some length /, <<dt'1970-01-01T00:00:23Z'/ a comment of some length />>]",
        ],
    ),
    (
        "StandaloneItem::visit_tag",
        Change::Standalone(OfStandalone::Tags),
        &[
            "1([2(3)])",
            "1([2(3)])/ a comment of some length /",
            "1([2(3)/ a comment of some length /])/ a comment of some length /",
        ],
    ),
    (
        "StandaloneItem::visit_application_literals",
        Change::Standalone(OfStandalone::Literals),
        &[
            "[h'00', <<x'1'>>]",
            "[h'00'/ c /, <<x'1'>>]",
            "[h'00'/ c /, <<x'1'/ c />>]",
        ],
    ),
    (
        "Item::visit_array_elements",
        Change::Item(OfItem::Elements),
        &[
            "[_ h'00', <<dt'1970-01-01T00:00:23Z'>>]",
            "[_ h'00'/ a comment of some length /, <<dt'1970-01-01T00:00:23Z'>>]",
            "[_ h'00'/ a comment of some length /, <<dt'1970-01-01T00:00:23Z'>>/ a comment of some length /]",
        ],
    ),
    (
        "Item::visit_map_elements",
        Change::Item(OfItem::Keys),
        &[
            "{4: 1(0), 8: {4: {3: -17}}}",
            "{4/ k /: 1(0), 8: {4: {3: -17}}}",
            "{4/ k /: 5, 8: {4: {3: -17}}}",
            "{4/ k /: 5/ v /, 8: {4: {3: -17}}}",
            "{4/ k /: 5/ v /, 8/ k /: {4: {3: -17}}}",
            "{4/ k /: 5/ v /, 8/ k /: 5}",
            "{4/ k /: 5/ v /, 8/ k /: 5/ v /}",
        ],
    ),
    (
        "comment_ccs",
        Change::Item(OfItem::Claims),
        &[
            "{4: 1(0), 8: {4: {3: -17}}}",
            "{4/ exp /: 1(0), 8: {4: {3: -17}}}",
            "{4/ exp /: 1(0)/ Numeric value expected for dt'' literal /, 8: {4: {3: -17}}}",
            "{4/ exp /: 1(0)/ Numeric value expected for dt'' literal /, 8/ cnf /: {4: {3: -17}}}",
            "{4/ exp /: 1(0)/ Numeric value expected for dt'' literal /, 8/ cnf /: {4/ osc /: {3: -17}}}",
            "{4/ exp /: 1(0)/ Numeric value expected for dt'' literal /, 8/ cnf /: {4/ osc /: {3/ hkdf /: -17}}}",
            "{4/ exp /: 1(0)/ Numeric value expected for dt'' literal /, 8/ cnf /: {4/ osc /: {3/ hkdf /: -17# SHA-512/256\n}}}",
        ],
    ),
    (
        "annotate_claims",
        Change::Item(OfItem::AnnotateClaims),
        &[
            "{4: 42, 8:{4:{3:-17,'a':0}}}",
            "{4/ exp /: 42, 8:{4:{3:-17,'a':0}}}",
            "{4/ exp /: dt'1970-01-01T00:00:42+00:00', 8:{4:{3:-17,'a':0}}}",
            "{4/ exp /: dt'1970-01-01T00:00:42+00:00', 8/ cnf /:{4:{3:-17,'a':0}}}",
            "{4/ exp /: dt'1970-01-01T00:00:42+00:00', 8/ cnf /:{4/ osc /:{3:-17,'a':0}}}",
            "{4/ exp /: dt'1970-01-01T00:00:42+00:00', 8/ cnf /:{4/ osc /:{3/ hkdf /:-17,'a':0}}}",
            "{4/ exp /: dt'1970-01-01T00:00:42+00:00', 8/ cnf /:{4/ osc /:{3/ hkdf /:-17# SHA-512/256\n,'a':0}}}",
            "{4/ exp /: dt'1970-01-01T00:00:42+00:00', 8/ cnf /:{4/ osc /:{3/ hkdf /:-17# SHA-512/256\n,'a'/ Expected integer /:0}}}",
        ],
    ),
    (
        "annotate_claims_sets",
        Change::Sequence(OfSequence::AnnotateClaimsSets),
        &[
            "{1: 2}, 3, {7: 4}",
            "{1/ iss /: 2}, 3, {7: 4}",
            "{1/ iss /: 2}, 3, {7/ jti /: 4}",
        ],
    ),
    (
        "visits::show_embedded",
        Change::Sequence(OfSequence::ShowEmbedded),
        &[
            "h'8141a0', [h'814102']",
            "<<[<<{}>>]>>, [h'814102']",
            "<<[<<{}>>]>>, [<<[h'02']>>]",
        ],
    ),
    (
        "visits::comment_cose",
        Change::Sequence(OfSequence::CommentCose),
        &[
            "98([<<{1: -7}>>, {4: 5}, 6, [[7]]])",
            "98([<<{1/ alg /: -7}>>, {4: 5}, 6, [[7]]])",
            "98([<<{1/ alg /: -7/ ES256 /}>>, {4: 5}, 6, [[7]]])",
            "98([<<{1/ alg /: -7/ ES256 /}>>/ protected /, {4: 5}, 6, [[7]]])",
            "98([<<{1/ alg /: -7/ ES256 /}>>/ protected /, {4/ kid /: 5}, 6, [[7]]])",
            "98([<<{1/ alg /: -7/ ES256 /}>>/ protected /, {4/ kid /: 5}/ unprotected /, 6, [[7]]])",
            "98([<<{1/ alg /: -7/ ES256 /}>>/ protected /, {4/ kid /: 5}/ unprotected /, 6/ payload /, [[7]]])",
            "98([<<{1/ alg /: -7/ ES256 /}>>/ protected /, {4/ kid /: 5}/ unprotected /, 6/ payload /, [[7/ protected /]]])",
            "98([<<{1/ alg /: -7/ ES256 /}>>/ protected /, {4/ kid /: 5}/ unprotected /, 6/ payload /, [[7/ protected /]]/ signatures /])",
            "98([<<{1/ alg /: -7/ ES256 /}>>/ protected /, {4/ kid /: 5}/ unprotected /, 6/ payload /, [[7/ protected /]]/ signatures /])/ COSE_Sign /",
        ],
    ),
    (
        "comment_claims_keys",
        Change::Sequence(OfSequence::CommentClaimsKeys),
        &[
            "{8: {1: {1: 2, -1: 1}}}, {8: {2: 3}}",
            "{8: {1/ COSE_Key /: {1: 2, -1: 1}}}, {8: {2: 3}}",
            "{8: {1/ COSE_Key /: {1/ kty /: 2, -1: 1}}}, {8: {2: 3}}",
            "{8: {1/ COSE_Key /: {1/ kty /: 2/ EC2 /, -1: 1}}}, {8: {2: 3}}",
            "{8: {1/ COSE_Key /: {1/ kty /: 2/ EC2 /, -1/ crv /: 1}}}, {8: {2: 3}}",
            "{8: {1/ COSE_Key /: {1/ kty /: 2/ EC2 /, -1/ crv /: 1/ P-256 /}}}, {8: {2: 3}}",
            "{8: {1/ COSE_Key /: {1/ kty /: 2/ EC2 /, -1/ crv /: 1/ P-256 /}}}, {8: {2/ Encrypted_COSE_Key /: 3}}",
        ],
    ),
    (
        "annotate_messages",
        Change::Sequence(OfSequence::AnnotateMessages),
        &[
            "18([1, 2, <<{4: 42}>>, 3]), 17([1, 2, <<{7: 3}>>, 3])",
            "18([1, 2, <<{4/ exp /: dt'1970-01-01T00:00:42+00:00'}>>, 3]), 17([1, 2, <<{7: 3}>>, 3])",
            "18([1, 2, <<{4/ exp /: dt'1970-01-01T00:00:42+00:00'}>>, 3]), 17([1, 2, <<{7/ jti /: 3}>>, 3])",
        ],
    ),
    (
        "prettify",
        Change::Sequence(OfSequence::Prettify),
        &[
            "1(0), 52(h'c0000201'), 2(h'010000000000000000')",
            "DT'1970-01-01T00:00:00+00:00', 52(h'c0000201'), 2(h'010000000000000000')",
            "DT'1970-01-01T00:00:00+00:00', IP'192.0.2.1', 2(h'010000000000000000')",
            "DT'1970-01-01T00:00:00+00:00', IP'192.0.2.1', 18446744073709551616",
        ],
    ),
    (
        "prettify_times",
        Change::Sequence(OfSequence::PrettifyTimes),
        &[
            "[1(-1.5), 1(\"x\"), 0]",
            "[DT'1969-12-31T23:59:58.500+00:00', 1(\"x\"), 0]",
            "[DT'1969-12-31T23:59:58.500+00:00', 1(\"x\")/ Numeric value expected for dt'' literal /, 0]",
        ],
    ),
    (
        "prettify_addresses",
        Change::Sequence(OfSequence::PrettifyAddresses),
        &[
            "[52([24, h'c00002']), 54([h'00000000000000000000000000000001', \"lo\"]), 52(h'00')]",
            "[IP'192.0.2.0/24', 54([h'00000000000000000000000000000001', \"lo\"]), 52(h'00')]",
            "[IP'192.0.2.0/24', 54([ip'::1', \"lo\"]), 52(h'00')]",
            "[IP'192.0.2.0/24', 54([ip'::1', \"lo\"]), 52(h'00')/ Data too short for address type /]",
        ],
    ),
    (
        "prettify_bignums",
        Change::Sequence(OfSequence::PrettifyBignums),
        &[
            "[3(h'010000000000000000'), 2(h'ff')]",
            "[-18446744073709551617, 2(h'ff')]",
            "[-18446744073709551617, 2(h'ff')]",
        ],
    ),
    (
        "resolve",
        Change::Sequence(OfSequence::Resolve),
        &[
            "[DT'1969-12-31T23:59:58.5Z', IP'127.0.0.0/8', ip'x']",
            "[1(-1.5), IP'127.0.0.0/8', ip'x']",
            "[1(-1.5), 52([8, h'7f']), ip'x']",
            "[1(-1.5), 52([8, h'7f']), ip'x'/ No recognized address format /]",
        ],
    ),
    (
        "resolve_times",
        Change::Sequence(OfSequence::ResolveTimes),
        &[
            "DT'1969-12-31T23:59:58.5Z', ip'::1'",
            "1(-1.5), ip'::1'",
            "1(-1.5), ip'::1'",
        ],
    ),
    (
        "resolve_addresses",
        Change::Sequence(OfSequence::ResolveAddresses),
        &[
            "ip'192.0.2.0/24', dt'x'",
            "[24, h'c00002'], dt'x'",
            "[24, h'c00002'], dt'x'",
        ],
    ),
    (
        "to_999",
        Change::Sequence(OfSequence::To999),
        &[
            "[foo'bar', h'00']",
            "[999([\"foo\", \"bar\"]), h'00']",
            "[999([\"foo\", \"bar\"]), h'00']",
        ],
    ),
    (
        "comment_tags",
        Change::Sequence(OfSequence::CommentTags("a comment of some length")),
        &[
            "1([2(3)])",
            "1([2(3)])/ a comment of some length /",
            "1([2(3)/ a comment of some length /])/ a comment of some length /",
        ],
    ),
    (
        "comment_languages",
        Change::Sequence(OfSequence::CommentLanguages),
        &[
            "[38([\"he\", \"x\", true]), 38(1)]",
            "[38([\"he\", \"x\", true/ Right-to-left /]), 38(1)]",
            "[38([\"he\", \"x\", true/ Right-to-left /]), 38(1)/ Expected array /]",
        ],
    ),
];

/// Functions on one item: a refused one leaves it, and so its text, as it was, but for `comment_cose` and handlers, which may have put
/// comments. A comment that it answers is put in front of it. The same sources.
pub(crate) const ACTS: &[Row] = &[
    (
        "dt_aol_to_item",
        Change::Standalone(OfStandalone::Act(Act::Literal(OfLiteral::Time))),
        &["DT'1969-12-31T23:59:58.5Z'", "1(-1.5)"],
    ),
    (
        "dt_aol_to_item, no time",
        Change::Standalone(OfStandalone::Act(Act::Literal(OfLiteral::Time))),
        &[
            "dt'2001-02-29T00:00:00Z'",
            "/ DateTime parsing failed /dt'2001-02-29T00:00:00Z'",
        ],
    ),
    (
        "ip_aol_to_item",
        Change::Standalone(OfStandalone::Act(Act::Literal(OfLiteral::Address))),
        &["IP'127.0.0.0/8'", "52([8, h'7f'])"],
    ),
    (
        "all_aol_to_item",
        Change::Standalone(OfStandalone::Act(Act::Literal(OfLiteral::All))),
        &["ip'2001:db8::1234'", "h'20010db8000000000000000000001234'"],
    ),
    (
        "any_aol_to_tag999",
        Change::Standalone(OfStandalone::Act(Act::Literal(OfLiteral::To999))),
        &["foo'bar'", "999([\"foo\", \"bar\"])"],
    ),
    (
        "dt_tag_to_aol",
        Change::Standalone(OfStandalone::Act(Act::Tag(OfTag::Time))),
        &["1(-1.5)", "DT'1969-12-31T23:59:58.500+00:00'"],
    ),
    (
        "ip_tag_to_aol",
        Change::Standalone(OfStandalone::Act(Act::Tag(OfTag::Address))),
        &["52([24, h'c00002'])", "IP'192.0.2.0/24'"],
    ),
    (
        "ip_tag_to_aol, an interface",
        Change::Standalone(OfStandalone::Act(Act::Tag(OfTag::Address))),
        &[
            "54([h'00000000000000000000000000000001', \"lo\"])",
            "54([ip'::1', \"lo\"])",
        ],
    ),
    (
        "tag23_to_edn_integer",
        Change::Standalone(OfStandalone::Act(Act::Tag(OfTag::Bignum))),
        &["3(h'010000000000000000')", "-18446744073709551617"],
    ),
    (
        "all_tag_prettify",
        Change::Standalone(OfStandalone::Act(Act::Tag(OfTag::All))),
        &["2(h'010000000000000000')", "18446744073709551616"],
    ),
    (
        "comment_lang_tag",
        Change::Standalone(OfStandalone::Act(Act::Tag(OfTag::Language))),
        &[
            "38([\"he\", \"x\", true])",
            "38([\"he\", \"x\", true/ Right-to-left /])",
        ],
    ),
    (
        "show_embedded",
        Change::Standalone(OfStandalone::Act(Act::Embedded)),
        &["h'8142a101'_0", "<<[h'a101']>>_0"],
    ),
    (
        "comment_cose",
        Change::Standalone(OfStandalone::Act(Act::Tag(OfTag::Message))),
        &[
            "18([1, {1: 5}])",
            "18([1/ protected /, {1: 5}])",
            "18([1/ protected /, {1/ alg /: 5}])",
            "18([1/ protected /, {1/ alg /: 5# HMAC 256/256\n}])",
            "18([1/ protected /, {1/ alg /: 5# HMAC 256/256\n}/ unprotected /])",
            "/ COSE_Sign1 /18([1/ protected /, {1/ alg /: 5# HMAC 256/256\n}/ unprotected /])",
        ],
    ),
    (
        "annotate_message",
        Change::Standalone(OfStandalone::Act(Act::Tag(OfTag::Claims))),
        &[
            "18([1, 2, <<{8: {1: {1: 4}}}>>])",
            "18([1, 2, <<{8/ cnf /: {1/ COSE_Key /: {1/ kty /: 4/ Symmetric /}}}>>])",
        ],
    ),
    (
        "comment_lang_tag, no array",
        Change::Standalone(OfStandalone::Act(Act::Tag(OfTag::Language))),
        &["38(1)", "/ Expected array /38(1)"],
    ),
    (
        "CcsHandler::Timestamp",
        Change::Standalone(OfStandalone::Act(Act::Claim(CcsHandler::Timestamp))),
        &["42", "dt'1970-01-01T00:00:42+00:00'"],
    ),
    (
        "CcsHandler::Cnf",
        Change::Standalone(OfStandalone::Act(Act::Claim(CcsHandler::Cnf))),
        &[
            "{4: {3: -17}}",
            "{4/ osc /: {3: -17}}",
            "{4/ osc /: {3/ hkdf /: -17}}",
            "{4/ osc /: {3/ hkdf /: -17# SHA-512/256\n}}",
        ],
    ),
    (
        "CnfHandler::Osc",
        Change::Standalone(OfStandalone::Act(Act::Confirmation(CnfHandler::Osc))),
        &[
            "{3: -17}",
            "{3/ hkdf /: -17}",
            "{3/ hkdf /: -17# SHA-512/256\n}",
        ],
    ),
    (
        "OscHandler::Algorithm",
        Change::Standalone(OfStandalone::Act(Act::Parameter(OscHandler::Algorithm))),
        &["-17", "# SHA-512/256\n-17"],
    ),
];
