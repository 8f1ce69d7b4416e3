//! What calls must answer.
use crate::answers::{BytesBy, Call, ItemBy, LaidOutBy, RefusedBy, Row, SequenceBy, StandaloneBy};
use crate::change::LINES;
use crate::spaces::PAIR;
use cbor_edn_parts::space::policy::DelimiterPolicy;

/// A text of each form that means something, and its bytes.
const FORMS: &str =
    "[1, 0x10000000000000000, {_ 3: []}, 'a' + <<\"b\">>, (_ h'63', b64'Zg'), 1(simple(32))]";

const FORMS_ENCODED: &[u8] =
    b"\x86\x01\xc2I\x01\0\0\0\0\0\0\0\0\xbf\x03\x80\xffCaab_AcAf\xff\xc1\xf8 ";

/// Lists and strings whose heads are longer than they need be, and one that embeds an encoding.
const ENCODED: &[u8] =
    b"\x9f\x03\xff\x9b\0\0\0\0\0\0\0\x01\x03[\0\0\0\0\0\0\0\x05helloC\x01\x9f\xff";

/// More entries than a row has room for at first, and a text that stands behind a pointer.
const MANY: &[u8] =
    b"\x88\x01\x02\x03\x04\x05\x06\xa2\x07\x08\x09\x0ax\x18a comment of some length";

/// A list whose comment is longer than what stands in a leaf itself.
const COMMENTED: &str = "[1 / a comment of some length /, 2]";

/// Texts by the forms of `docs/SUPPORTED.md`, and for what is made and for `Debug` by `docs/DECISIONS.md`; bytes by RFC 8949;
/// messages of refusals by the declarations of these.
pub(crate) const ANSWERS: &[Row] = &[
    (
        "Item::new_integer_decimal",
        Call::Item(ItemBy::Decimal(-10000000000000000000000000)),
        b"-10000000000000000000000000",
    ),
    (
        "Item::new_integer_hex",
        Call::Item(ItemBy::Hexadecimal(255)),
        b"0xff",
    ),
    (
        "Item::new_number",
        Call::Item(ItemBy::Number("1000000000000000000000000.5")),
        b"1000000000000000000000000.5",
    ),
    (
        "Item::new_bytes_hex",
        Call::Item(ItemBy::BytesHex(b"\0\x01\x02\x03\x04\x05\x06\x07\x08\x09\x0a\x0b")),
        b"h'000102030405060708090a0b'",
    ),
    (
        "Item::new_text",
        Call::Item(ItemBy::Text("a \"text\" of some length")),
        b"\"a \\\"text\\\" of some length\"",
    ),
    (
        "Item::new_application_literal",
        Call::Item(ItemBy::Literal("b64", "a'b and what follows it")),
        b"b64'a\\'b and what follows it'",
    ),
    (
        "Item::new_array",
        Call::Item(ItemBy::Array(&[1, 2, 3, 4, 5, 6])),
        b"[1,2,3,4,5,6]",
    ),
    (
        "Item::new_map",
        Call::Item(ItemBy::Map(&[(1, 2), (3, 4)])),
        b"{1:2,3:4}",
    ),
    ("Item::tagged", Call::Item(ItemBy::Tagged(2, 24)), b"24(2)"),
    (
        "StandaloneItem::tagged",
        Call::Item(ItemBy::StandaloneTagged(" 2 ", 1)),
        b"1( 2 )",
    ),
    (
        "Item::from_cbor",
        Call::Item(ItemBy::Decoded(b"[\0\0\0\0\0\0\0\x05hello")),
        b"h'68656c6c6f'_3",
    ),
    (
        "Item::from_cbor_within",
        Call::Item(ItemBy::DecodedWithin(b"\x9b\0\0\0\0\0\0\0\x01\x03", 1)),
        b"[_3 3]",
    ),
    (
        "Item::from_cbor_with_rest",
        Call::Item(ItemBy::Beginning(b"\x9f\x03\xff\x02\x03")),
        b"[_ 3]",
    ),
    (
        "Item::from_cbor_with_rest_within",
        Call::Item(ItemBy::BeginningWithin(b"C\x01\x9f\xff\x02\x03", 0)),
        b"h'019fff'",
    ),
    (
        "Item::clone",
        Call::Item(ItemBy::Copy("{4: 1(0), 8: {4: {3: -17}}}")),
        b"{4: 1(0), 8: {4: {3: -17}}}",
    ),
    (
        "Sequence::embedded",
        Call::Item(ItemBy::Embedded(" 1, [2] ")),
        b"<< 1, [2] >>_0",
    ),
    (
        "dt_item_to_aol",
        Call::Item(ItemBy::TimeLiteral("0.25")),
        b"dt'1970-01-01T00:00:00.250+00:00'",
    ),
    (
        "ip_item_to_aol",
        Call::Item(ItemBy::AddressLiteral("[h'c0000201', 1]")),
        b"52([ip'192.0.2.1', 1])",
    ),
    (
        "StandaloneItem::parse",
        Call::Standalone(StandaloneBy::Parsed(" {4: 1(0), 8: {4: {3: -17}}} # so far\n")),
        b" {4: 1(0), 8: {4: {3: -17}}} # so far\n",
    ),
    (
        "StandaloneItem::parse_within",
        Call::Standalone(StandaloneBy::ParsedWithin("{4: 1(0), 8: {4: {3: -17}}}", 3)),
        b"{4: 1(0), 8: {4: {3: -17}}}",
    ),
    (
        "StandaloneItem::parse_counted",
        Call::Standalone(StandaloneBy::ParsedCounted("[_ h'00', <<dt'1970-01-01T00:00:23Z'>>]")),
        b"[_ h'00', <<dt'1970-01-01T00:00:23Z'>>]",
    ),
    (
        "StandaloneItem::from_cbor",
        Call::Standalone(StandaloneBy::Decoded(b"\x9f\x03\xff")),
        b"[_ 3]",
    ),
    (
        "StandaloneItem::from_cbor_within",
        Call::Standalone(StandaloneBy::DecodedWithin(b"\x9b\0\0\0\0\0\0\0\x01\x03", 1)),
        b"[_3 3]",
    ),
    (
        "StandaloneItem::from_cbor_with_rest",
        Call::Standalone(StandaloneBy::Beginning(b"\x9f\x03\xff\x02\x03")),
        b"[_ 3]",
    ),
    (
        "StandaloneItem::from_cbor_with_rest_within",
        Call::Standalone(StandaloneBy::BeginningWithin(b"\x9f\x03\xff\x02\x03", 1)),
        b"[_ 3]",
    ),
    (
        "StandaloneItem::clone",
        Call::Standalone(StandaloneBy::Copy(" [_ h'00', <<dt'1970-01-01T00:00:23Z'>>] ")),
        b" [_ h'00', <<dt'1970-01-01T00:00:23Z'>>] ",
    ),
    (
        "StandaloneItem::with_comment",
        Call::Standalone(StandaloneBy::WithComment(" 0", "a comment of some length")),
        b"/ a comment of some length /0",
    ),
    (
        "Item::with_comment",
        Call::Standalone(StandaloneBy::ItemWithComment(0, "c")),
        b"/ c /0",
    ),
    (
        "Sequence::parse",
        Call::Sequence(SequenceBy::Parsed(PAIR)),
        b"{4: 1(0), 8: {4: {3: -17}}} , [_ h'00', <<dt'1970-01-01T00:00:23Z'>>]",
    ),
    (
        "Sequence::parse, each form",
        Call::Sequence(SequenceBy::Parsed(FORMS)),
        b"[1, 0x10000000000000000, {_ 3: []}, 'a' + <<\"b\">>, (_ h'63', b64'Zg'), 1(simple(32))]",
    ),
    (
        "Sequence::parse_within",
        Call::Sequence(SequenceBy::ParsedWithin(PAIR, 3)),
        b"{4: 1(0), 8: {4: {3: -17}}} , [_ h'00', <<dt'1970-01-01T00:00:23Z'>>]",
    ),
    (
        "Sequence::parse_counted",
        Call::Sequence(SequenceBy::ParsedCounted(PAIR)),
        b"{4: 1(0), 8: {4: {3: -17}}} , [_ h'00', <<dt'1970-01-01T00:00:23Z'>>]",
    ),
    (
        "Sequence::from_cbor",
        Call::Sequence(SequenceBy::Decoded(ENCODED)),
        b"[_ 3], [_3 3], h'68656c6c6f'_3, h'019fff'",
    ),
    (
        "Sequence::from_cbor, each form",
        Call::Sequence(SequenceBy::Decoded(b"\x9f\x01\xa1\x028\x03aa_Ab\xff\xc1\xf8 \xff")),
        b"[_ 1, {2: -4_0}, \"a\", (_ h'62'), 1(simple(32))]",
    ),
    (
        "Sequence::from_cbor_within",
        Call::Sequence(SequenceBy::DecodedWithin(MANY, 2)),
        b"[1, 2, 3, 4, 5, 6, {7: 8, 9: 10}, \"a comment of some length\"]",
    ),
    (
        "Sequence::clone",
        Call::Sequence(SequenceBy::Copy(PAIR)),
        b"{4: 1(0), 8: {4: {3: -17}}} , [_ h'00', <<dt'1970-01-01T00:00:23Z'>>]",
    ),
    (
        "Sequence::clone, each form",
        Call::Sequence(SequenceBy::Copy(FORMS)),
        b"[1, 0x10000000000000000, {_ 3: []}, 'a' + <<\"b\">>, (_ h'63', b64'Zg'), 1(simple(32))]",
    ),
    (
        "Sequence::clone, decoded",
        Call::Sequence(SequenceBy::CopyOfDecoded(MANY)),
        b"[1, 2, 3, 4, 5, 6, {7: 8, 9: 10}, \"a comment of some length\"]",
    ),
    (
        "Sequence::new",
        Call::Sequence(SequenceBy::Made(&[1, 2])),
        b"1,2",
    ),
    (
        "Item::to_cbor",
        Call::Bytes(BytesBy::OfItem(FORMS)),
        FORMS_ENCODED,
    ),
    (
        "StandaloneItem::to_cbor",
        Call::Bytes(BytesBy::OfStandalone(FORMS)),
        FORMS_ENCODED,
    ),
    (
        "Sequence::to_cbor",
        Call::Bytes(BytesBy::OfSequence(FORMS)),
        FORMS_ENCODED,
    ),
    (
        "Sequence::to_cbor, decoded",
        Call::Bytes(BytesBy::Recoded(ENCODED)),
        ENCODED,
    ),
    (
        "Item::serialize_laid_out",
        Call::LaidOut(LaidOutBy::Item(COMMENTED, LINES)),
        b"[\n 1/ a comment of some length /,\n 2\n]",
    ),
    (
        "StandaloneItem::serialize_laid_out",
        Call::LaidOut(LaidOutBy::Standalone(COMMENTED, DelimiterPolicy::SingleSpace)),
        b" [ 1 / a comment of some length /,2 ] ",
    ),
    (
        "Sequence::serialize_laid_out",
        Call::LaidOut(LaidOutBy::Sequence("1 / a comment of some length /, [2]", LINES)),
        b"1/ a comment of some length /,\n[\n 2\n]\n",
    ),
    (
        "Sequence::print",
        Call::Bytes(BytesBy::Printed("1 / a comment of some length /, [2]")),
        b"0,1 / a comment of some length /, [2]",
    ),
    (
        "Sequence::print_laid_out",
        Call::Bytes(BytesBy::PrintedLaidOut(
            "1 / a comment of some length /, [2]",
            DelimiterPolicy::DiscardAll,
        )),
        b"0,1,[2]",
    ),
    (
        "Item::get_bytes",
        Call::Bytes(BytesBy::Content("(_ 'a', h'62' + 'c')")),
        b"abc",
    ),
    (
        "Item::get_application_literal",
        Call::Bytes(BytesBy::Literal("b64'a\\'b'_0")),
        b"b64 a'b",
    ),
    ("Debug", Call::Debug, b"{..} {..} 1.50, [..], h'00'"),
    (
        "Sequence::parse, refused",
        Call::Refused(RefusedBy::Parse("1\n,,")),
        b"Invalid EDN in line 2 column 2 (byte 3)",
    ),
    (
        "StandaloneItem::parse, refused",
        Call::Refused(RefusedBy::ParseStandalone("[,]")),
        b"Invalid EDN in line 1 column 2 (byte 1)",
    ),
    (
        "Sequence::from_cbor, refused",
        Call::Refused(RefusedBy::FromCbor(b"\x9f")),
        b"Expected item, out of data",
    ),
    (
        "Item::from_cbor, refused",
        Call::Refused(RefusedBy::ItemFromCbor(b"\x01\x02")),
        b"Data after item",
    ),
    (
        "Sequence::to_cbor, refused",
        Call::Refused(RefusedBy::ToCbor("[1, 1.0]")),
        b"Number has no encoding",
    ),
    (
        "Item::get_bytes, refused",
        Call::Refused(RefusedBy::Content("[1]")),
        b"Expected byte literal",
    ),
    (
        "Item::get_application_literal, refused",
        Call::Refused(RefusedBy::Literal("'x'")),
        b"Expected application-oriented literal",
    ),
    (
        "Item::new_application_literal, refused",
        Call::Refused(RefusedBy::Prefix("Ab")),
        b"Identifier is not a valid application string identifier",
    ),
];
