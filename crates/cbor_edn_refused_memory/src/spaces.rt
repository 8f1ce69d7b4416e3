//! Spaces, comments and encoding indicators, with the texts that calls may leave.
use crate::change::{Change, Kind, OfItem, OfSequence, OfStandalone};
use crate::trees::Row;
use cbor_edn_parts::space::policy::DelimiterPolicy;

/// A claims set and a list.
pub(crate) const PAIR: &str =
    "{4: 1(0), 8: {4: {3: -17}}} , [_ h'00', <<dt'1970-01-01T00:00:23Z'>>]";

/// Its spaces are longer than what stands in a leaf itself.
const NOTED: &str =
    "[_ / a comment of some length / 1 # to the end of this line\n, 'a' / in front of a plus sign / + 'b', {2: / in front of the value / 3}, (_ / in front of the chunk / 'c'), 4(5 / in front of the parenthesis /)]";

/// Delimiter policies: the texts by their table, `specs/Spacing.antt` of `cbor_edn_parts`, and by `docs/DECISIONS.md`.
pub(crate) const SPACES: &[Row] = &[
    (
        "Sequence::set_delimiters, discard all",
        Change::Delimit(Kind::Sequence, DelimiterPolicy::DiscardAll),
        &[
            PAIR,
            "{4:1(0),8:{4:{3:-17}}},[_ h'00',<<dt'1970-01-01T00:00:23Z'>>]",
        ],
    ),
    (
        "Sequence::set_delimiters, discard all but comments",
        Change::Delimit(Kind::Sequence, DelimiterPolicy::DiscardAllButComments),
        &[
            PAIR,
            "{4:1(0),8:{4:{3:-17}}},[_ h'00',<<dt'1970-01-01T00:00:23Z'>>]",
        ],
    ),
    (
        "Sequence::set_delimiters, single line",
        Change::Delimit(Kind::Sequence, DelimiterPolicy::SingleLineRegularSpacing),
        &[
            PAIR,
            "{4: 1(0), 8: {4: {3: -17}}}, [_ h'00', <<dt'1970-01-01T00:00:23Z'>>]",
        ],
    ),
    (
        "Sequence::set_delimiters, indented",
        Change::Delimit(
            Kind::Sequence,
            DelimiterPolicy::IndentedRegularSpacing {
                base_indent: 0,
                indent_level: 4,
                max_width: 80,
            },
        ),
        &[
            PAIR,
            "{4: 1(0), 8: {4: {3: -17}}},\n[_ h'00', <<dt'1970-01-01T00:00:23Z'>>]\n",
        ],
    ),
    (
        "Sequence::set_delimiters, lines",
        Change::Delimit(
            Kind::Sequence,
            DelimiterPolicy::IndentedRegularSpacing {
                base_indent: 0,
                indent_level: 4,
                max_width: 0,
            },
        ),
        &[
            PAIR,
            "{\n    4:1(0),\n    8:{\n        4:{\n            3:-17\n        }\n    }\n},\n[_ \n    h'00',\n    <<dt'1970-01-01T00:00:23Z'>>\n]\n",
        ],
    ),
    (
        "Sequence::set_delimiters, single space",
        Change::Delimit(Kind::Sequence, DelimiterPolicy::SingleSpace),
        &[
            PAIR,
            " { 4 : 1( 0 ) ,8 : { 4 : { 3 : -17 } } } ,[_  h'00' ,<<dt'1970-01-01T00:00:23Z'>> ] ",
        ],
    ),
    (
        "Sequence::set_delimiters, single space and a comment",
        Change::Delimit(Kind::Sequence, DelimiterPolicy::SingleSpace),
        &[
            "1 / a comment of some length /, [2]",
            " 1 / a comment of some length /,[ 2 ] ",
        ],
    ),
    (
        "Sequence::set_delimiters, lines and a comment",
        Change::Delimit(
            Kind::Sequence,
            DelimiterPolicy::IndentedRegularSpacing {
                base_indent: 0,
                indent_level: 1,
                max_width: 0,
            },
        ),
        &[
            "1 / a comment of some length /, [2]",
            "1/ a comment of some length /,\n[\n 2\n]\n",
        ],
    ),
    (
        "Sequence::set_delimiters, long lines",
        Change::Delimit(
            Kind::Sequence,
            DelimiterPolicy::IndentedRegularSpacing {
                base_indent: 65,
                indent_level: 0,
                max_width: 0,
            },
        ),
        &[
            "1, 2",
            "1,\n                                                                 2\n                                                                 ",
        ],
    ),
    (
        "StandaloneItem::set_delimiters, discard all",
        Change::Delimit(Kind::Standalone, DelimiterPolicy::DiscardAll),
        &[NOTED, "[_ 1,'a'+'b',{2:3},(_ 'c'),4(5)]"],
    ),
    (
        "StandaloneItem::set_delimiters, discard all but comments",
        Change::Delimit(Kind::Standalone, DelimiterPolicy::DiscardAllButComments),
        &[
            NOTED,
            "[_/ a comment of some length /1# to the end of this line\n,'a'/ in front of a plus sign /+'b',{2:/ in front of the value /3},(_/ in front of the chunk /'c'),4(5/ in front of the parenthesis /)]",
        ],
    ),
    (
        "StandaloneItem::set_delimiters, single line",
        Change::Delimit(Kind::Standalone, DelimiterPolicy::SingleLineRegularSpacing),
        &[
            NOTED,
            "[_/ a comment of some length /1# to the end of this line\n, 'a' / in front of a plus sign /+ 'b', {2: / in front of the value /3}, (_/ in front of the chunk /'c'), 4(5/ in front of the parenthesis /)]",
        ],
    ),
    (
        "StandaloneItem::set_delimiters, lines",
        Change::Delimit(
            Kind::Standalone,
            DelimiterPolicy::IndentedRegularSpacing {
                base_indent: 1,
                indent_level: 2,
                max_width: 9,
            },
        ),
        &[
            NOTED,
            "[_/ a comment of some length /\n   1# to the end of this line\n,\n   'a'\n     / in front of a plus sign /+'b',\n   {\n     2:/ in front of the value /3\n   },\n   (_\n     / in front of the chunk /'c'\n   ),\n   4(5/ in front of the parenthesis /)\n ]",
        ],
    ),
    (
        "StandaloneItem::set_delimiters, single space",
        Change::Delimit(Kind::Standalone, DelimiterPolicy::SingleSpace),
        &[
            NOTED,
            " [_ / a comment of some length / 1 # to the end of this line\n,'a' / in front of a plus sign /+ 'b' ,{ 2 : / in front of the value /3 } ,(_ / in front of the chunk /'c' ) ,4( 5 / in front of the parenthesis /) ] ",
        ],
    ),
    (
        "Item::set_delimiters, discard all",
        Change::Delimit(Kind::Item, DelimiterPolicy::DiscardAll),
        &["[1 / a comment of some length /, 2]", "[1,2]"],
    ),
    (
        "Item::set_delimiters, discard all but comments",
        Change::Delimit(Kind::Item, DelimiterPolicy::DiscardAllButComments),
        &[
            "[1 / a comment of some length /, 2]",
            "[1/ a comment of some length /,2]",
        ],
    ),
    (
        "Item::set_delimiters, single line",
        Change::Delimit(Kind::Item, DelimiterPolicy::SingleLineRegularSpacing),
        &[
            "[1 / a comment of some length /, 2]",
            "[1/ a comment of some length /, 2]",
        ],
    ),
    (
        "Item::set_delimiters, lines",
        Change::Delimit(
            Kind::Item,
            DelimiterPolicy::IndentedRegularSpacing {
                base_indent: 0,
                indent_level: 1,
                max_width: 0,
            },
        ),
        &[
            "[1 / a comment of some length /, 2]",
            "[\n 1/ a comment of some length /,\n 2\n]",
        ],
    ),
    (
        "Item::set_delimiters, single space",
        Change::Delimit(Kind::Item, DelimiterPolicy::SingleSpace),
        &[
            "[1 / a comment of some length /, 2]",
            "[ 1 / a comment of some length /,2 ]",
        ],
    ),
];

/// Comments, tags and encoding indicators, by the words of the calls and by `docs/DECISIONS.md`.
pub(crate) const COMMENTS_AND_INDICATORS: &[Row] = &[
    (
        "StandaloneItem::set_comment",
        Change::Standalone(OfStandalone::SetComment("a/b")),
        &["0", "# a/b\n0"],
    ),
    (
        "StandaloneItem::set_comment, long",
        Change::Standalone(OfStandalone::SetComment("a comment of some length")),
        &[
            "{4: 1(0), 8: {4: {3: -17}}}",
            "/ a comment of some length /{4: 1(0), 8: {4: {3: -17}}}",
        ],
    ),
    (
        "StandaloneItem::set_comment, long and with a slash",
        Change::Standalone(OfStandalone::SetComment("a comment and/or a line\nof it")),
        &[
            "[_ h'00', <<dt'1970-01-01T00:00:23Z'>>]",
            "# a comment and/or a line\n# of it\n[_ h'00', <<dt'1970-01-01T00:00:23Z'>>]",
        ],
    ),
    (
        "Item::put_into_tag",
        Change::Item(OfItem::PutIntoTag(24)),
        &["[1]", "24([1])"],
    ),
    (
        "Sequence::discard_encoding_indicators",
        Change::Sequence(OfSequence::DiscardIndicators),
        &[
            PAIR,
            "{4: 1(0), 8: {4: {3: -17}}} , [h'00', <<dt'1970-01-01T00:00:23Z'>>]",
        ],
    ),
    (
        "Sequence::discard_encoding_indicators, spaces behind them",
        Change::Sequence(OfSequence::IndentAndDiscardIndicators),
        &[
            "[_ / a comment of some length / 1_1, {_2 / another one, not any shorter / 2: 3}]",
            "[_/ a comment of some length /\n 1,\n {_2/ another one, not any shorter /\n  2:3\n }\n]\n",
            "[_/ a comment of some length /\n 1,\n {/ another one, not any shorter /\n  2:3\n }\n]\n",
            "[/ a comment of some length /\n 1,\n {/ another one, not any shorter /\n  2:3\n }\n]\n",
        ],
    ),
    (
        "Item::discard_encoding_indicators",
        Change::Item(OfItem::DiscardIndicators),
        &["24_1(<<1_1>>_0)", "24(<<1_1>>)"],
    ),
    (
        "Item::discard_encoding_indicators, spaces behind them",
        Change::Item(OfItem::IndentAndDiscardIndicators),
        &[
            "[_ / a comment of some length / 1_1, {_2 / another one, not any shorter / 2: 3}]",
            "[_/ a comment of some length /\n 1,\n {_2/ another one, not any shorter /\n  2:3\n }\n]",
            "[_/ a comment of some length /\n 1,\n {/ another one, not any shorter /\n  2:3\n }\n]",
            "[/ a comment of some length /\n 1,\n {/ another one, not any shorter /\n  2:3\n }\n]",
        ],
    ),
];
