//! Texts that are no EDN, the offsets at which a reader refuses them, and what is told, written by hand.
use crate::shown::{fixed, told};
use cbor_edn_expect::failures::Failures;
use std::test::Fail;

const ROWS: &[(&str, usize, &str)] = &[
    // brackets
    ("[1, 2", 5, "0..1 `[` is never closed"),
    ("{\"a\": 1", 7, "0..1 `{` is never closed"),
    ("1(2", 3, "0..2 `(` is never closed"),
    ("<<1", 3, "0..2 `<<` is never closed"),
    ("(_ \"a\"", 6, "0..2 `(_` is never closed"),
    ("[[1, 2], [3, 4]", 15, "0..1 `[` is never closed"),
    (
        "{\"a\": [1, 2}",
        11,
        "11..12 `[` is not closed before `}`; 6 `[` is open; 0 `{` is the one to be closed",
    ),
    ("[1, 2}", 5, "5..6 `}` does not close `[`; 0 `[` is open"),
    ("[1, 2)", 5, "5..6 `)` does not close `[`; 0 `[` is open"),
    ("1]", 1, "1..2 `]` closes nothing"),
    ("[1]]", 3, "3..4 `]` closes nothing"),
    (")", 0, "0..1 `)` closes nothing"),
    ("<<1>", 4, "3..4 expected `>>`, found `>`; 0 `<<` is open"),
    (
        "<1>",
        1,
        "0..1 expected `<<`, found `<`; hint: `<<..>>` holds the encodings of items",
    ),
    ("1 > 2", 2, "2..3 expected an item, found `>`"),
    (
        "[\n  1,\n  [2, 3,\n  4\n]\n",
        22,
        "0..1 `[` is never closed; 9 `[` is closed in line 5, which is indented less",
    ),
    // lists and maps
    (
        "[1,,2]",
        3,
        "3..4 expected an item or `]`, found `,`; 0 `[` is open; hint: write one comma, or `null` for nothing",
    ),
    (
        "[,1]",
        1,
        "1..2 expected an item or `]`, found `,`; 0 `[` is open; hint: no comma before the first",
    ),
    (
        ",1",
        0,
        "0..1 expected an item, found `,`; hint: no comma before the first",
    ),
    (
        "[\"a\": 1]",
        4,
        "4..5 expected `,` or `]`, found `:`; 0 `[` is open; hint: pairs stand in a map: `{..}`",
    ),
    (
        "\"a\": 1",
        3,
        "3..4 expected `,` or a space, found `:`; hint: pairs stand in a map: `{..}`",
    ),
    (
        "{1}",
        2,
        "2..3 expected `:`, found `}`; 1 the key; hint: a map holds pairs `key: value`, `[..]` holds items",
    ),
    (
        "{\"a\", 1}",
        4,
        "4..5 expected `:`, found `,`; 1 the key; hint: a map holds pairs `key: value`, `[..]` holds items",
    ),
    ("{\"a\" 1}", 5, "5..6 expected `:`, found `1`; 1 the key"),
    (
        "{\"a\": }",
        6,
        "6..7 expected a value, found `}`; 1 the key",
    ),
    (
        "{\"a\": 1: 2}",
        7,
        "7..8 expected `,` or `}`, found `:`; 0 `{` is open; hint: `,` or a space stands between pairs",
    ),
    (
        "{\"a\" = 1}",
        5,
        "5..6 expected `:`, found `=`; 1 the key; hint: EDN writes `:`",
    ),
    (
        "{\"a\" => 1}",
        5,
        "5..7 expected `:`, found `=>`; 1 the key; hint: EDN writes `:`",
    ),
    (
        "{: 1}",
        1,
        "1..2 expected a key or `}`, found `:`; 0 `{` is open",
    ),
    (
        "{\"a\": 1, , \"b\": 2}",
        9,
        "9..10 expected a key or `}`, found `,`; 0 `{` is open; hint: write one comma, or `null` for nothing",
    ),
    (
        "[1; 2]",
        2,
        "2..3 expected `,` or `]`, found `;`; 0 `[` is open; hint: a comment is `# ..` to the end of the line, or `/ .. /`",
    ),
    ("[[1][2]]", 4, "4..5 expected `,` or a space before `[`"),
    (
        "[\"a\"\"b\"]",
        4,
        "4..7 expected `,` or a space before `\"b\"`; hint: a quote in a text is `\\\"`",
    ),
    (
        "[1 | 2]",
        3,
        "3..4 expected `,` or `]`, found `|`; 0 `[` is open",
    ),
    (
        "{[1]: 2,\n \"b\"\n}",
        14,
        "14..15 expected `:`, found `}`; 10 the key; hint: a map holds pairs `key: value`, `[..]` holds items",
    ),
    // keys and words
    (
        "{key: 1}",
        4,
        "1..4 unknown word `key`; hint: keys are quoted: `\"key\"`",
    ),
    (
        "{'key': 1, other: 2}",
        16,
        "11..16 unknown word `other`; hint: keys are quoted: `\"other\"`",
    ),
    (
        "[nil]",
        4,
        "1..4 unknown word `nil`; hint: EDN writes `null`",
    ),
    (
        "[True, False]",
        2,
        "1..5 unknown word `True`; hint: EDN writes `true`",
    ),
    (
        "[NULL]",
        5,
        "1..5 unknown word `NULL`; hint: EDN writes `null`",
    ),
    (
        "[None]",
        2,
        "1..5 unknown word `None`; hint: EDN writes `null`",
    ),
    (
        "[undef]",
        6,
        "1..6 unknown word `undef`; hint: EDN writes `undefined`",
    ),
    (
        "[yes]",
        4,
        "1..4 unknown word `yes`; hint: EDN writes `true`",
    ),
    (
        "[inf]",
        4,
        "1..4 unknown word `inf`; hint: EDN writes `Infinity`",
    ),
    (
        "[-inf]",
        2,
        "1..5 unknown word `-inf`; hint: EDN writes `-Infinity`",
    ),
    (
        "[+Infinity]",
        2,
        "1..10 unknown word `+Infinity`; hint: EDN writes `Infinity`",
    ),
    (
        "[nan]",
        4,
        "1..4 unknown word `nan`; hint: EDN writes `NaN`",
    ),
    (
        "[INFINITY]",
        9,
        "1..9 unknown word `INFINITY`; hint: EDN writes `Infinity`",
    ),
    (
        "[hello]",
        6,
        "1..6 unknown word `hello`; hint: texts are quoted: `\"hello\"`",
    ),
    (
        "[hello world]",
        6,
        "1..6 unknown word `hello`; hint: texts are quoted: `\"hello\"`",
    ),
    (
        "{content-type: 60}",
        8,
        "1..13 unknown word `content-type`; hint: keys are quoted: `\"content-type\"`",
    ),
    (
        "{key\": 1}",
        4,
        "1..4 unknown word `key`; hint: is a `\"` missing in front of it?",
    ),
    (
        "{\"a\": abc\"}",
        9,
        "6..9 unknown word `abc`; hint: is a `\"` missing in front of it?",
    ),
    (
        "[tru]",
        4,
        "1..4 unknown word `tru`; hint: EDN writes `true`",
    ),
    (
        "[flase]",
        6,
        "1..6 unknown word `flase`; hint: EDN writes `false`",
    ),
    ("true_1", 4, "4..6 `true` takes no indicator"),
    (
        "simple",
        6,
        "6..6 expected `(` behind `simple`, found the end of the text; hint: write `simple(32)`",
    ),
    (
        "simple (4)",
        6,
        "6..7 expected `(` behind `simple`, found a space; hint: no space before `(`",
    ),
    (
        "simple[4]",
        6,
        "6..7 expected `(` behind `simple`, found `[`; hint: write `simple(32)`",
    ),
    (
        "tag(1)",
        3,
        "0..3 unknown word `tag`; hint: a tag is a number: `1(..)`",
    ),
    (
        "[gr\u{f6}\u{df}e]",
        3,
        "1..8 unknown word `gr\u{f6}\u{df}e`; hint: texts are quoted: `\"gr\u{f6}\u{df}e\"`",
    ),
    // numbers
    (
        "0x",
        2,
        "2..2 expected a hexadecimal digit behind `0x`, found the end of the text",
    ),
    (
        "0xfg",
        3,
        "3..4 `g` is no hexadecimal digit; 0 in a number that begins here",
    ),
    (
        "0b12",
        3,
        "3..4 `2` is no binary digit; 0 in a number that begins here",
    ),
    (
        "0o8",
        2,
        "2..3 `8` is no octal digit; 0 in a number that begins here",
    ),
    ("1_000", 3, "1..5 `_` does not group digits"),
    (
        "1__2",
        2,
        "1..4 unknown indicator `__2`; hint: indicators are `_`, `_i`, `_0`, `_1`, `_2` and `_3`",
    ),
    (
        "1_4",
        2,
        "1..3 unknown indicator `_4`; hint: indicators are `_`, `_i`, `_0`, `_1`, `_2` and `_3`",
    ),
    (
        "[_11]",
        3,
        "3..4 expected a space behind `_1`, found `1`; 0 `[` is open",
    ),
    (
        "[_x 1]",
        2,
        "1..3 unknown indicator `_x`; hint: indicators are `_`, `_i`, `_0`, `_1`, `_2` and `_3`",
    ),
    (
        "1e",
        2,
        "2..2 expected a digit of the exponent, found the end of the text; 0 of the number that begins here",
    ),
    (
        "1.5e+",
        5,
        "5..5 expected a digit of the exponent, found the end of the text; 0 of the number that begins here",
    ),
    (
        "- 1",
        1,
        "1..2 expected a digit behind `-`, found a space; hint: no space behind the sign",
    ),
    (
        "--1",
        1,
        "1..2 expected a digit behind `-`, found `-`; hint: a comment is `# ..` to the end of the line, or `/ .. /`",
    ),
    (
        "+",
        1,
        "1..1 expected a digit behind `+`, found the end of the text",
    ),
    (
        ".",
        1,
        "1..1 expected a digit behind `.`, found the end of the text; hint: `...` stands for what is left out",
    ),
    ("..", 2, "0..2 expected three dots, found two"),
    (
        "1..2",
        2,
        "2..4 number `1.` runs into `.2`; hint: texts are quoted",
    ),
    (
        "1.2.3",
        3,
        "3..5 number `1.2` runs into `.3`; hint: texts are quoted",
    ),
    (
        "12abc",
        2,
        "2..5 number `12` runs into `abc`; hint: texts are quoted",
    ),
    ("5%", 1, "1..2 expected `,` or a space, found `%`"),
    (
        "2024-01-01",
        4,
        "4..10 number `2024` runs into `-01-01`; hint: write a time as `dt'..'`, or a text in quotes",
    ),
    (
        "192.168.1.1",
        7,
        "7..11 number `192.168` runs into `.1.1`; hint: write an address as `ip'..'`",
    ),
    (
        "0x1.8",
        5,
        "5..5 expected an exponent `p0` behind `0x1.8`, found the end of the text",
    ),
    ("1_0_1", 3, "1..5 `_` does not group digits"),
    (
        "1/2",
        3,
        "1..2 comment is never closed; hint: it ends at the next `/`",
    ),
    // tags
    ("01(2)", 0, "0..2 a tag's number has no leading zero"),
    ("-1(2)", 0, "0..2 a tag's number has no sign"),
    ("0x1(2)", 0, "0..3 a tag's number is decimal"),
    ("1.0(2)", 0, "0..3 a tag's number is decimal"),
    (
        "18446744073709551616(2)",
        0,
        "0..20 a tag's number is below 2^64",
    ),
    (
        "1 (2)",
        3,
        "3..4 expected `_` behind `(`, found `2`; hint: no space before `(`",
    ),
    ("1()", 2, "2..3 expected an item, found `)`; 0 `(` is open"),
    ("1(2, 3)", 3, "3..4 expected `)`, found `,`; 0 `(` is open"),
    ("1(2)(3)", 4, "4..5 expected `,` or a space before `(`"),
    (
        "(1)",
        1,
        "1..2 expected `_` behind `(`, found `1`; hint: `(_ ..)` holds the chunks of a string, `1(..)` is a tag",
    ),
    // strings
    ("\"abc", 4, "0..1 string is never closed"),
    ("'abc", 4, "0..1 string is never closed"),
    ("\"a\nb", 4, "0..1 string is never closed"),
    (
        "{\"a: 1,\n \"b\": 2}",
        10,
        "10..11 expected `:`, found `b`; 1 the string that begins here ends in line 2",
    ),
    ("\"a\tb\"", 2, "2..3 a tab in a string; hint: write `\\t`"),
    (
        "\"a\x00b\"",
        2,
        "2..3 control character U+0000 in a string; hint: write its number: `\\u{0}`",
    ),
    (
        "\"\\x41\"",
        2,
        "1..5 unknown escape `\\x41`; hint: write its number: `\\u{0}`",
    ),
    (
        "\"\\q\"",
        2,
        "1..3 unknown escape `\\q`; hint: a backslash is `\\\\`",
    ),
    (
        "\"C:\\dir\"",
        4,
        "3..5 unknown escape `\\d`; hint: a backslash is `\\\\`",
    ),
    (
        "\"\\0\"",
        2,
        "1..3 unknown escape `\\0`; hint: write its number: `\\u{0}`",
    ),
    (
        "\"\\u12\"",
        5,
        "1..5 `\\u` needs four hexadecimal digits; hint: or braces: `\\u{41}`",
    ),
    ("\"\\u{}\"", 4, "1..5 `\\u{}` needs a hexadecimal digit"),
    (
        "\"\\u{110000}\"",
        10,
        "1..11 `\\u{110000}` is past U+10FFFF",
    ),
    (
        "\"\\ud83d\"",
        7,
        "1..7 high surrogate `\\ud83d` without a low one; hint: write `\\u{1F600}`, or a pair `\\ud83d\\ude00`",
    ),
    (
        "\"\\ud83d\\u0041\"",
        12,
        "1..7 high surrogate `\\ud83d` without a low one; hint: write `\\u{1F600}`, or a pair `\\ud83d\\ude00`",
    ),
    (
        "\"\\udc00\"",
        6,
        "1..7 low surrogate `\\udc00` without a high one",
    ),
    (
        "\"a\\\nb\"",
        3,
        "2..3 `\\` before a line end; hint: a string goes on in the next line by itself",
    ),
    (
        "\"a\"b\"",
        3,
        "3..4 expected `,` or a space before `b`; hint: a quote in a text is `\\\"`",
    ),
    (
        "'it's'",
        4,
        "4..6 expected `,` or a space before `s'`; hint: a quote in a text is `\\'`",
    ),
    (
        "`a`",
        0,
        "0..3 expected an item, found ``a``; hint: strings are `\"..\"` or `'..'`",
    ),
    (
        "h\"00\"",
        1,
        "1..2 `h` takes single quotes; hint: write `'..'` behind a prefix",
    ),
    (
        "h`00`",
        1,
        "1..2 `h` takes single quotes; hint: write `'..'` behind a prefix",
    ),
    (
        "Ab'x'",
        1,
        "0..2 prefix `Ab` mixes capitals and small letters; hint: a prefix has letters of one case",
    ),
    ("\"a\" + 1", 6, "6..7 expected a string, found `1`"),
    (
        "\"a\"+2",
        3,
        "4..5 expected a string behind `+`, found `2`; hint: a space in front of `+` makes it the sign of a number",
    ),
    (
        "1 + \"a\"",
        3,
        "3..4 expected a digit behind `+`, found a space; hint: `+` joins strings",
    ),
    (
        "\"a\" . \"b\"",
        5,
        "5..6 expected a digit behind `.`, found a space; hint: `+` joins strings",
    ),
    (
        "\"a\"_x",
        4,
        "3..5 unknown indicator `_x`; hint: indicators are `_`, `_i`, `_0`, `_1`, `_2` and `_3`",
    ),
    (
        "(_ 1)",
        3,
        "3..4 expected a string, found `1`; 0 `(_` is open",
    ),
    (
        "(_ \"a\", 1)",
        8,
        "8..9 expected a string or `)`, found `1`; 0 `(_` is open",
    ),
    (
        "(_\"a\")",
        2,
        "2..5 expected a space behind `(_`, found `\"a\"`; 0 `(_` is open",
    ),
    (
        "(_)",
        2,
        "2..3 expected a space behind `(_`, found `)`; 0 `(_` is open",
    ),
    (
        "(_1 \"a\")",
        2,
        "2..3 expected a space behind `(_`, found `1`; 0 `(_` is open",
    ),
    // comments
    (
        "1 / c",
        5,
        "2..3 comment is never closed; hint: it ends at the next `/`",
    ),
    (
        "1 # c",
        5,
        "5..5 expected a line feed, found the end of the text; 2 the comment begins here",
    ),
    (
        "1 // c",
        6,
        "5..6 unknown word `c`; hint: `//` is an empty comment: write `# ..`",
    ),
    (
        "[1, // one\n 2]",
        10,
        "7..10 unknown word `one`; hint: `//` is an empty comment: write `# ..`",
    ),
    (
        "1 ; c",
        2,
        "2..3 expected an item, found `;`; hint: a comment is `# ..` to the end of the line, or `/ .. /`",
    ),
    (
        "1 -- c",
        3,
        "3..4 expected a digit behind `-`, found `-`; hint: a comment is `# ..` to the end of the line, or `/ .. /`",
    ),
    (
        "1 /* a / b */",
        10,
        "9..10 unknown word `b`; hint: texts are quoted: `\"b\"`",
    ),
    (
        "1 /a\x01b/",
        4,
        "4..5 control character U+0001 in a comment",
    ),
    (
        "1 # a\x01\n",
        5,
        "5..6 control character U+0001 in a comment",
    ),
    (
        "<!-- c -->",
        1,
        "0..1 expected `<<`, found `<`; hint: `<<..>>` holds the encodings of items",
    ),
    // characters
    (
        "\u{feff}1",
        0,
        "0..3 a byte order mark (U+FEFF) between tokens; hint: save the file without it",
    ),
    (
        "[1,\u{a0}2]",
        3,
        "3..5 a no-break space (U+00A0) between tokens; hint: write a space",
    ),
    (
        "\u{201c}a\u{201d}",
        0,
        "0..3 a curly quote `\u{201c}` between tokens; hint: write `\"`",
    ),
    (
        "\u{2018}a\u{2019}",
        0,
        "0..3 a curly quote `\u{2018}` between tokens; hint: write `'`",
    ),
    (
        "[1\u{ff0c}2]",
        2,
        "2..5 a full-width comma `\u{ff0c}` between tokens; hint: write `,`",
    ),
    (
        "\u{2212}1",
        0,
        "0..3 a minus sign `\u{2212}` between tokens; hint: write `-`",
    ),
    (
        "[1\u{200b}]",
        2,
        "2..5 a zero-width space (U+200B) between tokens; hint: remove it",
    ),
    ("\x00", 0, "0..1 control character U+0000 between tokens"),
    ("\\", 0, "0..1 expected an item, found `\\`"),
    ("@", 0, "0..1 expected an item, found `@`"),
    (
        "1\x1b[31m",
        1,
        "1..2 control character U+001B between tokens",
    ),
];

#[test]
fn rows(rt: HostRuntime) -> Result<(), Fail> {
    let alloc = rt.alloc();
    let mut failures = Failures::new(alloc);
    for (text, offset, wanted) in ROWS {
        failures.told(alloc, text, told(alloc, text, *offset), wanted)?;
    }
    failures.end()
}

/// The texts with what is to be written there.
const FIXES: &[(&str, usize, Option<&str>)] = &[
    ("[1, 2", 5, Some("[1, 2]")),
    ("{\"a\": [1, 2}", 11, Some("{\"a\": [1, 2]}")),
    ("1]", 1, Some("1")),
    ("[1,,2]", 3, Some("[1,2]")),
    ("{\"a\" = 1}", 5, Some("{\"a\" : 1}")),
    ("[[1][2]]", 4, Some("[[1] [2]]")),
    ("{key: 1}", 4, Some("{\"key\": 1}")),
    ("[nil]", 4, Some("[null]")),
    ("[-inf]", 2, Some("[-Infinity]")),
    ("{key\": 1}", 4, Some("{\"key\": 1}")),
    ("true_1", 4, Some("true")),
    ("[_11]", 3, Some("[_1 1]")),
    ("..", 2, Some("...")),
    ("\"a\tb\"", 2, Some("\"a\\tb\"")),
    ("1 # c", 5, Some("1 # c\n")),
    ("1 // c", 6, Some("1 # c")),
    ("<1>", 1, None),
    ("<<1>", 4, Some("<<1>>")),
    ("\u{feff}1", 0, Some("1")),
    ("[1,\u{a0}2]", 3, Some("[1, 2]")),
    ("\u{2212}1", 0, Some("-1")),
    ("[1 | 2]", 3, None),
    ("\"\\q\"", 2, None),
];

#[test]
fn fixes(rt: HostRuntime) -> Result<(), Fail> {
    let alloc = rt.alloc();
    let mut failures = Failures::new(alloc);
    for (text, offset, wanted) in FIXES {
        let fixed = fixed(alloc, text, *offset)?;
        let holds = match (&fixed, wanted) {
            (Some(fixed), Some(wanted)) => fixed.as_str() == *wanted,
            (None, None) => true,
            _ => false,
        };
        failures.holds(alloc, text, holds)?;
    }
    failures.end()
}
