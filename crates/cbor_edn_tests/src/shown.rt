//! What `show` and `fmt` write of an input.
use cbor_edn::engine::{Command, Options, RunError, converted};
use cbor_edn::file_options::{CheckOptions, FormatOptions, ShowOptions};
use cbor_edn::format::formatted;
use cbor_edn::show::{behind_name, shown};
use cbor_edn::{CborError, NESTING_LIMIT};
use cbor_edn_expect::failures::Failures;
use std::alloc::Global;
use std::test::Fail;

const SHOW: ShowOptions = ShowOptions {
    hex: true,
    levels: 8,
    names: false,
    bignum_from_tags: true,
    annotate_ccs: false,
    limit: NESTING_LIMIT,
};

const CLAIMS: ShowOptions = ShowOptions {
    annotate_ccs: true,
    ..SHOW
};

const WITH_NAMES: ShowOptions = ShowOptions {
    names: true,
    ..SHOW
};

/// Digits of CBOR, how they are shown, and the text: by RFC 8949, RFC 9052, RFC 9053, RFC 8392 and `docs/SUPPORTED.md`.
const ROWS: &[(&str, ShowOptions, &str)] = &[
    ("", SHOW, ""),
    ("83 01 18 1f 80", SHOW, "[1, 31, []]\n"),
    (
        "d28443a10126a0404100",
        SHOW,
        "18([<<{1: -7}>>, {}, h'', h'00'])\n",
    ),
    // what a payload holds is found by the other steps: a time, an address, a bignum
    ("43c1182a", SHOW, "<<DT'1970-01-01T00:00:42+00:00'>>\n"),
    ("47d83444c0000201", SHOW, "<<IP'192.0.2.1'>>\n"),
    (
        "4bc249010000000000000000",
        SHOW,
        "<<18446744073709551616>>\n",
    ),
    (
        "4bc249010000000000000000",
        ShowOptions {
            bignum_from_tags: false,
            ..SHOW
        },
        "<<2(h'010000000000000000')>>\n",
    ),
    (
        "458143814107",
        ShowOptions { levels: 1, ..SHOW },
        "<<[h'814107']>>\n",
    ),
    (
        "458143814107",
        ShowOptions { levels: 0, ..SHOW },
        "h'8143814107'\n",
    ),
    (
        "458143814107",
        ShowOptions { limit: 3, ..SHOW },
        "<<[h'814107']>>\n",
    ),
    (
        "a1041a6553f100",
        CLAIMS,
        "{4/ exp /: dt'2023-11-14T22:13:20+00:00'}\n",
    ),
    // claims in a message, also in the tag of CWT, and a key in them; none in a payload that is not shown, and none in what is encrypted
    (
        "d28443a10126a047a1041a6553f1004100",
        CLAIMS,
        "18([<<{1: -7}>>, {}, <<{4/ exp /: dt'2023-11-14T22:13:20+00:00'}>>, h'00'])\n",
    ),
    (
        "d83dd28440a047a1041a6553f10040",
        CLAIMS,
        "61(18([h'', {}, <<{4/ exp /: dt'2023-11-14T22:13:20+00:00'}>>, h'']))\n",
    ),
    (
        "a108a101a201022001",
        CLAIMS,
        "{8/ cnf /: {1/ COSE_Key /: {1/ kty /: 2/ EC2 /, -1/ crv /: 1/ P-256 /}}}\n",
    ),
    (
        "d28440a043a1040040",
        ShowOptions {
            levels: 0,
            ..CLAIMS
        },
        "18([h'', {}, h'a10400', h''])\n",
    ),
    ("d08340a043a10400", CLAIMS, "16([h'', {}, <<{4: 0}>>])\n"),
    // names of a message, of its parts, parameters and algorithm
    (
        "d28443a10126a0404100",
        WITH_NAMES,
        "18([
        <<{1/ alg /: -7/ ES256 /}>>/ protected /,
        {}/ unprotected /,
        h''/ payload /,
        h'00'
    / signature /])
/ COSE_Sign1 /
",
    ),
    (
        "d18143a10105",
        WITH_NAMES,
        "17([<<{1/ alg /: 5# HMAC 256/256\n}>>/ protected /])\n/ COSE_Mac0 /\n",
    ),
];

/// Digits of CBOR with texts that act on a terminal, and how they are shown: U+202E, U+061C, U+00AD, DEL, U+0085 and U+2028 by their
/// numbers. A line feed and a variation selector stay.
const ACTING: &[(&str, &str)] = &[
    ("63e280ae", "\"\\u{202e}\"\n"),
    ("62d89c", "\"\\u{61c}\"\n"),
    ("62c2ad", "\"\\u{ad}\"\n"),
    ("617f", "\"\\u{7f}\"\n"),
    ("62c285", "\"\\u{85}\"\n"),
    ("63e280a8", "\"\\u{2028}\"\n"),
    ("64f3a08181", "\"\\u{e0041}\"\n"),
    ("620a0d", "\"\n\\r\"\n"),
    ("66e29da4efb88f", "\"\u{2764}\u{fe0f}\"\n"),
    ("a163e280ae617f", "{\"\\u{202e}\": \"\\u{7f}\"}\n"),
    ("7f62c285617fff", "(_ \"\\u{85}\", \"\\u{7f}\")\n"),
    ("d820617f", "32(\"\\u{7f}\")\n"),
    ("448162c29b", "<<[\"\\u{9b}\"]>>\n"),
];

fn text_of(alloc: Global, options: &ShowOptions, input: &[u8]) -> Result<String, Fail> {
    match shown(alloc, options, input) {
        Ok(bytes) => Ok(String::from_utf8(bytes)?),
        Err(fault) => Ok(fault.to_string(alloc)?),
    }
}

#[test]
fn shows(rt: HostRuntime) -> Result<(), Fail> {
    let alloc = rt.alloc();
    let mut failures = Failures::new(alloc);
    for (digits, options, wanted) in ROWS {
        failures.told(
            alloc,
            digits,
            text_of(alloc, options, digits.as_bytes()),
            wanted,
        )?;
    }
    failures.end()
}

const BACK: Options = Options {
    command: Command::Diag2Cbor,
    hex: true,
    annotate_tags: false,
    apply_999: false,
    aol_to_item: false,
    bignum_from_tags: false,
    annotate_ccs: false,
    remove_comments: false,
    preserve_space: true,
    limit: NESTING_LIMIT,
};

/// What is shown is encoded as the bytes again (RFC 8949).
fn read_back(alloc: Global, text: &str) -> Result<String, Fail> {
    match converted(alloc, &BACK, text.as_bytes()) {
        Ok(bytes) => Ok(String::from_str(alloc, String::from_utf8(bytes)?.trim())?),
        Err(fault) => Ok(fault.to_string(alloc)?),
    }
}

#[test]
fn acts_on_nothing(rt: HostRuntime) -> Result<(), Fail> {
    let alloc = rt.alloc();
    let mut failures = Failures::new(alloc);
    for (digits, wanted) in ACTING {
        let text = text_of(alloc, &SHOW, digits.as_bytes())?;
        failures.row(alloc, digits, &text, wanted)?;
        failures.told(alloc, digits, read_back(alloc, &text), digits)?;
    }
    failures.end()
}

#[test]
fn shows_bytes(rt: HostRuntime) -> Result<(), Fail> {
    let alloc = rt.alloc();
    let bytes = ShowOptions { hex: false, ..SHOW };
    let mut failures = Failures::new(alloc);
    failures.told(
        alloc,
        "bytes",
        text_of(alloc, &bytes, b"\x43\xa1\x01\x26"),
        "<<{1: -7}>>\n",
    )?;
    failures.end()
}

#[test]
fn refuses_what_is_not_shown(rt: HostRuntime) {
    let alloc = rt.alloc();
    let no_digits = shown(alloc, &SHOW, b"4");
    assert!(rt; matches!(no_digits, Err(RunError::Hex)));
    let cut = shown(alloc, &SHOW, b"8201");
    assert!(rt; matches!(cut, Err(RunError::Cbor(CborError::OutOfData))));
}

/// A file's name, what is shown of it, and both.
const NAMED: &[(&str, &str, &str)] = &[
    ("a.cbor", "[1]\n", "/ a.cbor /\n[1]\n"),
    ("d/a.cbor", "[1]\n", "# d/a.cbor\n[1]\n"),
    ("a\u{1b}\nb", "1/c/", "/ a<U+001B><U+000A>b /\n1/c/\n"),
    ("a\u{202e}.cbor", "1\n", "/ a<U+202E>.cbor /\n1\n"),
    ("", "", "/  /\n"),
];

#[test]
fn names_files(rt: HostRuntime) -> Result<(), Fail> {
    let alloc = rt.alloc();
    let mut failures = Failures::new(alloc);
    for (name, text, wanted) in NAMED {
        let both = String::from_utf8(behind_name(alloc, name, text.as_bytes())?)?;
        failures.row(alloc, name, both.as_str(), wanted)?;
    }
    failures.end()
}

const FORMAT: FormatOptions = FormatOptions {
    only_lists: false,
    remove_comments: false,
    force: false,
    limit: NESTING_LIMIT,
};

/// Texts, and what `fmt` makes of them by the indented layout of `docs/SUPPORTED.md`: no item is another one.
const TEXTS: &[(&str, bool, &str)] = &[
    ("", false, ""),
    ("[1 /one/,0x2]", false, "[1/one/, 0x2]\n"),
    (
        "1(42), 2(h'01'), ip'192.0.2.1'",
        false,
        "1(42),\n2(h'01'),\nip'192.0.2.1'\n",
    ),
    ("null /c/", false, "null\n/c/\n"),
    ("null # c\n", false, "null\n# c\n"),
    ("null /c/", true, "null\n"),
];

fn formatted_text(alloc: Global, remove_comments: bool, text: &str) -> Result<String, Fail> {
    let options = FormatOptions {
        remove_comments,
        force: false,
        ..FORMAT
    };
    match formatted(alloc, &options, text.as_bytes()) {
        Ok(bytes) => Ok(String::from_utf8(bytes)?),
        Err(fault) => Ok(fault.to_string(alloc)?),
    }
}

#[test]
fn formats(rt: HostRuntime) -> Result<(), Fail> {
    let alloc = rt.alloc();
    let mut failures = Failures::new(alloc);
    for (text, remove_comments, wanted) in TEXTS {
        let once = formatted_text(alloc, *remove_comments, text)?;
        failures.row(alloc, text, once.as_str(), wanted)?;
        failures.told(
            alloc,
            wanted,
            formatted_text(alloc, *remove_comments, &once),
            wanted,
        )?;
    }
    failures.end()
}

#[test]
fn refuses_what_is_no_text(rt: HostRuntime) {
    let alloc = rt.alloc();
    let cut = formatted(alloc, &FORMAT, b"[1");
    assert!(rt; matches!(cut, Err(RunError::Parse(_))));
}

#[test]
fn checks_by_runs(rt: HostRuntime) {
    let check = CheckOptions {
        apply_999: true,
        cbor: false,
        limit: 9,
    };
    let text = check.steps(false);
    assert!(rt;
        text.command == Command::Diag2Cbor && text.aol_to_item && text.apply_999 && text.limit == 9
    );
    assert!(rt; check.steps(true).command == Command::Cbor2Diag);
    assert!(rt; FORMAT.steps().command == Command::Diag2Diag);
    assert!(rt; SHOW.steps().annotate_tags);
    assert!(rt; CLAIMS.steps().annotate_ccs);
}
