//! Which characters act on a terminal, by Unicode 16.0: Cc, Bidi_Control, U+2028, U+2029, Default_Ignorable_Code_Point and U+FFF9 to U+FFFB.
use cbor_edn_expect::failures::Failures;
use cbor_edn_terminal::{acts_on_terminal, push_shown, shown, shown_lines};
use std::test::Fail;

/// The first and the last of each range, and what stands in front of it and behind it.
const RANGES: &[(Option<char>, char, char, Option<char>)] = &[
    (None, '\0', '\u{1f}', Some(' ')),
    (Some('~'), '\u{7f}', '\u{9f}', Some('\u{a0}')),
    (Some('\u{ac}'), '\u{ad}', '\u{ad}', Some('\u{ae}')),
    (Some('\u{34e}'), '\u{34f}', '\u{34f}', Some('\u{350}')),
    (Some('\u{61b}'), '\u{61c}', '\u{61c}', Some('\u{61d}')),
    (Some('\u{115e}'), '\u{115f}', '\u{1160}', Some('\u{1161}')),
    (Some('\u{17b3}'), '\u{17b4}', '\u{17b5}', Some('\u{17b6}')),
    (Some('\u{180a}'), '\u{180b}', '\u{180f}', Some('\u{1810}')),
    (Some('\u{200a}'), '\u{200b}', '\u{200f}', Some('\u{2010}')),
    (Some('\u{2027}'), '\u{2028}', '\u{202e}', Some('\u{202f}')),
    (Some('\u{205f}'), '\u{2060}', '\u{206f}', Some('\u{2070}')),
    (Some('\u{3163}'), '\u{3164}', '\u{3164}', Some('\u{3165}')),
    (Some('\u{fefe}'), '\u{feff}', '\u{feff}', Some('\u{ff00}')),
    (Some('\u{ff9f}'), '\u{ffa0}', '\u{ffa0}', Some('\u{ffa1}')),
    (Some('\u{ffef}'), '\u{fff0}', '\u{fffb}', Some('\u{fffc}')),
    (
        Some('\u{1bc9f}'),
        '\u{1bca0}',
        '\u{1bca3}',
        Some('\u{1bca4}'),
    ),
    (
        Some('\u{1d172}'),
        '\u{1d173}',
        '\u{1d17a}',
        Some('\u{1d17b}'),
    ),
    (
        Some('\u{dffff}'),
        '\u{e0000}',
        '\u{e0fff}',
        Some('\u{e1000}'),
    ),
    // variation selectors, which stand behind emoji, don't act
    (Some('\u{fe00}'), '\u{feff}', '\u{feff}', Some('\u{fe0f}')),
];

#[test]
fn ranges(rt: HostRuntime) -> Result<(), Fail> {
    let alloc = rt.alloc();
    let mut failures = Failures::new(alloc);
    for (front, first, last, behind) in RANGES {
        let row = format!(in alloc; "{first:?} to {last:?}")?;
        failures.holds(
            alloc,
            &row,
            acts_on_terminal(*first) && acts_on_terminal(*last),
        )?;
        for other in [*front, *behind] {
            if let Some(other) = other {
                failures.holds(alloc, &row, !acts_on_terminal(other))?;
            }
        }
    }
    failures.end()
}

/// Texts, and how they are told.
const TOLD: &[(&str, &str)] = &[
    ("", ""),
    ("a b~\u{a0}ü", "a b~\u{a0}ü"),
    ("a\tb\n", "a b<U+000A>"),
    ("\u{1b}[1m\u{7f}\u{85}", "<U+001B>[1m<U+007F><U+0085>"),
    ("a\u{202e}b\u{61c}\u{ad}", "a<U+202E>b<U+061C><U+00AD>"),
    ("\u{e0041}\u{1d173}", "<U+E0041><U+1D173>"),
];

#[test]
fn lines(rt: HostRuntime) -> Result<(), Fail> {
    let alloc = rt.alloc();
    let mut failures = Failures::new(alloc);
    let told = shown_lines(alloc, "a\u{1b}\tb\n\u{85}\n")?;
    failures.row(alloc, "lines", &told, "a<U+001B> b\n<U+0085>\n")?;
    let mut out = String::from_str(alloc, "a")?;
    push_shown(&mut out, '\u{7f}')?;
    failures.row(alloc, "one", &out, "a<U+007F>")?;
    failures.end()
}

#[test]
fn told(rt: HostRuntime) -> Result<(), Fail> {
    let alloc = rt.alloc();
    let mut failures = Failures::new(alloc);
    for (text, wanted) in TOLD {
        failures.row(alloc, text, &shown(alloc, text)?, wanted)?;
    }
    failures.end()
}
