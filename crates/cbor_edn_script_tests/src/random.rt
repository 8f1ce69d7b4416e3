//! Scripts made at random over sequences made at random: what is printed then is read as the same items, with the same encoding.
use crate::common::{Step, push_edit, see_read_back, sequence_of};
use cbor_edn_expect::failures::Failures;
use cbor_edn_parts::space::policy::DelimiterPolicy;
use cbor_edn_script::{Edit, run};
use std::alloc::{AllocError, Global};
use std::test::Fail;

/// A linear congruential generator, by Knuth's multiplier for 64 bits: the same numbers in each run.
#[derive(Drop)]
struct Random(u64);

impl Random {
    /// A number below the limit, and 0 where that is 0.
    fn below(&mut self, limit: usize) -> usize {
        self.0 = self
            .0
            .wrapping_mul(6364136223846793005)
            .wrapping_add(1442695040888963407);
        let number = (self.0 >> 33) as usize;
        if limit == 0 { 0 } else { number % limit }
    }

    fn one_of(&mut self, texts: &[&'static str]) -> &'static str {
        match texts.get(self.below(texts.len())) {
            Some(&text) => text,
            None => "",
        }
    }
}

/// Items made by the forms of `docs/SUPPORTED.md`, some of which conversions change and some of which mean nothing.
const ITEMS: &[&str] = &[
    "0",
    "+1",
    "-25_0",
    "0x1f_1",
    ".5",
    "1e3",
    "NaN_2",
    "18446744073709551616",
    "true",
    "simple(20)",
    "simple( 32_0 /c/)",
    "\"a\"",
    "\"\\u{1f600}\"_0",
    "''_",
    "h'0 1'",
    "b64'AQ'",
    "...",
    "dt'1970-01-01T00:00:23Z'",
    "DT'2023-11-14T22:13:20.5Z'",
    "ip'192.0.2.1'",
    "IP'2001:db8::/32'_1",
    "ip'x'",
    "foo'it\\'s'_1",
    "1(42)",
    "1_0(42)",
    "1(/c/ 1.5)",
    "2(h'ff')",
    "3( h'01' + '' + h'0000000000000000' )",
    "52(h'c0000201')",
    "54([64,h'20010db8'])",
    "52(h'c000')",
    "[]",
    "[_ /c/ ]",
    "{_1}",
    "<<>>_",
    "\"a\"/c/+'b'",
    "'a' + ip'x'",
    "(_ 'a' , h'00'_0)",
    "(_ # c\n \"a\"+\"b\" )",
    "(_ <<1(2)>>, 'x'+<<foo'x' 3>>,)",
    "[ 1 , [_0 2/c/3 ]\n, ]",
    "{ 1 : 2 , \"a\":{} }",
];

/// What may stand round an item by the same forms.
const ROUND: &[(&str, &str)] = &[
    ("[", "]"),
    ("[_ ", " , 1,]"),
    ("[_2 /c/ ", " /d/]"),
    ("{1: ", "}"),
    ("{_ ", " : 2, }"),
    ("{ /c/ 0 /d/ :", "# e\n}"),
    ("1(", ")"),
    ("24_1( ", " /c/ )"),
    ("52([ 24, ", "])"),
    ("simple(", ")"),
    ("<<", ">>"),
    ("<< /c/ ", ">>_0"),
    ("'x' + <<1 , ", ">> + h'00'"),
    ("(_ 'a', <<", ">> , 'b')"),
];

/// Blanks and comments, by the same forms.
const SPACES: &[&str] = &["", " ", "/c/", " # c\n"];

/// What may stand between two items, by the same forms.
const SEPARATORS: &[&str] = &[",", ", ", " ", "/c/", "\n", " /c/ , # d\n ", "\t,\r"];

/// Comments of tags: a short and an empty one, and such as have a slash, line feeds, a control character, or more than ASCII.
const COMMENTS: &[&str] = &["t", "", "a/b", "# c\n", "\u{1}\n", "\u{e9}"];

fn item_text(alloc: Global, random: &mut Random) -> Result<String, AllocError> {
    let mut text = String::from_str(alloc, random.one_of(ITEMS))?;
    for _ in 0..random.below(4) {
        if let Some(&(before, behind)) = ROUND.get(random.below(ROUND.len())) {
            text = format!(in alloc; "{before}{text}{behind}")?;
        }
    }
    Ok(text)
}

fn sequence_text(alloc: Global, random: &mut Random) -> Result<String, AllocError> {
    let mut text = String::from_str(alloc, random.one_of(SPACES))?;
    for i in 0..random.below(4) {
        if i > 0 {
            text.push_str(random.one_of(SEPARATORS))?;
        }
        text.push_str(item_text(alloc, random)?.as_str())?;
    }
    text.push_str(random.one_of(SPACES))?;
    Ok(text)
}

fn policy(random: &mut Random) -> DelimiterPolicy {
    match random.below(5) {
        0 => DelimiterPolicy::DiscardAll,
        1 => DelimiterPolicy::DiscardAllButComments,
        2 => DelimiterPolicy::SingleLineRegularSpacing,
        3 => DelimiterPolicy::SingleSpace,
        _ => DelimiterPolicy::IndentedRegularSpacing {
            base_indent: random.below(3),
            indent_level: random.below(5),
            max_width: random.below(60),
        },
    }
}

fn path(alloc: Global, random: &mut Random) -> Result<Vec<usize>, AllocError> {
    let mut path: Vec<usize> = Vec::new(alloc);
    for _ in 0..random.below(5) {
        path.push(random.below(4))?;
    }
    Ok(path)
}

/// An edit; one with a path has this one.
fn step<'p>(random: &mut Random, path: &'p [usize]) -> Step<'p> {
    match random.below(12) {
        0 | 1 => Step::TagAt(path, random.below(60) as u64),
        2..=5 => Step::Replace(path, random.one_of(ITEMS)),
        6 => Step::Delimit(policy(random)),
        7 => Step::Discard,
        8 => Step::CommentTags(random.one_of(COMMENTS)),
        9 => Step::Prettify,
        10 => Step::Resolve,
        _ => Step::To999,
    }
}

fn push_step(alloc: Global, random: &mut Random, edits: &mut Vec<Edit<'_>>) -> Result<(), Fail> {
    let path = path(alloc, random)?;
    let step = step(random, path.as_slice());
    push_edit(alloc, edits, step)
}

fn script<'a>(alloc: Global, random: &mut Random) -> Result<Vec<Edit<'a>>, Fail> {
    let mut edits: Vec<Edit<'a>> = Vec::new(alloc);
    for _ in 0..random.below(8) {
        push_step(alloc, random, &mut edits)?;
    }
    Ok(edits)
}

fn see_script(
    failures: &mut Failures,
    alloc: Global,
    number: usize,
    random: &mut Random,
) -> Result<(), Fail> {
    let text = sequence_text(alloc, random)?;
    let row = format!(in alloc; "script {number} of {text}")?;
    let mut sequence = sequence_of(alloc, text.as_str())?;
    run(alloc, &mut sequence, script(alloc, random)?)?;
    see_read_back(failures, alloc, row.as_str(), &mut sequence)
}

#[test]
fn random_scripts_are_read_back(rt: HostRuntime) -> Result<(), Fail> {
    let alloc = rt.alloc();
    let mut failures = Failures::new(alloc);
    let mut random = Random(1);
    for number in 0..2000 {
        see_script(&mut failures, alloc, number, &mut random)?;
    }
    failures.end()
}
