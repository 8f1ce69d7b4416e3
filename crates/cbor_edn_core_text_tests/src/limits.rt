//! How deep texts may nest, and how often a text is looked at.
use crate::common::{encoded, expect_itself, refusal, repeated};
use cbor_edn_core::tree::{NESTING_LIMIT, Sequence, StandaloneItem};
use cbor_edn_expect::expect;
use cbor_edn_expect::failures::Failures;
use cbor_edn_parts::base::looks::Looks;
use std::alloc::Global;
use std::mem::size_of;
use std::test::Fail;

#[derive(Clone, Copy, PartialEq)]
enum Answer {
    Accepted,
    TooDeep,
    Invalid,
}

fn answer_of(alloc: Global, text: &str, limit: usize) -> Result<Answer, Fail> {
    match refusal(alloc, text, limit)? {
        None => Ok(Answer::Accepted),
        Some(refused) if refused.too_deep() => Ok(Answer::TooDeep),
        Some(_) => Ok(Answer::Invalid),
    }
}

fn is_answer(alloc: Global, text: &str, limit: usize, wanted: Answer) -> Result<bool, Fail> {
    Ok(answer_of(alloc, text, limit)? == wanted)
}

fn expect_answer(alloc: Global, text: &str, limit: usize, wanted: Answer) -> Result<(), Fail> {
    expect(text, is_answer(alloc, text, limit, wanted)?)
}

fn accepts_standalone(alloc: Global, text: &str, limit: usize) -> bool {
    StandaloneItem::parse_within(alloc, text, limit).is_ok()
}

/// Texts, and how deep their items nest, by the rule in `docs/SUPPORTED.md`: each item of a sequence by itself, and keywords not at all.
const NESTED: &[(&str, usize)] = &[
    ("1", 0),
    ("[]", 1),
    ("[1], [2], [3]", 1),
    ("(_ 'a' + <<1>>)", 1),
    ("[true, NaN]", 1),
    ("[[]]", 2),
    ("{1: {}}", 2),
    ("{{}: 1}", 2),
    ("{[]: {}, 3: []}", 2),
    ("<<[1]>>", 2),
    ("[1(2)]", 2),
    ("1(2(3))", 2),
    ("simple([])", 2),
    ("[simple(20)]", 2),
    ("[{1: [_ 2]}]", 3),
];

#[test]
fn counts_what_nests(rt: HostRuntime) -> Result<(), Fail> {
    let alloc = rt.alloc();
    let mut failures = Failures::new(alloc);
    for &(text, depth) in NESTED {
        for limit in 0..4 {
            let wanted = if limit < depth {
                Answer::TooDeep
            } else {
                Answer::Accepted
            };
            let row = format!(in alloc; "{text} at {limit}")?;
            let is_wanted = is_answer(alloc, text, limit, wanted);
            failures.held(alloc, row.as_str(), is_wanted)?;
        }
    }
    failures.end()
}

#[test]
fn refuses_wrong_texts_as_invalid(rt: HostRuntime) -> Result<(), Fail> {
    expect_answer(rt.alloc(), ",1", 0, Answer::Invalid)
}

#[test]
fn accepts_the_deepest(rt: HostRuntime) -> Result<(), Fail> {
    let alloc = rt.alloc();
    expect("the limit", NESTING_LIMIT == 512)?;
    let deepest = repeated(alloc, 512, "[", "]")?;
    let digits = encoded(alloc, deepest.as_str())?;
    expect("512 arrays", digits.len() == 1024)?;
    expect_itself(alloc, deepest.as_str())
}

#[test]
fn refuses_what_is_deeper(rt: HostRuntime) -> Result<(), Fail> {
    let alloc = rt.alloc();
    let deeper = repeated(alloc, 513, "[", "]")?;
    let text = deeper.as_str();
    expect_answer(alloc, text, NESTING_LIMIT, Answer::TooDeep)?;
    expect(
        "513 at 512",
        !accepts_standalone(alloc, text, NESTING_LIMIT),
    )?;
    expect("513 at 513", accepts_standalone(alloc, text, 513))
}

#[test]
fn refuses_many_open_arrays(rt: HostRuntime) -> Result<(), Fail> {
    let open = repeated(rt.alloc(), 100_000, "[", "")?;
    expect_answer(rt.alloc(), open.as_str(), NESTING_LIMIT, Answer::TooDeep)
}

fn counts_sequence(alloc: Global, text: &str) -> bool {
    let mut looks = Looks::new();
    looks.look();
    Sequence::parse_counted(alloc, text, &mut looks).is_ok()
}

fn counts_standalone(alloc: Global, text: &str) -> bool {
    StandaloneItem::parse_counted(alloc, text, &mut Looks::new()).is_ok()
}

#[test]
fn looks_take_no_bytes(rt: HostRuntime) -> Result<(), Fail> {
    let alloc = rt.alloc();
    expect("bytes of looks", size_of::<Looks>() == 0)?;
    expect("a sequence", counts_sequence(alloc, "[1, 2]"))?;
    expect("an item", counts_standalone(alloc, "[1, 2]"))?;
    expect("no sequence", !counts_sequence(alloc, "[1, 2"))
}
