//! Lists of edits.
use crate::spaces::PAIR;
use crate::trees::{Tree, sequence_of};
use cbor_edn_core::tree::{Item, Sequence};
use cbor_edn_expect::memory::Failure;
use cbor_edn_parts::space::policy::DelimiterPolicy;
use cbor_edn_script::{Edit, ScriptError, run};
use std::alloc::{AllocError, Global};

/// A list of edits of a text.
pub(crate) struct Script {
    pub(crate) name: &'static str,
    text: &'static str,
    steps: &'static [Step],
    /// What may stand after so many edits, where memory is refused in the next one: its own call says what it leaves. Behind so many
    /// as there are stands what the whole list leaves.
    stands: &'static [(usize, &'static str)],
}

/// An edit as a table holds it. The item that is put somewhere is an integer.
#[derive(Clone, Copy)]
enum Step {
    Delimit(DelimiterPolicy),
    Discard,
    Replace(&'static [usize], i128),
    TagAt(&'static [usize], u64),
    CommentTags(&'static str),
    Prettify,
    Resolve,
    To999,
}

/// What each edit leaves, by the words of `Edit`, the table of policies and the sources of the conversions.
pub(crate) const SCRIPTS: &[Script] = &[
    Script {
        name: "script::run, each edit",
        text: PAIR,
        steps: &[
            Step::Delimit(DelimiterPolicy::IndentedRegularSpacing {
                base_indent: 0,
                indent_level: 4,
                max_width: 80,
            }),
            Step::CommentTags("a/b"),
            Step::Prettify,
            Step::Resolve,
            Step::Discard,
            Step::Replace(&[1, 0], 5),
            Step::TagAt(&[1], 24),
            Step::To999,
        ],
        stands: &[
            (0, PAIR),
            (
                1,
                "{4: 1(0), 8: {4: {3: -17}}},\n[_ h'00', <<dt'1970-01-01T00:00:23Z'>>]\n",
            ),
            (
                2,
                "{4: 1(0)# a/b\n, 8: {4: {3: -17}}},\n[_ h'00', <<dt'1970-01-01T00:00:23Z'>>]\n",
            ),
            (
                3,
                "{4: DT'1970-01-01T00:00:00+00:00'# a/b\n, 8: {4: {3: -17}}},\n[_ h'00', <<dt'1970-01-01T00:00:23Z'>>]\n",
            ),
            (
                3,
                "{4: 1(0)# a/b\n, 8: {4: {3: -17}}},\n[_ h'00', <<dt'1970-01-01T00:00:23Z'>>]\n",
            ),
            (6, "{4: 1(0)# a/b\n, 8: {4: {3: -17}}},\n[5, <<23>>]\n"),
            (8, "{4: 1(0)# a/b\n, 8: {4: {3: -17}}},\n24([5, <<23>>])\n"),
        ],
    },
    Script {
        name: "script::run, edits that take memory",
        text: "[_2 / a comment of some length / foo'a', 1(\"x\")]",
        steps: &[
            Step::Delimit(DelimiterPolicy::SingleSpace),
            Step::Discard,
            Step::Prettify,
            Step::To999,
        ],
        stands: &[
            (0, "[_2 / a comment of some length / foo'a', 1(\"x\")]"),
            (1, " [_2 / a comment of some length / foo'a' ,1( \"x\" ) ] "),
            (2, " [ / a comment of some length / foo'a' ,1( \"x\" ) ] "),
            (
                3,
                " [ / a comment of some length / foo'a' ,1( \"x\" )/ Numeric value expected for dt'' literal / ] ",
            ),
            (
                4,
                " [ / a comment of some length / 999([\"foo\", \"a\"]) ,1( \"x\" )/ Numeric value expected for dt'' literal / ] ",
            ),
        ],
    },
    // None of these edits may be refused, so nothing stands behind a refusal.
    Script {
        name: "script::run, edits that take no memory",
        text: "[1 / a comment of some length / , 2] # and so on\n",
        steps: &[
            Step::Replace(&[0, 1], 5),
            Step::Delimit(DelimiterPolicy::DiscardAll),
        ],
        stands: &[(2, "[1,5]")],
    },
];

fn edit_of<'a>(alloc: Global, step: Step) -> Result<Edit<'a>, AllocError> {
    match step {
        Step::Delimit(policy) => Ok(Edit::Delimit(policy)),
        Step::Discard => Ok(Edit::Discard),
        Step::Replace(path, integer) => replacement(alloc, path, integer),
        Step::TagAt(path, number) => Ok(Edit::TagAt(path.to_vec(alloc)?, number)),
        Step::CommentTags(comment) => Ok(Edit::CommentTags(String::from_str(alloc, comment)?)),
        Step::Prettify => Ok(Edit::Prettify),
        Step::Resolve => Ok(Edit::Resolve),
        Step::To999 => Ok(Edit::To999),
    }
}

fn replacement<'a>(alloc: Global, path: &[usize], integer: i128) -> Result<Edit<'a>, AllocError> {
    let path = path.to_vec(alloc)?;
    Ok(Edit::Replace(path, Item::new_integer_decimal(alloc, integer)?))
}

fn edits_of<'a>(alloc: Global, steps: &[Step]) -> Result<Vec<Edit<'a>>, AllocError> {
    let mut edits: Vec<Edit<'a>> = Vec::new(alloc);
    for &step in steps {
        edits.push(edit_of(alloc, step)?)?;
    }
    Ok(edits)
}

/// Does the edits of a list. Where memory is refused, those that are counted must be done, and the next one be left as its call leaves it.
pub(crate) fn edited(alloc: Global, script: &Script) -> Result<bool, Failure> {
    let mut sequence = sequence_of(alloc, script.text)?;
    let edits = edits_of(alloc, script.steps)?;
    match run(alloc, &mut sequence, edits) {
        Ok(()) => {
            let text = sequence.serialize(alloc)?;
            Ok(may_stand(script.stands, script.steps.len(), text.as_str()))
        }
        Err(ScriptError { done }) if is_left(alloc, &mut sequence, script, done) => {
            Err(Failure::Refused)
        }
        Err(_) => Ok(false),
    }
}

/// Memory was refused once, so it is not for what is looked at here.
fn is_left(alloc: Global, sequence: &mut Sequence<'_>, script: &Script, done: usize) -> bool {
    let Ok(text) = sequence.serialize(alloc) else {
        return false;
    };
    let is_left = match script.steps.get(done) {
        // Any space may be the old or the new one.
        Some(Step::Delimit(_)) => is_read_from_one(alloc, sequence, script.stands, done),
        _ => may_stand(script.stands, done, text.as_str()),
    };
    is_left && sequence.is_read_from(alloc, text.as_str())
}

fn is_read_from_one(
    alloc: Global,
    sequence: &mut Sequence<'_>,
    stands: &[(usize, &'static str)],
    done: usize,
) -> bool {
    let mut is_found = false;
    for &(edits, text) in stands {
        if edits == done && sequence.is_read_from(alloc, text) {
            is_found = true;
        }
    }
    is_found
}

fn may_stand(stands: &[(usize, &'static str)], done: usize, text: &str) -> bool {
    let mut is_found = false;
    for &(edits, one) in stands {
        if edits == done && one == text {
            is_found = true;
        }
    }
    is_found
}
