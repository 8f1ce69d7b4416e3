//! Trees that calls change, and what may be left of them where memory is refused.
use crate::change::{Change, change_sequence, change_standalone};
use cbor_edn_core::tree::{Sequence, StandaloneItem};
use cbor_edn_expect::memory::{Failure, boxed, is_one_of};
use cbor_edn_parts::space::policy::DelimiterPolicy;
use std::alloc::{AllocError, Global};

/// A call's name, what it changes a tree by, and the texts that it may leave: the one before it first, then one for each change on
/// the way, and last the one where nothing is refused. This stands twice where a part of the call behind the last change may be refused.
pub(crate) type Row = (&'static str, Change, &'static [&'static str]);

pub(crate) fn sequence_of<'a>(alloc: Global, text: &'a str) -> Result<Box<Sequence<'a>>, Failure> {
    boxed(alloc, Sequence::parse(alloc, text))
}

pub(crate) fn standalone_of<'a>(
    alloc: Global,
    text: &'a str,
) -> Result<Box<StandaloneItem<'a>>, Failure> {
    boxed(alloc, StandaloneItem::parse(alloc, text))
}

pub(crate) trait Tree: Drop {
    fn text(&self, alloc: Global) -> Result<String, AllocError>;

    fn change(&mut self, alloc: Global, change: Change) -> Result<(), Failure>;

    /// The text without spaces, which is that of these items alone. The spaces of the tree are discarded.
    fn plain_text(&mut self, alloc: Global) -> Result<String, AllocError>;

    /// Whether the text is read as the tree's items.
    fn is_read_from(&mut self, alloc: Global, text: &str) -> bool;
}

fn are_same(one: Result<String, AllocError>, other: Result<String, AllocError>) -> bool {
    match (one, other) {
        (Ok(one), Ok(other)) => one == other,
        _ => false,
    }
}

impl Tree for Sequence<'_> {
    fn text(&self, alloc: Global) -> Result<String, AllocError> {
        self.serialize(alloc)
    }

    fn plain_text(&mut self, alloc: Global) -> Result<String, AllocError> {
        self.set_delimiters(alloc, DelimiterPolicy::DiscardAll)?;
        self.serialize(alloc)
    }

    fn change(&mut self, alloc: Global, change: Change) -> Result<(), Failure> {
        change_sequence(alloc, self, change)
    }

    fn is_read_from(&mut self, alloc: Global, text: &str) -> bool {
        match sequence_of(alloc, text) {
            Ok(mut read) => are_same(self.plain_text(alloc), read.plain_text(alloc)),
            Err(_) => false,
        }
    }
}

impl Tree for StandaloneItem<'_> {
    fn text(&self, alloc: Global) -> Result<String, AllocError> {
        self.serialize(alloc)
    }

    fn plain_text(&mut self, alloc: Global) -> Result<String, AllocError> {
        self.set_delimiters(alloc, DelimiterPolicy::DiscardAll)?;
        self.serialize(alloc)
    }

    fn change(&mut self, alloc: Global, change: Change) -> Result<(), Failure> {
        change_standalone(alloc, self, change)
    }

    fn is_read_from(&mut self, alloc: Global, text: &str) -> bool {
        match standalone_of(alloc, text) {
            Ok(mut read) => are_same(self.plain_text(alloc), read.plain_text(alloc)),
            Err(_) => false,
        }
    }
}

/// Makes the call of a row on a tree of its first text. Where it is refused memory it must have left what it may.
pub(crate) fn changed(alloc: Global, row: &Row) -> Result<bool, Failure> {
    let Some(&text) = row.2.first() else {
        return Err(Failure::Wrong);
    };
    if row.1.is_of_sequence() {
        let mut tree = sequence_of(alloc, text)?;
        changed_tree(alloc, &mut *tree, row.1, row.2)
    } else {
        let mut tree = standalone_of(alloc, text)?;
        changed_tree(alloc, &mut *tree, row.1, row.2)
    }
}

fn changed_tree<T: Tree>(
    alloc: Global,
    tree: &mut T,
    change: Change,
    texts: &[&'static str],
) -> Result<bool, Failure> {
    let Some((&last, before)) = texts.split_last() else {
        return Err(Failure::Wrong);
    };
    match tree.change(alloc, change) {
        Ok(()) => Ok(tree.text(alloc)?.as_str() == last),
        Err(Failure::Refused) if is_left(alloc, tree, change, before) => Err(Failure::Refused),
        Err(_) => Ok(false),
    }
}

/// Whether a tree is one that a refused call may leave. Memory was refused then, so it is not for what is looked at here.
fn is_left<T: Tree>(alloc: Global, tree: &mut T, change: Change, texts: &[&'static str]) -> bool {
    let Ok(text) = tree.text(alloc) else {
        return false;
    };
    let may_stand = match change {
        // Any space may be the old or the new one.
        Change::Delimit(_, _) => is_read_from_one(alloc, tree, texts),
        _ => is_one_of(texts, text.as_str()),
    };
    may_stand && tree.is_read_from(alloc, text.as_str())
}

fn is_read_from_one<T: Tree>(alloc: Global, tree: &mut T, texts: &[&'static str]) -> bool {
    match texts.first() {
        Some(&text) => tree.is_read_from(alloc, text),
        None => false,
    }
}
