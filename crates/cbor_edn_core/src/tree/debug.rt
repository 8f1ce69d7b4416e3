//! Trees as they are shown to those who look for an error: numbers, keywords and single literals as they are written, of
//! anything else only its form.
use crate::tree::{CborString, InnerItem, Item, Piece, Sequence, StandaloneItem};
use std::fmt;

impl fmt::Debug for Item<'_> {
    fn fmt<W: fmt::Write>(&self, f: &mut fmt::Formatter<W>) -> fmt::Result {
        f.write_str(outline(self))
    }
}

impl fmt::Debug for StandaloneItem<'_> {
    fn fmt<W: fmt::Write>(&self, f: &mut fmt::Formatter<W>) -> fmt::Result {
        f.write_str(outline(&self.item))
    }
}

impl fmt::Debug for Sequence<'_> {
    fn fmt<W: fmt::Write>(&self, f: &mut fmt::Formatter<W>) -> fmt::Result {
        let Some(items) = &self.items else {
            return Ok(());
        };
        for (item, _) in &items.row {
            f.write_str(outline(item))?;
            f.write_str(", ")?;
        }
        f.write_str(outline(&items.last))
    }
}

fn outline<'b>(item: &'b Item<'_>) -> &'b str {
    match &item.inner {
        InnerItem::Number(_, number) => number.as_str(),
        InnerItem::NonFinite(_, float) => float.as_str(),
        InnerItem::Named(name) => name.as_str(),
        InnerItem::Enclosed(_, _) => "(..)",
        InnerItem::Array(_) => "[..]",
        InnerItem::Map(_) => "{..}",
        InnerItem::Literal(_, literal) => literal.as_str(),
        InnerItem::String(string) => outline_of_string(string),
        InnerItem::Stream(_) => "(_ ..)",
    }
}

fn outline_of_string<'b>(string: &'b CborString<'_>) -> &'b str {
    if !string.row.is_empty() {
        return ".. + ..";
    }
    match &string.last {
        Piece::Literal(_, literal) => literal.as_str(),
        Piece::Ellipsis(ellipsis) => ellipsis.as_str(),
        Piece::Embedded(_, _) => "<<..>>",
    }
}
