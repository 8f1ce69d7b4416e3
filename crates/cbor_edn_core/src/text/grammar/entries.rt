//! Entries of a row, of any kind, with the separators between them.
ghost use Rattle.std.specs.Prelude.{◌≡◌, ◌<◌, [], OnOk, IfOk, vec_len, vec_capacity};
ghost use Rattle.cbor_edn_parts.specs.internal.Ends.{IsEnd, reached};
ghost use Rattle.cbor_edn_parts.specs.Leaves.{list_end_bytes, BorrowsListEnd};
ghost use Rattle.cbor_edn_parts.specs.base.Refusals.{IfTold};
ghost use Rattle.cbor_edn_parts.specs.internal.Input.{text_bytes};
ghost use Rattle.cbor_edn_core.specs.internal.ParserResults.{IsPushed, ReadsSeparator, LandsSeparator, CostsSeparator, ReadsBehind, LandsBehind, CostsBehind, BorrowsBehind, OnMore};

use cbor_edn_model::text::lookahead::closes;
use cbor_edn_parts::base::error::{Fault, ParseErrorKind, Refusal};
use cbor_edn_parts::base::input::Input;
use cbor_edn_parts::base::looks::Looks;
use cbor_edn_parts::base::row::{append, make_room};
use cbor_edn_parts::space::{ItemEnd, ListEnd, Separator, separator_behind};

/// What stands behind an entry, with the place behind that.
#[derive(Drop)]
pub(crate) enum Behind<'a> {
    /// The end of its row.
    Last(ListEnd<'a>, usize),
    /// The separator in front of another entry.
    More(Separator<'a>, usize),
}

/// What stands behind an entry. Where that is another entry, the row has room for this one. So the entry is moved once, from where it was
/// read to its place in the row.
pub(super) fn behind_entry<'a, T: Drop>(
    text: &Input<'a>,
    end: ItemEnd,
    row: &mut Vec<(T, Separator<'a>)>,
    looks: &mut Looks,
) -> Result<Behind<'a>, Fault<Refusal>>
    requires { IsEnd (text_bytes text.now) end }
    ensures value { ReadsBehind (text_bytes text.now) result end.at }
    ensures borrowed { IfOk result BorrowsBehind }
    ensures place { LandsBehind (text_bytes text.now) end.at result }
    ensures cost { CostsBehind (text_bytes text.now) (reached end) looks.old.count looks.new.count result }
    ensures unchanged { row.new.items ≡ row.old.items }
    ensures room { IfOk result (λ b. OnMore b (vec_len row.new < vec_capacity row.new)) }
{
    let (list_end, next) = separator_behind(text, end, looks)?;
    if closes(text, next, looks) {
        return Ok(Behind::Last(list_end, next));
    }
    let Some(separator) = list_end.into_separator() else {
        return Err(Fault::Told(Refusal::invalid(next)));
    };
    make_room(row)?;
    Ok(Behind::More(separator, next))
}

/// A string that was read, with the space and the comma behind it. It is handed on: kept where it was read, as the entries of other rows
/// are, it takes more stack at each level of what nests in it.
pub(super) fn with_separator<'a, T: Drop>(
    text: &Input<'a>,
    read: (T, ItemEnd),
    looks: &mut Looks,
) -> Result<(T, ListEnd<'a>, usize), Fault<Refusal>>
    requires { IsEnd (text_bytes text.now) read.1 }
    ensures value { ReadsSeparator (text_bytes text.now) result read.1.at }
    ensures entry { IfOk result (λ p. p.0 ≡ read.0) }
    ensures borrowed { IfOk result (λ p. BorrowsListEnd p.1) }
    ensures place { LandsSeparator (text_bytes text.now) read.1.at result }
    ensures cost { CostsSeparator (text_bytes text.now) (reached read.1) looks.old.count looks.new.count result }
{
    let (entry, end) = read;
    let (list_end, next) = separator_behind(text, end, looks)?;
    Ok((entry, list_end, next))
}

/// Sets a string behind the others, with the separator between it and the next. Where that is empty, the text is
/// refused.
pub(super) fn push_entry<'a, T: Drop>(
    row: &mut Vec<(T, Separator<'a>)>,
    entry: T,
    list_end: ListEnd<'a>,
    at: usize,
) -> Result<(), Fault<Refusal>>
    ensures pushed { OnOk result (IsPushed row.old.items row.new.items entry list_end.entry) }
    ensures unparted { IfTold result (λ r. (list_end_bytes list_end.entry ≡ []) × (r ≡ record { kind = ParseErrorKind.Invalid; offset = at })) }
{
    let Some(separator) = list_end.into_separator() else {
        return Err(Fault::Told(Refusal::invalid(at)));
    };
    append(row, (entry, separator))?;
    Ok(())
}
