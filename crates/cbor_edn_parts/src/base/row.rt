//! Rows that grow, and values that are dropped where reading stops.
ghost use Rattle.std.specs.Prelude.{◌≡◌, ◌<◌, ◌++◌, ◌∷◌, [], OnOk, OnErr, vec_len, vec_capacity};

use std::alloc::AllocError;

/// Sets an entry behind the others.
#[inline]
pub fn append<T: Drop>(row: &mut Vec<T>, entry: T) -> Result<(), AllocError>
    ensures appended { OnOk result (row.new.items ≡ row.old.items ++ entry ∷ []) }
    ensures out_of_memory { OnErr result (row.new.items ≡ row.old.items) }
{
    make_room(row)?;
    row.push_reserved(entry);
    Ok(())
}

/// Makes room for one entry more, so that `push_reserved` sets it there. A push that may fail would hand the entry back, and so move it
/// twice.
#[inline(always)]
pub fn make_room<T>(row: &mut Vec<T>) -> Result<(), AllocError>
    ensures room { OnOk result (vec_len row.new < vec_capacity row.new) }
    ensures unchanged { row.new.items ≡ row.old.items }
{
    if row.len() < row.capacity() {
        return Ok(());
    }
    grow(row)
}

/// The first entry takes no more room than its own: the last entry of a list stands beside its row, so that a list of two has a row of
/// one.
#[cold]
#[inline(never)]
fn grow<T>(row: &mut Vec<T>) -> Result<(), AllocError>
    ensures room { OnOk result (vec_len row.new < vec_capacity row.new) }
    ensures unchanged { row.new.items ≡ row.old.items }
{
    if row.is_empty() {
        row.reserve_exact(1)
    } else {
        row.reserve(1)
    }
}

/// Drops a value. Where that is inlined it takes stack at each level of what nests.
#[cold]
#[inline(never)]
pub fn drop_out_of_line<T: Drop>(value: T) {
    drop(value)
}
