//! What a call asks for, by numbers.
ghost use Rattle.std.specs.Prelude.{◌≡◌, ◌||◌, ◌+◌, ◌*◌, ◌<◌, IfSome, IsNone};
ghost use Rattle.cbor_edn_c_calls.specs.Flags.{IsAsked, IsBadCall, IsCallOf, IsNoShow, IsOutOfRange, IsShowAsked, bit, command_number};

use cbor_edn_command::file_options::{MOST_LEVELS, ShowOptions};
use cbor_edn_command::options::{Command, Options};
use cbor_edn_parts::base::nesting::NESTING_LIMIT;

/// The number of `show`.
const SHOW: u32 = 3;

/// What a call asks for.
#[derive(Clone, Copy)]
pub enum Asked {
    /// A run of one of the three commands.
    Run(Options),
    /// What `show` writes.
    Show(ShowOptions),
}

fn command_numbered(number: u32) -> Option<Command>
    ensures some { IfSome result (λ c. number ≡ command_number c) }
    ensures none { IsNone result → 2 < number }
{
    match number {
        0 => Some(Command::Diag2Cbor),
        1 => Some(Command::Cbor2Diag),
        2 => Some(Command::Diag2Diag),
        _ => None,
    }
}

/// The lowest of some flags, and the others.
fn split(flags: u32) -> (bool, u32)
    ensures { flags ≡ bit result.0 + 2 * result.1 }
{
    (flags % 2 == 1, flags / 2)
}

/// The options that the three numbers of a call ask for, unless one is out of its range: a command of 0 to 2, flags below 256, and a
/// limit of at most 512 levels.
pub fn options_of(command: u32, flags: u32, limit: usize) -> Option<Options>
    ensures some { IfSome result (IsAsked command flags limit) }
    ensures none { IsNone result → IsOutOfRange command flags limit }
{
    let command = command_numbered(command)?;
    if limit > NESTING_LIMIT {
        return None;
    }
    let (hex, flags) = split(flags);
    let (annotate_tags, flags) = split(flags);
    let (remove_comments, flags) = split(flags);
    let (aol_to_item, flags) = split(flags);
    let (annotate_ccs, flags) = split(flags);
    let (bignum_from_tags, flags) = split(flags);
    let (apply_999, flags) = split(flags);
    let (preserve_space, flags) = split(flags);
    if flags != 0 {
        return None;
    }
    Some(Options {
        command,
        hex,
        annotate_tags,
        apply_999,
        aol_to_item,
        bignum_from_tags,
        annotate_ccs,
        remove_comments,
        preserve_space,
        limit,
    })
}

/// Whether one of some flags is set.
fn any(a: bool, b: bool, c: bool, d: bool, e: bool) -> bool
    ensures { result ≡ (a || (b || (c || (d || e)))) }
{
    a || b || c || d || e
}

/// The options of `show` that two numbers of a call ask for, unless one is out of its range: of the flags 1, 16, 32 and 256 alone, and
/// 512 for each of at most 255 levels, and a limit of at most 512 levels.
pub fn show_options_of(flags: u32, limit: usize) -> Option<ShowOptions>
    ensures some { IfSome result (IsShowAsked flags limit) }
    ensures none { IsNone result → IsNoShow flags limit }
{
    if limit > NESTING_LIMIT {
        return None;
    }
    let (hex, flags) = split(flags);
    let (annotate_tags, flags) = split(flags);
    let (remove_comments, flags) = split(flags);
    let (aol_to_item, flags) = split(flags);
    let (annotate_ccs, flags) = split(flags);
    let (bignum_from_tags, flags) = split(flags);
    let (apply_999, flags) = split(flags);
    let (preserve_space, flags) = split(flags);
    let (names, levels) = split(flags);
    let levels = levels as usize;
    let other = any(
        annotate_tags,
        remove_comments,
        aol_to_item,
        apply_999,
        preserve_space,
    );
    if other || levels > MOST_LEVELS {
        return None;
    }
    Some(ShowOptions {
        hex,
        levels,
        names,
        bignum_from_tags,
        annotate_ccs,
        limit,
    })
}

/// What the three numbers of a call ask for: `show` by 3, else what [`options_of`] says.
pub fn asked_for(command: u32, flags: u32, limit: usize) -> Option<Asked>
    ensures some { IfSome result (IsCallOf command flags limit) }
    ensures none { IsNone result → IsBadCall command flags limit }
{
    if command == SHOW {
        Some(Asked::Show(show_options_of(flags, limit)?))
    } else {
        Some(Asked::Run(options_of(command, flags, limit)?))
    }
}
