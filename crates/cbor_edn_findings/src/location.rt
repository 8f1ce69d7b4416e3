//! Lines and columns.
ghost use Rattle.std.specs.Prelude.{◌≡◌, ◌+◌, ◌^◌, ◌-◌, ◌<◌, count_by};
ghost use Rattle.cbor_edn_parts.specs.base.Location as location;
ghost use Rattle.cbor_edn_parts.specs.base.Location.{is_line_feed, is_start, last_line};

/// The line and the column behind a beginning of a text, from 1: columns count characters.
pub(crate) fn location_behind(front: &[u8]) -> (usize, usize)
    ensures line { result.0 ≡ 1 + count_by is_line_feed front.now }
    ensures column { result.1 ≡ 1 + count_by is_start (last_line front.now) }
{
    let mut line = 1;
    let mut column = 1;
    'bytes: for at in 0..front.len() {
        (line, column) = behind_byte(front[at], line, column);
    }
    (line, column)
}

fn behind_byte(byte: u8, line: usize, column: usize) -> (usize, usize)
    requires lines { line < 2 ^ 64 - 1 }
    requires columns { column < 2 ^ 64 - 1 }
    ensures { (result.0, result.1) ≡ location.location_behind byte line column }
{
    match byte {
        b'\n' => (line + 1, 1),
        128..=191 => (line, column),
        _ => (line, column + 1),
    }
}
