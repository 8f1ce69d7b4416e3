//! Which characters act on a terminal, turn text or hide it, and how a text is told without them.
#![tactic(auto)]

ghost use Rattle.std.specs.Prelude.{◌≡◌, ◌++◌, IfOk, OnOk, string_bytes};
ghost use Rattle.std.specs.Str.{chars};
ghost use Rattle.cbor_edn_terminal.specs.Terminal as terminal;
ghost use Rattle.cbor_edn_terminal.specs.Terminal.{shown_character, shown_text, shown_in_lines, lines_text, ShownIsHarmless, LinesAreHarmless};

use std::alloc::{AllocError, Global};

/// Whether a character acts on a terminal, turns text or hides it: controls, marks of direction, and what has no width.
pub fn acts_on_terminal(character: char) -> bool
    ensures { result ≡ terminal.acts_on_terminal character }
{
    matches!(
        character,
        '\0'..='\u{1f}'
            | '\u{7f}'..='\u{9f}'
            | '\u{ad}'
            | '\u{34f}'
            | '\u{61c}'
            | '\u{115f}'..='\u{1160}'
            | '\u{17b4}'..='\u{17b5}'
            | '\u{180b}'..='\u{180f}'
            | '\u{200b}'..='\u{200f}'
            | '\u{2028}'..='\u{202e}'
            | '\u{2060}'..='\u{206f}'
            | '\u{3164}'
            | '\u{feff}'
            | '\u{ffa0}'
            | '\u{fff0}'..='\u{fffb}'
            | '\u{1bca0}'..='\u{1bca3}'
            | '\u{1d173}'..='\u{1d17a}'
            | '\u{e0000}'..='\u{e0fff}'
    )
}

/// One character behind others as it is told: a tab as one space, so that a caret stands below its place, and what acts on a terminal by
/// its number, as `<U+001B>`.
pub fn push_shown(out: &mut String, character: char) -> Result<(), AllocError>
    ensures { OnOk result (string_bytes out.new ≡ string_bytes out.old ++ shown_character character) }
{
    if character == '\t' {
        return out.push(' ');
    }
    if acts_on_terminal(character) {
        let number = u32::from(character);
        let number = format!(in *out.allocator(); "<U+{number:04X}>")?;
        return out.push_str(&number);
    }
    out.push(character)
}

/// A name or a message as it is told.
pub fn shown(alloc: Global, text: &str) -> Result<String, AllocError>
    ensures { IfOk result (λ s. string_bytes s ≡ shown_text (chars text.now)) }
{
    let mut out = String::new(alloc);
    for character in text.chars() {
        push_shown(&mut out, character)?;
    }
    Ok(out)
}

fn push_in_lines(out: &mut String, character: char) -> Result<(), AllocError>
    ensures { OnOk result (string_bytes out.new ≡ string_bytes out.old ++ shown_in_lines character) }
{
    if character == '\n' {
        return out.push('\n');
    }
    push_shown(out, character)
}

/// A message of some lines as it is told: its line feeds stay.
pub fn shown_lines(alloc: Global, text: &str) -> Result<String, AllocError>
    ensures { IfOk result (λ s. string_bytes s ≡ lines_text (chars text.now)) }
{
    let mut out = String::new(alloc);
    for character in text.chars() {
        push_in_lines(&mut out, character)?;
    }
    Ok(out)
}

/// Whatever is told acts on nothing. The body does nothing.
pub fn shown_is_harmless()
    ensures whole { ShownIsHarmless }
    ensures lines { LinesAreHarmless }
{}
