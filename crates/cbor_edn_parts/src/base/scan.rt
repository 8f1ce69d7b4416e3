//! The longest token at a place of a text.
ghost use Rattle.std.specs.Prelude.{◌≡◌, ◌≤◌, ◌<◌, ◌+◌, ℕ, cond, IsTrue, Option, Some, None, true, drop, slice_range};
ghost use Rattle.std.specs.Str.{IsCharBoundary};
ghost use Rattle.cbor_edn_parts.specs.base.Bytes.{IsLong};
ghost use Rattle.cbor_edn_parts.specs.internal.Lex.{Automaton, munch};
ghost use Rattle.cbor_edn_parts.specs.internal.Scans.{IsRead, Scans, ScanLands, Ends, Costs};
ghost use Rattle.cbor_edn_parts.specs.internal.Input.{text_bytes};

use crate::base::error::Refusal;
use crate::base::input::Input;
use crate::base::looks::Looks;

/// Where the scan of a token stands.
pub(crate) trait State: Copy {
    ghost automaton: { Automaton Self };

    /// The state behind one more byte, or none where the token ends in front of it.
    fn step(self, byte: u8) -> Option<Self>
        ensures { result ≡ automaton.step byte self };

    /// Whether the byte is known to leave the state as it is, as most bytes of a long token do. Where that is not worth a test,
    /// the answer is no.
    fn is_kept_by(self, byte: u8) -> bool
        ensures { IsTrue result → automaton.step byte self ≡ Some self }
    {
        let _byte = byte;
        false
    }

    /// Whether the token may end here.
    fn is_final(self) -> bool
        ensures { result ≡ automaton.final self };

    // A byte of a longer character leads to where more of them are taken, and never to an end.
    ghost stays: { (c d : ℕ) → IsLong c → IsLong d → (m n : Self) → automaton.step c m ≡ Some n → automaton.step d n ≡ Some n };

    ghost inside: { (c : ℕ) → IsLong c → (m : Self) → automaton.final m ≡ true → automaton.step c m ≡ None };
}

/// The token at a place, and the place behind it.
pub(crate) fn scan<'a, T: State>(
    start: T,
    text: &Input<'a>,
    from: usize,
    looks: &mut Looks,
) -> Result<(&'a str, usize), Refusal>
    requires { IsCharBoundary (text_bytes text.now) from }
    ensures value { Scans (λ s. s.now) (text_bytes text.now) result (munch T.automaton start (drop from (text_bytes text.now))) }
    ensures place { ScanLands (text_bytes text.now) from result }
    ensures cost { Costs 1 1 1 (text_bytes text.now) from looks.old.count looks.new.count result }
{
    let first = text.byte(from, looks);
    let (_, to) = token_end(start, text, from, first, looks)?;
    Ok((text.slice(from, to), to))
}

/// The byte behind the token at a place whose byte is read, and the place of that byte.
pub(crate) fn token_end<T: State>(
    start: T,
    text: &Input<'_>,
    from: usize,
    first: Option<u8>,
    looks: &mut Looks,
) -> Result<(Option<u8>, usize), Refusal>
    requires { IsRead (text_bytes text.now) from first }
    ensures value { Ends (text_bytes text.now) from result (munch T.automaton start (drop from (text_bytes text.now))) }
    ensures place { ScanLands (text_bytes text.now) from result }
    ensures cost { Costs 1 0 0 (text_bytes text.now) from looks.old.count looks.new.count result }
{
    let (state, byte, at) = run(start, text, from, first, looks);
    if state.is_final() {
        Ok((byte, at))
    } else {
        Err(Refusal::invalid(at))
    }
}

/// The state in front of the first byte that leads no further, that byte, and its place. The byte at `from` is read already.
fn run<T: State>(
    start: T,
    text: &Input<'_>,
    from: usize,
    first: Option<u8>,
    looks: &mut Looks,
) -> (T, Option<u8>, usize)
    requires { IsRead (text_bytes text.now) from first }
    ensures value { munch T.automaton start (drop from (text_bytes text.now)) ≡ cond (T.automaton.final result.0) (Some (slice_range (text_bytes text.now) from result.2, drop result.2 (text_bytes text.now))) None }
    ensures order { from ≤ result.2 }
    ensures read { IsRead (text_bytes text.now) result.2 result.1 }
    ensures cost { looks.new.count + from ≡ looks.old.count + result.2 }
{
    let mut state = start;
    let mut at = from;
    let mut byte = first;
    'bytes: loop {
        'kept: while is_kept(state, byte) {
            at += 1;
            byte = text.byte(at, looks);
        }
        let Some(read) = byte else {
            return (state, byte, at);
        };
        let Some(next) = state.step(read) else {
            return (state, byte, at);
        };
        state = next;
        at += 1;
        byte = text.byte(at, looks);
    }
}

/// Whether a byte stands there that is known to leave the state as it is.
fn is_kept<T: State>(state: T, byte: Option<u8>) -> bool
    ensures { IsTrue result → (c : ℕ) × (byte ≡ Some c) × (c < 256) × (T.automaton.step c state ≡ Some state) }
{
    match byte {
        Some(byte) => state.is_kept_by(byte),
        None => false,
    }
}
