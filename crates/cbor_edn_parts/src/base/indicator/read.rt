//! The encoding indicator at a place of a text.
ghost use Rattle.std.specs.Prelude.{◌≡◌, ◌≤◌, ◌+◌, drop};
ghost use Rattle.std.specs.Str.{IsCharBoundary};
ghost use Rattle.cbor_edn_parts.specs.base.Indicator as spec;
ghost use Rattle.cbor_edn_parts.specs.internal.Input.{text_bytes};

use super::Indicator;
use crate::base::input::Input;
use crate::base::looks::Looks;

/// The encoding indicator at a place, if any, and the place behind it: for one read where there is none, else for two.
pub fn indicator_at(text: &Input<'_>, from: usize, looks: &mut Looks) -> (Option<Indicator>, usize)
    requires { IsCharBoundary (text_bytes text.now) from }
    ensures value { spec.indicator_at (drop from (text_bytes text.now)) ≡ (result.0, drop result.1 (text_bytes text.now)) }
    ensures place { (from ≤ result.1) × IsCharBoundary (text_bytes text.now) result.1 }
    ensures cost { (looks.new.count ≤ looks.old.count + 2) × (looks.old.count + result.1 ≤ looks.new.count + from) }
{
    let Some(b'_') = text.byte(from, looks) else {
        return (None, from);
    };
    let behind = from + 1;
    match text.byte(behind, looks) {
        Some(b'i') => (Some(Indicator::Immediate), behind + 1),
        Some(b'0') => (Some(Indicator::One), behind + 1),
        Some(b'1') => (Some(Indicator::Two), behind + 1),
        Some(b'2') => (Some(Indicator::Four), behind + 1),
        Some(b'3') => (Some(Indicator::Eight), behind + 1),
        _ => (Some(Indicator::Indefinite), behind),
    }
}
