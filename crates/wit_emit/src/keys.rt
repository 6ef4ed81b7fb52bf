//! The keys of procedures: functions with the shapes of their arguments.
ghost use Rattle.std.specs.Prelude.{◌≡◌, map};
ghost use Rattle.cir_rules.specs.Shown.{made_of};
ghost use Rattle.wit_lower.specs.Values as V;

use cir_rules::{CallTable, Made};

/// The place of a key, which is the number of its procedure, or the end where it isn't there.
#[tactic(auto, using(crate::proofs::Numbered::numbered))]
pub fn place_of(keys: &CallTable, key: &Made) -> usize
    ensures { result ≡ V.number_of (map made_of keys.now.calls.items) (made_of key.now) }
{
    match keys.place(key) {
        Some(place) => place,
        None => keys.calls.len(),
    }
}
