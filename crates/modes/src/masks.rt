// Steps 2 and 10: the mask of the sets On, and of those that bar a configuration from being usable.
ghost use Rattle.std.specs.Prelude.{◌≡◌, ◌||◌, ◌<◌, false, get_or};
ghost use Rattle.rules.specs.Numbers.{mask_of};
ghost use Rattle.rules.specs.Modes.{due, in_service, on_mask};
ghost use Rattle.modes.specs.Barred.{barred_mask};

use crate::mode::{in_service, is_due, is_on};
use rules::run::SetState;
use rules::station::GenSet;
use std::array::from_fn;

// The mask of the places that are marked.
fn mask_of(marks: [bool; 8]) -> u32
    ensures value { result ≡ mask_of 8 (λ i. get_or marks i false) }
    ensures upper_bound { result < 256 }
{
    let mut mask = 0;
    let mut weight = 1;
    for is_marked in marks {
        if is_marked {
            mask += weight;
        }
        weight *= 2;
    }
    mask
}

// "Row shows their mask": the sets On.
pub fn on_mask(states: [SetState; 8]) -> u32
    ensures value { result ≡ on_mask states }
    ensures upper_bound { result < 256 }
{
    mask_of(from_fn(|i| is_on(states[i].mode)))
}

fn is_barred(genset: GenSet, state: SetState) -> bool
    ensures { result ≡ (due genset state || in_service state.mode) }
{
    is_due(genset, state) | in_service(state.mode)
}

// The sets that are due or in Service: a configuration with one of them is not usable.
pub fn barred_mask(sets: [GenSet; 8], states: [SetState; 8]) -> u32
    ensures value { result ≡ barred_mask sets states }
    ensures upper_bound { result < 256 }
{
    mask_of(from_fn(|i| is_barred(sets[i], states[i])))
}
