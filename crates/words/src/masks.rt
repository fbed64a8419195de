// The sets of a mask. Bit 0 is set 1, at place 0; a station has eight places, and bits above them are no place.
ghost use Rattle.std.specs.Prelude.{◌≡◌, ◌-◌};
ghost use Rattle.rules.specs.Numbers.{existing_only};
ghost use Rattle.words.specs.Masks.{next_set};

// Whether the mask has no set beyond the first `setcount`.
pub fn existing_only(setcount: usize, mask: u64) -> bool
    ensures { result ≡ existing_only setcount mask }
{
    if 64 <= setcount {
        return true;
    }
    mask >> setcount == 0
}

// The first place of the mask from one on, or 8.
pub fn next_set(mask: u32, from: u32) -> u32
    ensures { result ≡ next_set mask from }
{
    if 8 <= from {
        return from;
    }
    let rest = (mask % 256) >> from;
    if rest == 0 {
        return 8;
    }
    from + rest.trailing_zeros()
}

// A walk over the places of a mask's sets, from one place on.
#[derive(Clone, Copy)]
pub struct Places {
    pub mask: u32,
    pub from: u32,
}

// The places of a mask's sets, the lowest first.
pub fn places_of(mask: u32) -> Places
    ensures { result ≡ record { mask = mask; from = 0 } }
{
    Places { mask, from: 0 }
}

impl Iterator for Places {
    ghost use Rattle.std.specs.Iterator.{at_most};
    ghost use Rattle.words.specs.Places.{Walks};

    type Item = usize;

    ghost next_gives = { Walks };

    ghost remaining = { λ walk. at_most (8 - walk.from) };

    fn next(&mut self) -> Option<usize> {
        let place = next_set(self.mask, self.from);
        if 8 <= place {
            return None;
        }
        self.from = place + 1;
        Some(place as usize)
    }
}
