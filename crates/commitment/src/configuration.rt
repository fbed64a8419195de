// Step 10: the configuration called.
ghost use Rattle.std.specs.Prelude.{◌≡◌, ◌<◌, ◌≤◌, min, length, take, slice_index, MatchOption};
ghost use Rattle.rules.specs.Setpoint.{covers};
ghost use Rattle.rules.specs.Configuration.{mask_called, since_after};
ghost use Rattle.rules.specs.Share.{capacity};
ghost use Rattle.commitment.specs.Choice.{capacities, usable_of, usable_covering_of, called_covers, none, greater, first_covering_of, greatest_usable_of, chosen_of};

use gensets::share::capacity;
use rules::station::{GenSet, Station};
use station_fields::ranges;
use std::array::from_fn;

// A configuration's mask of sets by its number; 0 and a number past the table call no set.
pub fn mask_called(configs: [u8; 64], called: usize) -> u32
    ensures value { result ≡ mask_called configs called }
    ensures upper_bound { result < 256 }
{
    if called == 0 {
        return 0;
    }
    if ranges::CONFIGURATIONS_MOST < called {
        return 0;
    }
    configs[called - 1] as u32
}

// A capacity of 32 bits is compared as it is: a float has room for it.
fn covers(held: f64, cap: u32) -> bool
    ensures { result ≡ covers held cap }
{
    held <= cap as f64
}

// Some set, and none that is barred: due or in Service. Which sets are so is the same for every configuration of a second, so their
// mask is made once.
fn usable(mask: u32, barred: u32) -> bool
    ensures { result ≡ usable_of barred mask }
{
    (0 < mask) & (mask & barred == 0)
}

// The capacity of a mask; that of a station's sets always fits.
pub fn capacity_fitting(sets: [GenSet; 8], mask: u32) -> u32
    ensures { result ≡ min (capacity sets mask) 4_294_967_295 }
{
    // most places of a table have no configuration
    if mask == 0 {
        return 0;
    }
    capacity(sets, mask).min(4_294_967_295) as u32
}

// Each configuration's capacity: the same in every second of a station, so that many seconds ask it once.
pub fn capacities(sets: [GenSet; 8], configs: [u8; 64]) -> [u32; 64]
    ensures { result ≡ capacities sets configs }
{
    from_fn(|i| capacity_fitting(sets, configs[i] as u32))
}

// A usable configuration's number and its capacity; 0 and 0 for none.
#[derive(Clone, Copy)]
pub(crate) struct Greatest {
    pub(crate) number: usize,
    pub(crate) most: u32,
}

// The greater of the greatest so far and the configuration of a number; of equals the one so far.
fn greater(greatest: Greatest, barred: u32, mask: u32, cap: u32, number: usize) -> Greatest
    ensures { result ≡ greater barred greatest mask cap number }
{
    if !usable(mask, barred) {
        return greatest;
    }
    if greatest.most < cap {
        return Greatest { number, most: cap };
    }
    greatest
}

// What a second chooses among: each configuration's mask and its capacity, and the mask of the barred sets.
#[derive(Clone, Copy)]
struct Choices<'a> {
    configs: &'a [u8; 64],
    caps: &'a [u32; 64],
    barred: u32,
    ghost whole: { length configs.now ≡ 64 },
}

impl Choices<'_> {
    // Whether the configuration at a place is usable and covers what is held.
    fn covers_at(&self, place: usize, held: f64) -> bool
        requires { place < 64 }
        ensures { result ≡ usable_covering_of self.now.barred held (slice_index self.now.configs.now place) (slice_index self.now.caps.now place) }
    {
        usable(self.configs[place] as u32, self.barred) & covers(held, self.caps[place])
    }

    // The number of the first usable configuration that covers what is held.
    fn first_covering(&self, configcount: usize, held: f64) -> Option<usize>
        requires { configcount ≤ 64 }
        ensures { MatchOption result (first_covering_of self.now.caps.now self.now.barred held 0 (take configcount self.now.configs.now) ≡ 0) (λ number. (0 < number) × (number ≡ first_covering_of self.now.caps.now self.now.barred held 0 (take configcount self.now.configs.now))) }
    {
        for place in 0..configcount {
            if self.covers_at(place, held) {
                return Some(place + 1);
            }
        }
        None
    }

    // The number of the usable configuration of greatest capacity, the first of equals, or 0.
    fn greatest_usable(&self, configcount: usize) -> usize
        requires { configcount ≤ 64 }
        ensures { result ≡ greatest_usable_of self.now.caps.now self.now.barred none 0 (take configcount self.now.configs.now) }
    {
        let mut greatest = Greatest { number: 0, most: 0 };
        for place in 0..configcount {
            let mask = self.configs[place] as u32;
            greatest = greater(greatest, self.barred, mask, self.caps[place], place + 1);
        }
        greatest.number
    }

    // Whether the called configuration is usable and covers what is held; 0 and a number past the table are no configuration.
    fn called_covers(&self, called: usize, held: f64) -> bool
        ensures { result ≡ called_covers self.now.configs.now self.now.caps.now self.now.barred held called }
    {
        if called == 0 {
            return false;
        }
        if called > ranges::CONFIGURATIONS_MOST {
            return false;
        }
        self.covers_at(called - 1, held)
    }
}

// The number of the configuration called in a second, after `called`, which is called since second `since`, by the mask of the
// barred sets and each configuration's capacity.
pub fn chosen(
    st: Station,
    caps: &[u32; 64],
    barred: u32,
    held: f64,
    called: usize,
    since: u32,
    second: u32,
) -> usize
    ensures { result ≡ chosen_of st caps.now barred held called since second }
{
    // the table alone: by the address of its place in `st` all of the station would be copied
    let configs = st.configs;
    let choices = Choices {
        configs: &configs,
        caps,
        barred,
    };
    let recent = second.saturating_sub(since) < st.control.minseconds;
    if choices.called_covers(called, held) & recent {
        return called;
    }
    let configcount = st.configcount.min(ranges::CONFIGURATIONS_MOST);
    match choices.first_covering(configcount, held) {
        Some(first) => first,
        None => choices.greatest_usable(configcount),
    }
}

// "The since-second changes only when the number does."
pub fn since_after(call: usize, called: usize, since: u32, now: u32) -> u32
    ensures { result ≡ since_after call called since now }
{
    if call == called { since } else { now }
}
