// Step 2: the load that the sets On keep.
ghost use Rattle.std.specs.Prelude.{◌≡◌};
ghost use Rattle.rules.specs.Flows.{floor_load};

use gensets::share::capacity;
use rules::station::Station;

// The floor load of the sets of a mask. The capacity's hundreds are worked apart from what is left of it, because ratings and a
// minimum load that no file gives may have a product beyond 64 bits.
pub fn floor_load(st: Station, mask: u32) -> u64
    ensures { result ≡ floor_load st mask }
{
    let cap = capacity(st.sets, mask);
    let minload = st.control.minload as u64;
    cap / 100 * minload + cap % 100 * minload / 100
}
