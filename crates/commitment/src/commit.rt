// Steps 9 and 10 together.
ghost use Rattle.commitment.specs.Commit.{CommittedBy};

use crate::configuration::chosen;
use crate::setpoint::{held_after, wanted_for};
use rules::run::Watts;
use rules::station::Station;

// What steps 9 and 10 come to: the setpoint held, and the number of the configuration called.
#[derive(Clone, Copy)]
pub struct Committed {
    pub held: f64,
    pub call: usize,
}

// Steps 9 and 10, of a second's watts: where the mask has the sets that are due or in Service, and the table has each configuration's
// capacity.
pub fn commit(
    st: Station,
    caps: &[u32; 64],
    barred: u32,
    setpoint: Option<f64>,
    called: usize,
    since: u32,
    second: u32,
    watts: Watts,
    sheddable: u32,
) -> Committed
    ensures { CommittedBy st caps.now barred setpoint called since second watts sheddable result }
{
    let rest = watts
        .load
        .saturating_sub(watts.shed)
        .saturating_sub(watts.solar);
    let wanted = wanted_for(st.control, rest, watts.solar, watts.shed, sheddable);
    let held = held_after(st.control.k, setpoint, wanted);
    let call = chosen(st, caps, barred, held, called, since, second);
    Committed { held, call }
}
