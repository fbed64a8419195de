// What a second is handed, of numbers that have three for each.
ghost use Rattle.std.specs.Prelude.{◌≡◌};
ghost use Rattle.admission.specs.Admission.{first_inputs};

use rules::run::Inputs;

// The first second's inputs, or zeros where fewer than three numbers are left.
pub fn first_inputs(inputs: &[u32]) -> Inputs
    ensures { result ≡ first_inputs inputs.now }
{
    match inputs {
        [load, solar, sheddable, ..] => Inputs {
            load: *load,
            solar: *solar,
            sheddable: *sheddable,
        },
        _ => Inputs {
            load: 0,
            solar: 0,
            sheddable: 0,
        },
    }
}
