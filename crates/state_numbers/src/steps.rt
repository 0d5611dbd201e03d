ghost use Rattle.std.specs.Prelude.{◌≡◌};
ghost use Rattle.bud_design.specs.Layers.{steps_before as comes_before};

use bud_design::Met;

/// Whether the steps come before others, from the first exception to the last.
pub fn steps_before(steps: &[Met], others: &[Met]) -> bool
    ensures { result ≡ comes_before steps.now others.now }
{
    let mut place = 0;
    while place < steps.len() && place < others.len() {
        if steps[place].steps != others[place].steps {
            return steps[place].steps < others[place].steps;
        }
        place += 1;
    }
    false
}
