ghost use Rattle.bud_base.specs.Soundness.{IsListable};
ghost use Rattle.design_layers.specs.Checking.{IsCheckedAnswer};

use bud_design::Layered;
use layer_theory::LayerFault;

/// The layering, once its problem is checked.
pub fn checked(layered: Layered) -> Result<Layered, LayerFault>
    requires { IsListable layered.problem }
    ensures { IsCheckedAnswer layered result }
{
    match layered.problem.check() {
        Ok(()) => Ok(layered),
        Err(_) => Err(LayerFault::NoMemory),
    }
}
