ghost use Rattle.std.specs.Prelude.{◌≡◌, ◌<◌, Some, None, length, IfOk};
ghost use Rattle.bud_design.specs.Names.{bit_name};
ghost use Rattle.module_nets.specs.NetTables.{bit_at};
ghost use Rattle.module_nets.specs.Nets.{all_bits};
ghost use Rattle.module_nets.specs.Refusals.{Answers, IsMemory, IsRefusal};
ghost use Rattle.module_nets.specs.declared.faults.ElabFault.TheVariants.{TwoDrivers};
ghost use Rattle.net_drivers.specs.Drivers.{local_wires, twice_driven};
ghost use Rattle.net_drivers.specs.Phases.{IsClean};
ghost use Rattle.hierarchy.specs.Faults.{bit_below, two_drivers};

use bud_base::Text;
use design_wires::LocalWires;
use module_nets::{ElabFault, Library, NetTable, printed_below};
use net_drivers::{Wiring, wire_module};
use std::alloc::Global;

/// A name with the number of a bit behind it, in brackets, where the bit has one.
fn with_bit(alloc: Global, name: Text, bit: Option<u32>) -> Result<Text, ElabFault>
    ensures named { IfOk result (λ text. text ≡ bit_name name bit) }
    ensures memory { IsMemory result }
{
    let Some(number) = bit else {
        return Ok(name);
    };
    let mut text = name;
    let Ok(digits) = format!(in alloc; "[{number}]") else {
        return Err(ElabFault::NoMemory);
    };
    if text.extend_from_slice(digits.as_bytes()).is_err() {
        return Err(ElabFault::NoMemory);
    }
    Ok(text)
}

/// The printed name of the net bit of a number, below a path.
fn bit_text(
    alloc: Global,
    nets: &NetTable<'_>,
    path: &[Text],
    number: usize,
) -> Result<Text, ElabFault>
    requires { number < length (all_bits nets.now.module.now) }
    ensures named { IfOk result (λ text. text ≡ bit_below path.now (bit_at nets.now.module.now number)) }
    ensures memory { IsMemory result }
{
    let Some((name, bit)) = nets.bit_at(number) else {
        return Err(ElabFault::NoMemory);
    };
    let text = printed_below(alloc, path, name)?;
    with_bit(alloc, text, bit)
}

/// The refusal of a net bit that more than one thing drives, by its number.
fn twice(alloc: Global, nets: &NetTable<'_>, path: &[Text], number: usize) -> ElabFault
    requires { number < length (all_bits nets.now.module.now) }
    ensures { IsRefusal (Some (TwoDrivers (bit_below path.now (bit_at nets.now.module.now number)))) result }
{
    match bit_text(alloc, nets, path, number) {
        Ok(text) => ElabFault::TwoDrivers(text),
        Err(_) => ElabFault::NoMemory,
    }
}

/// The wires of a module whose body isn't refused; TwoDrivers for the first net bit that more than one thing drives, its
/// name below the path of the module's instance. `kind` is the module's number.
pub fn local_wires(
    alloc: Global,
    library: &Library<'_>,
    nets: &NetTable<'_>,
    path: &[Text],
    kind: usize,
) -> Result<LocalWires, ElabFault>
    requires clean { IsClean library.now.modules.now nets.now.module.now }
    ensures answer { Answers (two_drivers library.now.modules.now nets.now.module.now path.now) result }
    ensures once { IfOk result (λ wires. twice_driven library.now.modules.now nets.now.module.now ≡ None) }
    ensures wires { IfOk result (λ wires. wires ≡ local_wires 4194304 library.now.modules.now nets.now.module.now) }
{
    match wire_module(alloc, library, nets, kind) {
        Err(_) => Err(ElabFault::NoMemory),
        Ok(Wiring::Twice(number)) => Err(twice(alloc, nets, path, number as usize)),
        Ok(Wiring::Wired(wires)) => Ok(LocalWires::from_vec(wires)),
    }
}
