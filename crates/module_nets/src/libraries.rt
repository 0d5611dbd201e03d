ghost use Rattle.std.specs.Prelude.{◌≡◌, ◌<◌, length, map, [], None, IfOk};
ghost use Rattle.std.specs.Option.{option_map};
ghost use Rattle.bud_design.specs.Lists.{first_again};
ghost use Rattle.module_nets.specs.Headers.{module_number};
ghost use Rattle.module_nets.specs.Nets.{module_called};
ghost use Rattle.module_nets.specs.Refusals.{Answers, IsMemory};
ghost use Rattle.module_nets.specs.Tables.{known, IsNumbered};
ghost use Rattle.module_nets.specs.Tops.{module_twice, module_at};

use crate::faults::ElabFault;
use crate::guesses::kept;
use crate::headers::Header;
use crate::names::printed;
use crate::tables::{Names, Places, first_again, known, known_near, numbered};
use bud_syntax::{Instance, Module};
use std::alloc::Global;

/// The modules of a netlist by name, no two of one name.
#[derive(Drop)]
pub struct Library<'m> {
    pub modules: &'m [Module],
    headers: Vec<Header<'m>>,
    places: Places<'m>,
    /// Guesses at the numbers of the modules of instances, for each module.
    guesses: Vec<Vec<u32>>,
    ghost numbered: { IsNumbered (λ m. m.name) modules.now (known places) },
    ghost headed: { map (λ h. h.module.now) headers.items ≡ modules.now },
    ghost apart: { first_again [] (map (λ m. m.name) modules.now) ≡ None },
}

/// The headers of modules.
fn all_headers<'m>(alloc: Global, modules: &'m [Module]) -> Result<Vec<Header<'m>>, ElabFault>
    ensures headed { IfOk result (λ headers. map (λ h. h.module.now) headers.items ≡ modules.now) }
    ensures memory { IsMemory result }
{
    let mut headers = Vec::new(alloc);
    for module in modules {
        let header = Header::new(alloc, module)?;
        if headers.push(header).is_err() {
            return Err(ElabFault::NoMemory);
        }
    }
    Ok(headers)
}

/// The numbers of the modules of instances; 0 where there is none.
fn module_numbers(
    alloc: Global,
    places: &Places<'_>,
    instances: &[Instance],
) -> Result<Vec<u32>, ElabFault>
    ensures { IsMemory result }
{
    let mut numbers = Vec::new(alloc);
    for instance in instances {
        let number = known(places, instance.module.as_slice()).unwrap_or(0);
        if numbers.push(kept(number)).is_err() {
            return Err(ElabFault::NoMemory);
        }
    }
    Ok(numbers)
}

/// The numbers of the modules of the instances of each module.
fn all_numbers(
    alloc: Global,
    places: &Places<'_>,
    modules: &[Module],
) -> Result<Vec<Vec<u32>>, ElabFault>
    ensures { IsMemory result }
{
    let mut all = Vec::new(alloc);
    for module in modules {
        let numbers = module_numbers(alloc, places, module.instances.as_slice())?;
        if all.push(numbers).is_err() {
            return Err(ElabFault::NoMemory);
        }
    }
    Ok(all)
}

/// Refuses the first module whose name stands before.
fn refuse_twice(alloc: Global, modules: &[Module]) -> Result<(), ElabFault>
    ensures { Answers (module_twice modules.now) result }
{
    let mut names = Names::new(alloc);
    match first_again(&mut names, modules)? {
        None => Ok(()),
        Some(name) => Err(ElabFault::ModuleTwice(printed(alloc, name)?)),
    }
}

impl<'m> Library<'m> {
    /// The library of a netlist; ModuleTwice for the first module whose name stands before.
    pub fn new(alloc: Global, modules: &'m [Module]) -> Result<Library<'m>, ElabFault>
        ensures answer { Answers (module_twice modules.now) result }
        ensures modules { IfOk result (λ library. library.modules.now ≡ modules.now) }
    {
        refuse_twice(alloc, modules)?;
        let headers = all_headers(alloc, modules)?;
        let places = numbered(alloc, modules)?;
        let guesses = all_numbers(alloc, &places, modules)?;
        Ok(Library {
            modules,
            headers,
            places,
            guesses,
        })
    }

    /// The number of the module that an instance of a module may well be of. No answer depends on it: names that it doesn't fit are
    /// looked up.
    pub fn guess(&self, number: usize, instance: usize) -> usize {
        if number < self.guesses.len() && instance < self.guesses[number].len() {
            self.guesses[number][instance] as usize
        } else {
            0
        }
    }

    /// The place of the module of this name, which may well be at the place `near`.
    pub fn find(&self, name: &[u8], near: usize) -> Option<usize>
        ensures number { result ≡ module_number self.now.modules.now name.now }
    {
        known_near(&self.places, name, near)
    }

    /// The header of the module at a place.
    pub fn header(&self, place: usize) -> &Header<'m>
        requires { place < length self.now.modules.now }
        ensures { result.now.module.now ≡ module_at self.now.modules.now place }
    {
        &self.headers[place]
    }

    /// The header of the module of this name, which may well be at the place `near`.
    pub fn child(&self, name: &[u8], near: usize) -> Option<&Header<'m>>
        ensures { option_map (λ h. h.now.module.now) result ≡ module_called self.now.modules.now name.now }
    {
        let place = self.find(name, near)?;
        Some(&self.headers[place])
    }
}
