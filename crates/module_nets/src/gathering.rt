ghost use Rattle.std.specs.Prelude.{◌≡◌, ◌++◌, ◌∷◌, [], ℕ, List, None, map, IfOk, OnOk};
ghost use Rattle.std.specs.List.{flat_map};
ghost use Rattle.module_nets.specs.Gathering.{Gathers, with_uses, used_by_pieces, used_by_link, used_by_instance, used_by_assign};
ghost use Rattle.module_nets.specs.Nets.{names_if, piece_net};
ghost use Rattle.module_nets.specs.Numbers.{Net, net_of};
ghost use Rattle.module_nets.specs.Refusals.{IsMemory};
ghost use Rattle.module_nets.specs.Tables.{known};

use crate::faults::ElabFault;
use crate::guesses::Guesses;
use crate::headers::range_width;
use crate::keys::Key;
use crate::tables::{enter, enter_new, number_of};
use bud_syntax::{Assign, Instance, Link, NetDecl, Piece, Port, Range};
use indexmap::IndexMap;
use std::alloc::Global;

/// Where the bits of a net stand among all bits of its module.
#[derive(Clone, Copy)]
pub struct NetPlace {
    /// None: the net is a scalar.
    pub range: Option<Range>,
    /// The number of its first bit.
    pub first: usize,
}

/// The nets of a module as they are gathered.
#[derive(Drop)]
pub struct Gathered<'m> {
    pub places: IndexMap<Key<'m>, NetPlace>,
    /// Their names in the order of their bits.
    pub names: Vec<&'m [u8]>,
    /// How many bits they have, or `usize::MAX` where they have more.
    pub bits: usize,
    /// How many bits those have that are no ports, or `usize::MAX` where they have more.
    pub local: usize,
    pub guesses: Guesses,
}

/// What uses nets by name.
pub trait NetUse {
    ghost names_of: { Self → List (List ℕ) };

    fn gather<'m>(&'m self, into: &mut Gathered<'m>) -> Result<(), ElabFault>
        ensures gathered { (ports nets : List Net) → Gathers ports nets into.old → OnOk result (Gathers ports (with_uses ports nets (names_of self.now)) into.new) }
        ensures memory { IsMemory result };
}

impl<'m> Gathered<'m> {
    /// No nets yet, with room for so many.
    pub fn new(alloc: Global, count: usize) -> Result<Gathered<'m>, ElabFault>
        ensures none { IfOk result (Gathers [] []) }
        ensures memory { IsMemory result }
    {
        let Ok(places) = IndexMap::with_capacity(alloc, count) else {
            return Err(ElabFault::NoMemory);
        };
        Ok(Gathered {
            places,
            names: Vec::new(alloc),
            bits: 0,
            local: 0,
            guesses: Guesses::new(alloc),
        })
    }

    /// Adds a net behind the others.
    fn put(&mut self, name: &'m [u8], range: Option<Range>) -> Result<(), ElabFault>
        ensures ports { (ports : List Net) → Gathers ports [] self.old → OnOk result (Gathers (ports ++ net_of name.now range ∷ []) [] self.new) }
        ensures memory { IsMemory result }
    {
        let first = self.bits;
        enter(&mut self.places, name, NetPlace { range, first })?;
        if self.names.push(name).is_err() {
            return Err(ElabFault::NoMemory);
        }
        self.bits = first.saturating_add(range_width(range));
        Ok(())
    }

    /// Adds a net that is no port.
    fn put_local(&mut self, name: &'m [u8], range: Option<Range>) -> Result<(), ElabFault>
        ensures nets { (ports nets : List Net) → Gathers ports nets self.old → OnOk result (Gathers ports (nets ++ net_of name.now range ∷ []) self.new) }
        ensures memory { IsMemory result }
    {
        let width = range_width(range);
        let first = self.bits;
        enter(&mut self.places, name, NetPlace { range, first })?;
        if self.names.push(name).is_err() {
            return Err(ElabFault::NoMemory);
        }
        self.bits = first.saturating_add(width);
        self.local = self.local.saturating_add(width);
        Ok(())
    }

    /// Adds the ports of a module.
    pub fn put_ports(&mut self, ports: &'m [Port]) -> Result<(), ElabFault>
        ensures ports { Gathers [] [] self.old → OnOk result (Gathers (map (λ p. net_of p.name p.range) ports.now) [] self.new) }
        ensures memory { IsMemory result }
    {
        for port in ports {
            self.put(port.name.as_slice(), port.range)?;
        }
        Ok(())
    }

    /// Adds the declared nets of a module.
    pub fn put_nets(&mut self, nets: &'m [NetDecl]) -> Result<(), ElabFault>
        ensures nets { (ports : List Net) → Gathers ports [] self.old → OnOk result (Gathers ports (map (λ n. net_of n.name n.range) nets.now) self.new) }
        ensures memory { IsMemory result }
    {
        for net in nets {
            self.put_local(net.name.as_slice(), net.range)?;
        }
        Ok(())
    }

    /// Adds a net that is used, unless it is there.
    fn put_use(&mut self, name: &'m [u8]) -> Result<(), ElabFault>
        ensures nets { (ports nets : List Net) → Gathers ports nets self.old → OnOk result (Gathers ports (with_uses ports nets (name.now ∷ [])) self.new) }
        ensures memory { IsMemory result }
    {
        let number = number_of(&self.places, name);
        let next = self.places.len();
        self.guess(number.unwrap_or(next))?;
        if number.is_some() {
            return Ok(());
        }
        self.put_new(name)
    }

    /// Adds a net that is used and isn't there: a scalar.
    fn put_new(&mut self, name: &'m [u8]) -> Result<(), ElabFault>
        requires { known self.old.places name.now ≡ None }
        ensures nets { (ports nets : List Net) → Gathers ports nets self.old → OnOk result (Gathers ports (nets ++ net_of name.now None ∷ []) self.new) }
        ensures memory { IsMemory result }
    {
        let first = self.bits;
        let place = NetPlace { range: None, first };
        enter_new(&mut self.places, name, place)?;
        if self.names.push(name).is_err() {
            return Err(ElabFault::NoMemory);
        }
        self.bits = first.saturating_add(1);
        self.local = self.local.saturating_add(1);
        Ok(())
    }

    /// Adds a guess at the net of a piece.
    fn guess(&mut self, net: usize) -> Result<(), ElabFault>
        ensures same { (ports nets : List Net) → Gathers ports nets self.old → OnOk result (Gathers ports nets self.new) }
        ensures places { OnOk result (self.new.places ≡ self.old.places) }
        ensures memory { IsMemory result }
    {
        self.guesses.put_piece(net)
    }

    /// Begins the guesses of a link.
    fn begin_link(&mut self) -> Result<(), ElabFault>
        ensures same { (ports nets : List Net) → Gathers ports nets self.old → OnOk result (Gathers ports nets self.new) }
        ensures memory { IsMemory result }
    {
        self.guesses.put_link()
    }

    /// Begins the guesses of an instance.
    fn begin_instance(&mut self) -> Result<(), ElabFault>
        ensures same { (ports nets : List Net) → Gathers ports nets self.old → OnOk result (Gathers ports nets self.new) }
        ensures memory { IsMemory result }
    {
        self.guesses.put_instance()
    }

    /// Adds the nets that are used, unless they are there.
    pub fn put_uses<T: NetUse>(&mut self, items: &'m [T]) -> Result<(), ElabFault>
        ensures nets { (ports nets : List Net) → Gathers ports nets self.old → OnOk result (Gathers ports (with_uses ports nets (flat_map T.names_of items.now)) self.new) }
        ensures memory { IsMemory result }
    {
        for item in items {
            item.gather(self)?;
        }
        Ok(())
    }
}

impl NetUse for Piece {
    ghost names_of = { λ x. names_if (piece_net x) };

    fn gather<'m>(&'m self, into: &mut Gathered<'m>) -> Result<(), ElabFault> {
        match self {
            Piece::Net(name) => into.put_use(name.as_slice()),
            Piece::Bit(name, _) => into.put_use(name.as_slice()),
            Piece::Part(name, _, _) => into.put_use(name.as_slice()),
            Piece::Const(_) => into.guess(0),
        }
    }
}

impl NetUse for Link {
    ghost names_of = { used_by_link };

    fn gather<'m>(&'m self, into: &mut Gathered<'m>) -> Result<(), ElabFault> {
        into.begin_link()?;
        match self {
            Link::Named(_, pieces) => into.put_uses(pieces.as_slice()),
            Link::Placed(pieces) => into.put_uses(pieces.as_slice()),
        }
    }
}

impl NetUse for Instance {
    ghost names_of = { used_by_instance };

    fn gather<'m>(&'m self, into: &mut Gathered<'m>) -> Result<(), ElabFault> {
        into.begin_instance()?;
        into.put_uses(self.links.as_slice())
    }
}

impl NetUse for Assign {
    ghost names_of = { used_by_assign };

    fn gather<'m>(&'m self, into: &mut Gathered<'m>) -> Result<(), ElabFault> {
        into.put_uses(self.left.as_slice())?;
        into.put_uses(self.right.as_slice())
    }
}
