//! Worked examples: a small design with its pins, what names mean, and what is refused.
ghost use Rattle.std.specs.Prelude.{◌≡◌, false, All, AllPairs};
ghost use Rattle.std.specs.Str.{bytes_eq};
ghost use Rattle.elaborations.specs.Ports.{HasPortsOnce};

use crate::elaborate;
use bud_base::{Listed, PinId, Text};
use bud_syntax::{
    Assign, Dir, Instance, Link, LinkList, Module, NetDecl, Piece, Pieces, Port, Range,
};
use flat_design::Flat;
use module_nets::ElabFault;
use std::alloc::Global;
use std::process::Abort;
use std::test::Fail;

fn text(alloc: Global, name: &str) -> Result<Text, Fail> {
    Ok(Text::from_vec(Vec::from_slice(alloc, name.as_bytes())?))
}

/// The scalar ports of these names follow.
fn put_ports(alloc: Global, into: &mut Vec<Port>, names: &[&str], dir: Dir) -> Result<(), Fail> {
    for name in names {
        into.push(Port {
            name: text(alloc, name)?,
            dir,
            range: None,
        })?;
    }
    Ok(())
}

/// A module with scalar ports, and nothing in it.
fn module(
    alloc: Global,
    name: &str,
    leaf: bool,
    inputs: &[&str],
    outputs: &[&str],
) -> Result<Module, Fail> {
    let mut ports = Vec::new(alloc);
    put_ports(alloc, &mut ports, inputs, Dir::Input)?;
    put_ports(alloc, &mut ports, outputs, Dir::Output)?;
    Ok(Module {
        name: text(alloc, name)?,
        leaf,
        ports: Listed::from_vec(ports),
        nets: Listed::new(alloc),
        assigns: Listed::new(alloc),
        instances: Listed::new(alloc),
    })
}

fn net(alloc: Global, name: &str) -> Result<Pieces, Fail> {
    Ok(Listed::from_vec(vec![in alloc; Piece::Net(text(alloc, name)?)]?))
}

/// Links of these ports, in turn, to nets.
fn links(alloc: Global, ports: &[&str], nets: &[&str]) -> Result<LinkList, Fail> {
    let mut links = Vec::new(alloc);
    for (k, port) in ports.iter().enumerate() {
        if let Some(name) = nets.get(k) {
            links.push(Link::Named(text(alloc, port)?, net(alloc, name)?))?;
        }
    }
    Ok(Listed::from_vec(links))
}

/// An instance of a module is put into another.
fn put_instance(
    alloc: Global,
    into: &mut Module,
    kind: &str,
    name: &str,
    links: LinkList,
) -> Result<(), Fail> {
    into.instances.push(Instance {
        module: text(alloc, kind)?,
        name: text(alloc, name)?,
        links,
    })?;
    Ok(())
}

/// An instance of the cell `BUF` is put between two nets.
fn put_buffer(
    alloc: Global,
    into: &mut Module,
    name: &str,
    from: &str,
    to: &str,
) -> Result<(), Fail> {
    let links = links(alloc, &["A", "Z"], &[from, to])?;
    put_instance(alloc, into, "BUF", name, links)
}

fn put_assign(alloc: Global, into: &mut Module, left: &str, right: &str) -> Result<(), Fail> {
    into.assigns.push(Assign {
        left: net(alloc, left)?,
        right: net(alloc, right)?,
    })?;
    Ok(())
}

fn buffer(alloc: Global) -> Result<Module, Fail> {
    module(alloc, "BUF", true, &["A"], &["Z"])
}

fn assert_other(rt: &impl Abort, ports: &[Port], name: &[u8])
    ensures { All (λ p. bytes_eq name.now p.name ≡ false) ports.now }
{
    for port in ports {
        assert!(rt; name != port.name.as_slice());
    }
}

fn assert_apart(rt: &impl Abort, ports: &[Port])
    ensures { AllPairs (λ p q. bytes_eq p.name q.name ≡ false) ports.now }
{
    for k in 0..ports.len() {
        assert_other(rt, &ports[k + 1..], ports[k].name.as_slice());
    }
}

fn assert_ports_once(rt: &impl Abort, modules: &[Module])
    ensures { All HasPortsOnce modules.now }
{
    for module in modules {
        assert_apart(rt, module.ports.as_slice());
    }
}

fn flat(
    rt: &impl Abort,
    alloc: Global,
    modules: &[Module],
    top: Option<&str>,
) -> Result<Flat, ElabFault> {
    assert!(rt; modules.len() < 1000);
    assert_ports_once(rt, modules);
    match top {
        None => elaborate(alloc, modules, None),
        Some(name) => elaborate(alloc, modules, Some(name.as_bytes())),
    }
}

/// Whether a refusal is of this kind and carries this name.
fn is_fault(answer: &Result<Flat, ElabFault>, kind: &str, name: &str) -> bool {
    let (told, carried) = match answer {
        Err(ElabFault::NoTop(None)) => ("no top", b"".as_slice()),
        Err(ElabFault::NoTop(Some(name))) => ("no such top", name.as_slice()),
        Err(ElabFault::TwoDrivers(name)) => ("two drivers", name.as_slice()),
        Err(ElabFault::Recursive(name)) => ("recursive", name.as_slice()),
        _ => ("", b"".as_slice()),
    };
    told == kind && carried == name.as_bytes()
}

/// A register between two buffers.
fn core(alloc: Global) -> Result<Module, Fail> {
    let mut core = module(alloc, "core", false, &["ck", "i"], &["o"])?;
    put_buffer(alloc, &mut core, "b1", "i", "d")?;
    let pins = links(alloc, &["CK", "D", "Q"], &["ck", "d", "q"])?;
    put_instance(alloc, &mut core, "DFF", "r1", pins)?;
    put_buffer(alloc, &mut core, "b2", "q", "o")?;
    Ok(core)
}

/// A buffer in front of a core.
fn core_top(alloc: Global) -> Result<Module, Fail> {
    let mut top = module(alloc, "top", false, &["clk", "in"], &["out"])?;
    put_buffer(alloc, &mut top, "g", "in", "m")?;
    let ports = links(alloc, &["ck", "i", "o"], &["clk", "m", "out"])?;
    put_instance(alloc, &mut top, "core", "u", ports)?;
    Ok(top)
}

fn design_a(alloc: Global) -> Result<Vec<Module>, Fail> {
    let mut modules = Vec::new(alloc);
    modules.push(module(alloc, "DFF", true, &["CK", "D"], &["Q"])?)?;
    modules.push(buffer(alloc)?)?;
    modules.push(core(alloc)?)?;
    modules.push(core_top(alloc)?)?;
    Ok(modules)
}

fn assert_driver(rt: &impl Abort, flat: &Flat, to: u32, from: Option<PinId>) {
    assert!(rt; to < flat.pin_count());
    assert!(rt; flat.driver(PinId(to)) == from);
}

/// The pins have these names, from 0 on.
fn assert_pins(rt: &impl Abort, flat: &Flat, names: &[&str]) {
    assert_eq!(rt; flat.pins().len(), names.len());
    for (k, name) in names.iter().enumerate() {
        assert!(rt; k < 100);
        assert!(rt; flat.find_pin(name.as_bytes()) == Some(PinId(k as u32)));
    }
}

#[test]
fn pins_are_numbered_from_the_top_down(rt: HostRuntime) -> Result<(), Fail> {
    let modules = design_a(rt.alloc())?;
    let names = [
        "clk", "in", "out", "g/A", "g/Z", "u/ck", "u/i", "u/o", "u/b1/A", "u/b1/Z", "u/r1/CK",
        "u/r1/D", "u/r1/Q", "u/b2/A", "u/b2/Z",
    ];
    match flat(&rt, rt.alloc(), modules.as_slice(), None) {
        Ok(flat) => {
            assert_pins(&rt, &flat, &names);
            assert_driver(&rt, &flat, 8, Some(PinId(6)));
            assert_driver(&rt, &flat, 2, Some(PinId(7)));
            assert_driver(&rt, &flat, 0, None);
        }
        Err(_) => panic!(rt; "the design is refused"),
    }
    Ok(())
}

/// A top `\\t` with a vector `a`, and beside it a scalar whose identifier is `a[3]`.
fn alike(alloc: Global) -> Result<Module, Fail> {
    let mut top = module(alloc, "\\t", false, &["a[3]"], &[])?;
    top.ports.push(Port {
        name: text(alloc, "a")?,
        dir: Dir::Input,
        range: Some(Range { left: 3, right: 0 }),
    })?;
    put_buffer(alloc, &mut top, "p[0]", "a[3]", "y")?;
    Ok(top)
}

fn assert_alike(rt: &impl Abort, flat: &Flat) {
    let names = [
        "a\\[3\\]",
        "a[3]",
        "a[2]",
        "a[1]",
        "a[0]",
        "p\\[0\\]/A",
        "p[0]/Z",
    ];
    assert_pins(rt, flat, &names);
    assert!(rt; flat.find_place(b"p\\[0\\]") == Some(1));
    assert!(rt; flat.find_place(b"p[0]") == Some(1));
    assert_driver(rt, flat, 5, Some(PinId(0)));
}

#[test]
fn printed_names_come_before_plain_ones(rt: HostRuntime) -> Result<(), Fail> {
    let modules = vec![in rt.alloc(); buffer(rt.alloc())?, alike(rt.alloc())?]?;
    for name in ["\\t", "\\\\t"] {
        match flat(&rt, rt.alloc(), modules.as_slice(), Some(name)) {
            Ok(flat) => assert_alike(&rt, &flat),
            Err(_) => panic!(rt; "the top is refused"),
        }
    }
    Ok(())
}

/// A module in which an assign and a buffer drive one net.
fn driven_twice(alloc: Global) -> Result<Module, Fail> {
    let mut holder = module(alloc, "h", false, &["a"], &[])?;
    put_buffer(alloc, &mut holder, "x", "a", "n")?;
    put_assign(alloc, &mut holder, "n", "a")?;
    Ok(holder)
}

/// A module that holds an instance of a module with the input `a`.
fn holding(alloc: Global, name: &str, kind: &str) -> Result<Module, Fail> {
    let mut top = module(alloc, name, false, &["a"], &[])?;
    let ports = links(alloc, &["a"], &["a"])?;
    put_instance(alloc, &mut top, kind, "u", ports)?;
    Ok(top)
}

fn refused_modules(alloc: Global) -> Result<Vec<Module>, Fail> {
    let mut modules = Vec::new(alloc);
    modules.push(buffer(alloc)?)?;
    modules.push(driven_twice(alloc)?)?;
    modules.push(holding(alloc, "t", "h")?)?;
    modules.push(holding(alloc, "r", "r")?)?;
    Ok(modules)
}

fn assert_refused(rt: &impl Abort, alloc: Global, modules: &[Module]) {
    let table = [
        ("BUF", "no such top", "BUF"),
        ("absent", "no such top", "absent"),
        ("h", "two drivers", "n"),
        ("t", "two drivers", "u/n"),
        ("r", "recursive", "r"),
    ];
    for (name, kind, carried) in table {
        let answer = flat(rt, alloc, modules, Some(name));
        assert!(rt; is_fault(&answer, kind, carried));
    }
}

#[test]
fn tops_and_drivers_are_refused(rt: HostRuntime) -> Result<(), Fail> {
    let empty = flat(&rt, rt.alloc(), &[], None);
    assert!(rt; is_fault(&empty, "no top", ""));
    let modules = refused_modules(rt.alloc())?;
    assert_refused(&rt, rt.alloc(), modules.as_slice());
    Ok(())
}

/// A module that holds an instance of another, without ports.
fn around(alloc: Global, name: &str, inner: &str) -> Result<Module, Fail> {
    let mut outer = module(alloc, name, false, &[], &[])?;
    put_instance(alloc, &mut outer, inner, "u", Listed::new(alloc))?;
    Ok(outer)
}

/// Modules each of which holds the one before it, the last with so many levels below it.
fn nested(alloc: Global, levels: u32) -> Result<Vec<Module>, Fail> {
    let mut modules = vec![in alloc; module(alloc, "m0", false, &[], &[])?]?;
    for k in 0..levels {
        let inner = format!(in alloc; "m{k}")?;
        let number = u64::from(k) + 1;
        let name = format!(in alloc; "m{number}")?;
        modules.push(around(alloc, name.as_str(), inner.as_str())?)?;
    }
    Ok(modules)
}

#[test]
fn levels_are_limited(rt: HostRuntime) -> Result<(), Fail> {
    let most = nested(rt.alloc(), 256)?;
    match flat(&rt, rt.alloc(), most.as_slice(), None) {
        Ok(flat) => assert_eq!(rt; flat.places().len(), 257),
        Err(_) => panic!(rt; "256 levels are refused"),
    }
    let more = nested(rt.alloc(), 257)?;
    match flat(&rt, rt.alloc(), more.as_slice(), None) {
        Err(ElabFault::TooDeep(count)) => assert_eq!(rt; count, 257),
        _ => panic!(rt; "257 levels are taken"),
    }
    Ok(())
}

/// A top of one port, with a net of so many bits.
fn wide(alloc: Global, bits: u32) -> Result<Vec<Module>, Fail> {
    let mut top = module(alloc, "t", false, &["a"], &[])?;
    top.nets.push(NetDecl {
        name: text(alloc, "w")?,
        range: Some(Range {
            left: bits,
            right: 1,
        }),
        constant: false,
    })?;
    Ok(vec![in alloc; top]?)
}

#[test]
fn sizes_are_limited(rt: HostRuntime) -> Result<(), Fail> {
    let most = wide(rt.alloc(), 4194303)?;
    match flat(&rt, rt.alloc(), most.as_slice(), None) {
        Ok(flat) => assert_eq!(rt; flat.pin_count(), 1),
        Err(_) => panic!(rt; "4194304 net bits are refused"),
    }
    let more = wide(rt.alloc(), 4194304)?;
    match flat(&rt, rt.alloc(), more.as_slice(), None) {
        Err(ElabFault::TooLarge(count)) => assert_eq!(rt; count, 4194305),
        _ => panic!(rt; "4194305 net bits are taken"),
    }
    Ok(())
}

/// An assign to each net from that of the number before.
fn put_chain(alloc: Global, into: &mut Module, count: u32) -> Result<(), Fail> {
    for k in 0..count {
        let right = format!(in alloc; "n{k}")?;
        let number = u64::from(k) + 1;
        let left = format!(in alloc; "n{number}")?;
        put_assign(alloc, into, left.as_str(), right.as_str())?;
    }
    Ok(())
}

/// A chain of assigns, and two assigns in a ring.
fn assigned(alloc: Global) -> Result<Vec<Module>, Fail> {
    let mut top = module(alloc, "t", false, &["n0"], &["n1000", "x"])?;
    put_chain(alloc, &mut top, 1000)?;
    put_assign(alloc, &mut top, "x", "y")?;
    put_assign(alloc, &mut top, "y", "x")?;
    Ok(vec![in alloc; top]?)
}

#[test]
fn assigns_are_followed(rt: HostRuntime) -> Result<(), Fail> {
    let modules = assigned(rt.alloc())?;
    match flat(&rt, rt.alloc(), modules.as_slice(), None) {
        Ok(flat) => {
            assert_driver(&rt, &flat, 1, Some(PinId(0)));
            assert_driver(&rt, &flat, 2, None);
        }
        Err(_) => panic!(rt; "the assigns are refused"),
    }
    Ok(())
}
