use crate::{ElabFault, Library, enter, printed, printed_below, top};
use bud_base::{Listed, Text};
use bud_syntax::{Assign, Dir, Instance, Link, Module, NetDecl, Piece, Port, Range};
use std::alloc::Global;
use std::process::Abort;
use std::test::Fail;

fn text(alloc: Global, bytes: &[u8]) -> Result<Text, Fail> {
    Ok(Text::from_vec(Vec::from_slice(alloc, bytes)?))
}

fn port(alloc: Global, name: &[u8], dir: Dir, range: Option<Range>) -> Result<Port, Fail> {
    Ok(Port {
        name: text(alloc, name)?,
        dir,
        range,
    })
}

fn link(alloc: Global, name: &[u8], piece: Piece) -> Result<Link, Fail> {
    Ok(Link::Named(text(alloc, name)?, Listed::from_vec(vec![in alloc; piece]?)))
}

/// A cell `c` with the input `i` and the output `o`.
fn cell(alloc: Global) -> Result<Module, Fail> {
    let ports = vec![in alloc;
        port(alloc, b"i", Dir::Input, None)?,
        port(alloc, b"o", Dir::Output, None)?,
    ]?;
    Ok(Module {
        name: text(alloc, b"c")?,
        leaf: true,
        ports: Listed::from_vec(ports),
        nets: Listed::new(alloc),
        assigns: Listed::new(alloc),
        instances: Listed::new(alloc),
    })
}

/// A module `m` with the input `a[1:0]`, the output `y`, a cell `u` from a bit of `a` to the implicit net `w`, and `y = w`.
fn holder(alloc: Global, bit: u32) -> Result<Module, Fail> {
    let range = Some(Range { left: 1, right: 0 });
    let ports = vec![in alloc;
        port(alloc, b"a", Dir::Input, range)?,
        port(alloc, b"y", Dir::Output, None)?,
    ]?;
    let links = vec![in alloc;
        link(alloc, b"i", Piece::Bit(text(alloc, b"a")?, bit))?,
        link(alloc, b"o", Piece::Net(text(alloc, b"w")?))?,
    ]?;
    let instance = Instance {
        module: text(alloc, b"c")?,
        name: text(alloc, b"u")?,
        links: Listed::from_vec(links),
    };
    let assign = Assign {
        left: Listed::from_vec(vec![in alloc; Piece::Net(text(alloc, b"y")?)]?),
        right: Listed::from_vec(vec![in alloc; Piece::Net(text(alloc, b"w")?)]?),
    };
    Ok(Module {
        name: text(alloc, b"m")?,
        leaf: false,
        ports: Listed::from_vec(ports),
        nets: Listed::<NetDecl>::new(alloc),
        assigns: Listed::from_vec(vec![in alloc; assign]?),
        instances: Listed::from_vec(vec![in alloc; instance]?),
    })
}

/// The count behind the top as it is entered, 3 before it, or the printed name in the refusal.
fn counted(alloc: Global, modules: &[Module]) -> Result<usize, ElabFault> {
    let library = Library::new(alloc, modules)?;
    let number = top(alloc, &library, None)?;
    if library.modules.len() <= number {
        return Ok(0);
    }
    let path = Vec::<Text>::new(alloc);
    let above = Vec::<usize>::new(alloc);
    let entered = enter(
        alloc,
        &library,
        number,
        path.as_slice(),
        above.as_slice(),
        3,
    )?;
    Ok(entered.count)
}

#[test]
fn top_is_entered(rt: HostRuntime) -> Result<(), Fail> {
    let modules = vec![in rt.alloc(); cell(rt.alloc())?, holder(rt.alloc(), 1)?]?;
    match counted(rt.alloc(), modules.as_slice()) {
        Ok(count) => assert_eq!(rt; count, 6),
        Err(_) => assert!(rt; false),
    }
    Ok(())
}

/// The name that a refusal carries: of a select, or of a module that stands twice.
fn name_in(fault: &ElabFault) -> &[u8] {
    match fault {
        ElabFault::Select(name) | ElabFault::ModuleTwice(name) => name.as_slice(),
        _ => b"".as_slice(),
    }
}

#[test]
fn refusals_carry_names(rt: HostRuntime) -> Result<(), Fail> {
    let outside = vec![in rt.alloc(); cell(rt.alloc())?, holder(rt.alloc(), 2)?]?;
    match counted(rt.alloc(), outside.as_slice()) {
        Err(fault) => assert_eq!(rt; name_in(&fault), b"a".as_slice()),
        Ok(_) => assert!(rt; false),
    }
    let twice = vec![in rt.alloc(); cell(rt.alloc())?, cell(rt.alloc())?]?;
    match counted(rt.alloc(), twice.as_slice()) {
        Err(fault) => assert_eq!(rt; name_in(&fault), b"c".as_slice()),
        Ok(_) => assert!(rt; false),
    }
    Ok(())
}

#[test]
fn printed_names(rt: HostRuntime) -> Result<(), Fail> {
    match printed(rt.alloc(), b"a[0]") {
        Ok(name) => assert_eq!(rt; name.as_slice(), b"a\\[0\\]".as_slice()),
        Err(_) => assert!(rt; false),
    }
    let path = vec![in rt.alloc(); text(rt.alloc(), b"x")?]?;
    match printed_below(rt.alloc(), path.as_slice(), b"w") {
        Ok(name) => assert_eq!(rt; name.as_slice(), b"x/w".as_slice()),
        Err(_) => assert!(rt; false),
    }
    Ok(())
}
