use crate::put_head;
use bud_base::{Ends, Items, Problem, Starts};
use bud_design::{Classes, LayerItems, LayerNodes, Layered};
use std::alloc::Global;
use std::test::Fail;

fn no_layering(alloc: Global) -> Layered {
    Layered {
        problem: Problem {
            nodes: 0,
            items: Items::new(alloc),
            starts: Starts::new(alloc),
            ends: Ends::new(alloc),
        },
        classes: Classes::new(alloc),
        nodes: LayerNodes::new(alloc),
        items: LayerItems::new(alloc),
        version: 1,
    }
}

#[test]
fn first_lines(rt: HostRuntime) -> Result<(), Fail> {
    let layered = no_layering(rt.alloc());
    let mut out = Vec::new(rt.alloc());
    put_head(&mut out, Some(950), &layered, 3900)?;
    assert_eq!(&rt;
        out.as_slice(),
        b"meets 950\nclasses 0\nnodes 0\nitems 0\nweight 3900\n".as_slice()
    );
    let mut out = Vec::new(rt.alloc());
    put_head(&mut out, None, &layered, -1)?;
    assert_eq!(&rt;
        out.as_slice(),
        b"no paths\nclasses 0\nnodes 0\nitems 0\nweight -1\n".as_slice()
    );
    Ok(())
}
