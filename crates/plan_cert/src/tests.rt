use crate::{Sums, check_raw, raw_cert_of, read_cert, write_cert};
use bud_base::{End, Item, Listed, NodeId, Problem, Start};
use bud_plans::Plan;
use std::process::Abort;
use std::test::Fail;

/// A problem of two items in a row, from an offset of 0 to a required time of 150 ps.
fn two_in_a_row(rt: &impl AllocGlobal) -> Result<Problem, Fail> {
    let first = Item {
        from: NodeId(0),
        to: NodeId(1),
        least: 40,
        greatest: 100,
        weight: 3,
    };
    let second = Item {
        from: NodeId(1),
        to: NodeId(2),
        least: 30,
        greatest: 90,
        weight: 2,
    };
    let start = Start {
        node: NodeId(0),
        offset: 0,
    };
    let end = End {
        node: NodeId(2),
        require: 150,
    };
    Ok(Problem {
        nodes: 3,
        items: Listed::from_vec(vec![in rt.alloc(); first, second]?),
        starts: Listed::from_vec(vec![in rt.alloc(); start]?),
        ends: Listed::from_vec(vec![in rt.alloc(); end]?),
    })
}

/// What the check answers to a certificate text, as it is debugged.
fn answer(rt: &(impl Abort + AllocGlobal), problem: &Problem, text: &str) -> Result<String, Fail> {
    let bytes = text.as_bytes();
    assert!(rt; bytes.len() < 2_147_483_648);
    assert!(rt; problem.items.len() < 2_147_483_648);
    assert!(rt; problem.starts.len() < 2_147_483_648);
    assert!(rt; problem.ends.len() < 2_147_483_648);
    let Ok(()) = problem.check() else {
        return Ok(format!(in rt.alloc(); "not sound")?);
    };
    let Ok(cert) = read_cert(rt.alloc(), bytes) else {
        return Ok(format!(in rt.alloc(); "not read")?);
    };
    let mut sums = Sums::new(rt.alloc(), problem)?;
    assert!(rt; sums.fits(problem));
    let answer = check_raw(problem, &cert, &mut sums);
    Ok(format!(in rt.alloc(); "{answer:?}")?)
}

#[test]
fn accepts_nothing_for_nothing(rt: HostRuntime) -> Result<(), Fail> {
    let problem = Problem {
        nodes: 0,
        items: Listed::new(rt.alloc()),
        starts: Listed::new(rt.alloc()),
        ends: Listed::new(rt.alloc()),
    };
    let found = answer(&rt, &problem, "certificate 1\nweight 0\n")?;
    assert_eq!(rt; found.as_str(), "Holds(0)");
    Ok(())
}

#[test]
fn judges_certificates(rt: HostRuntime) -> Result<(), Fail> {
    let problem = two_in_a_row(&rt)?;
    let nodes = "certificate 1\nnode 0 0 0\nnode 1 0 100\nnode 2 0 150\n";
    let late = "certificate 1\nnode 0 0 0\nnode 1 0 99\nnode 2 0 150\n";
    let items = "item 0 1 0 100 2\nitem 1 2 0 50 2\n";
    let large = "item 0 1 0 101 2\nitem 1 2 0 50 2\n";
    let ends = "start 0 0 2\nend 2 0 2\n";
    let second = "certificate 2\npolicy 2\nnode 0 0 0\nnode 1 0 100\nnode 2 0 150\n";
    let class = "certificate 1\nclass 0 C rise\nnode 0 0 0\nnode 1 0 100\nnode 2 0 150\n";
    let cases: [(&str, &str, &str, &str, &str); 9] = [
        (second, items, ends, "weight 400\n", "Fault(Version(1, 2))"),
        (class, items, ends, "weight 400\n", "Fault(Shape(Count))"),
        (nodes, items, ends, "weight 400\n", "Holds(400)"),
        (
            nodes,
            items,
            ends,
            "weight 399\n",
            "Fault(Weight(400, 399))",
        ),
        (
            nodes,
            items,
            "start 0 0 1\nend 2 0 2\n",
            "weight 400\n",
            "Fault(Balance(NodeId(0)))",
        ),
        (
            late,
            items,
            ends,
            "weight 400\n",
            "Fault(Arrival(ItemId(0)))",
        ),
        (
            nodes,
            large,
            ends,
            "weight 400\n",
            "Fault(Bounds(ItemId(0)))",
        ),
        (
            nodes,
            "item 0 1 0 100 2\n",
            ends,
            "weight 400\n",
            "Fault(Shape(Count))",
        ),
        (
            nodes,
            items,
            "start 00 0 2\nend 2 0 2\n",
            "weight 400\n",
            "Fault(Shape(Start(0)))",
        ),
    ];
    for (nodes, items, ends, weight, want) in cases {
        let text = format!(in rt.alloc(); "{nodes}{items}{ends}{weight}")?;
        let found = answer(&rt, &problem, text.as_str())?;
        assert_eq!(rt; found.as_str(), want);
    }
    Ok(())
}

#[test]
fn writes_the_certificate_of_a_plan(rt: HostRuntime) -> Result<(), Fail> {
    let problem = two_in_a_row(&rt)?;
    let plan = Plan {
        budgets: Listed::from_vec(vec![in rt.alloc(); 100, 50]?),
        arrivals: Listed::from_vec(vec![in rt.alloc(); 0, 100, 150]?),
        flow: Listed::from_vec(vec![in rt.alloc(); 2, 2]?),
        start_flow: Listed::from_vec(vec![in rt.alloc(); 2]?),
        end_flow: Listed::from_vec(vec![in rt.alloc(); 2]?),
        weight: 400,
    };
    assert!(rt; plan.budgets.len() == problem.items.len());
    assert!(rt; plan.arrivals.len() == problem.nodes as usize);
    assert!(rt; plan.flow.len() == problem.items.len());
    assert!(rt; plan.start_flow.len() == problem.starts.len());
    assert!(rt; plan.end_flow.len() == problem.ends.len());
    let cert = raw_cert_of(rt.alloc(), &problem, &plan)?;
    let text = write_cert(rt.alloc(), &cert)?;
    let nodes = "certificate 1\nnode 0 0 0\nnode 1 0 100\nnode 2 0 150\n";
    let others = "item 0 1 0 100 2\nitem 1 2 0 50 2\nstart 0 0 2\nend 2 0 2\nweight 400\n";
    let want = format!(in rt.alloc(); "{nodes}{others}")?;
    assert_eq!(rt; text.as_slice(), want.as_bytes());
    Ok(())
}
