ghost use Rattle.std.specs.Prelude.{◌≡◌, ◌<◌, length, IfSome};
ghost use Rattle.bud_design.specs.Policies.{arc_called, block_place};
ghost use Rattle.policy_lines.specs.Lines.{line_number as number_of, IsBlockNumber};

use bud_base::Text;
use bud_design::PolicyLine;
use flat_design::Flat;
use timing_graph::Graph;

/// The number of the arc that two names mean.
fn find_arc(flat: &Flat, graph: &Graph, from: &Text, to: &Text) -> Option<u32>
    ensures { result ≡ arc_called flat.now graph.now.arcs from.now to.now }
{
    let first = flat.find_pin(from.as_slice())?;
    let second = flat.find_pin(to.as_slice())?;
    match graph.find(first, second) {
        Some(arc) => Some(arc.0),
        None => None,
    }
}

/// The number of the plain instance that a name means.
fn find_block(flat: &Flat, path: &Text) -> Option<u32>
    ensures block { result ≡ block_place flat.now path.now }
    ensures within { IfSome result (λ p. p < length flat.now.places) }
{
    let place = flat.find_place(path.as_slice())?;
    if flat.places()[place as usize].leaf {
        return None;
    }
    Some(place)
}

/// The number that a line names: the place of a block or an instance, or the arc.
pub fn line_number(flat: &Flat, graph: &Graph, line: &PolicyLine) -> Option<u32>
    ensures number { result ≡ number_of flat.now graph.now.arcs line.now }
    ensures within { IsBlockNumber flat.now line.now result }
{
    match line {
        PolicyLine::Block(path) => find_block(flat, path),
        PolicyLine::Default { .. } => None,
        PolicyLine::Inst { path, .. } => flat.find_place(path.as_slice()),
        PolicyLine::Arc { from, to, .. } => find_arc(flat, graph, from, to),
    }
}
