ghost use Rattle.std.specs.Prelude.{◌≡◌, ◌<◌, map, length, All, IfOk};
ghost use Rattle.bud_base.specs.Leaving.{AreLinks};
ghost use Rattle.class_ends.specs.Asks.{capture_item, HasSoundConstraints};
ghost use Rattle.path_states.specs.Tables.{table_of, IsWithin};
ghost use Rattle.path_classes.specs.Placing.{AreStateEnds, AreNodeEnds, HasClocks, HaveClocks};

use bud_base::{End, Links, NodeId, PinId};
use bud_design::{Class, Constraints};
use class_ends::least_ask;
use path_states::StateTable;
use state_numbers::Placed;
use std::alloc::{AllocError, Global};

/// The states where captures have a requirement by the class, with what they ask for.
pub fn state_ends(
    alloc: Global,
    all: &Constraints,
    links: &Links,
    table: &StateTable,
) -> Result<Vec<End>, AllocError>
    requires sound { HasSoundConstraints all.now }
    requires links { AreLinks (map capture_item all.now.captures) links.now }
    requires pins { All (λ s. s.pin.0 < length links.now.first) table.now.states.keys }
    requires lists { IsWithin (table_of table.now) }
    requires clocks { HaveClocks all.now (table_of table.now) }
    ensures { IfOk result (λ ends. AreStateEnds all.now (table_of table.now) (length table.now.states.keys) ends.items) }
{
    let kinds = table.kinds.as_slice();
    let states = table.states.as_slice();
    let mut ends = Vec::new(alloc);
    for place in 0..states.len() {
        let state = states[place];
        let ask = least_ask(all, links, &kinds[state.kind as usize], state.pin);
        let Some(require) = ask else {
            continue;
        };
        let Ok(number) = u32::try_from(place) else {
            return Err(AllocError);
        };
        ends.push(End {
            node: NodeId(number),
            require,
        })?;
    }
    Ok(ends)
}

/// The problem's ends.
pub fn problem_ends(
    alloc: Global,
    all: &Constraints,
    links: &Links,
    classes: &[Class],
    nodes: &[Placed],
) -> Result<Vec<End>, AllocError>
    requires sound { HasSoundConstraints all.now }
    requires links { AreLinks (map capture_item all.now.captures) links.now }
    requires pins { All (λ x. x.number < length links.now.first) nodes.now }
    requires classes { All (λ x. x.«class» < length classes.now) nodes.now }
    requires clocks { HasClocks all.now classes.now }
    ensures { IfOk result (λ ends. AreNodeEnds all.now classes.now nodes.now (length nodes.now) ends.items) }
{
    let mut ends = Vec::new(alloc);
    for place in 0..nodes.len() {
        let x = nodes[place];
        let ask = least_ask(all, links, &classes[x.class as usize], PinId(x.number));
        let Some(require) = ask else {
            continue;
        };
        let Ok(number) = u32::try_from(place) else {
            return Err(AllocError);
        };
        ends.push(End {
            node: NodeId(number),
            require,
        })?;
    }
    Ok(ends)
}
