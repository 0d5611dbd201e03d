ghost use Rattle.std.specs.Prelude.{◌≡◌, ◌<◌, ℕ, None, length, slice_index_or, All, IfOk};
ghost use Rattle.state_numbers.specs.Firsts.{IsFirstIn, lesser as lesser_of};

use path_states::State;
use std::alloc::{AllocError, Global};

/// The lesser of a launch and, where there is one, another.
fn lesser(first: Option<u32>, launch: u32) -> u32
    ensures { result ≡ lesser_of first launch }
{
    match first {
        Some(first) if first < launch => first,
        _ => launch,
    }
}

/// The first launch of a live state of each class.
pub fn first_launches(
    alloc: Global,
    kinds: usize,
    states: &[State],
    launches: &[u32],
    live: &[bool],
) -> Result<Vec<Option<u32>>, AllocError>
    requires kinds { All (λ s. s.kind < kinds) states.now }
    requires launches { length launches.now ≡ length states.now }
    requires live { length live.now ≡ length states.now }
    ensures size { IfOk result (λ firsts. length firsts.items ≡ kinds) }
    ensures firsts { IfOk result (λ firsts. (c : ℕ) → c < kinds → IsFirstIn states.now launches.now live.now (length states.now) c (slice_index_or firsts.items c None)) }
{
    let mut firsts = vec![in alloc; None; kinds]?;
    for (place, state) in states.iter().enumerate() {
        if live[place] {
            let kind = state.kind as usize;
            firsts[kind] = Some(lesser(firsts[kind], launches[place]));
        }
    }
    Ok(firsts)
}
