ghost use Rattle.std.specs.Prelude.{◌≡◌, [], ◌∷◌};
ghost use Rattle.std.specs.Str.{bytes_eq};
ghost use Rattle.std.specs.Cmp.Rules.{comparing, hashing};
ghost use Rattle.std.proofs.Common.{rules};

use std::hash::{Hash, Hasher};

/// A name as the key of a table; its bytes are hashed in one go.
#[derive(Clone, Copy)]
pub struct Key<'m> {
    pub name: &'m [u8],
}

/// Whether two names are the same.
#[inline]
pub fn are_same(a: &[u8], b: &[u8]) -> bool
    ensures { result ≡ bytes_eq a.now b.now }
{
    if a.len() != b.len() {
        return false;
    }
    for (k, byte) in a.iter().enumerate() {
        if *byte != b[k] {
            return false;
        }
    }
    true
}

impl PartialEq for Key<'_> {
    ghost eq = { λ a b. bytes_eq a.name.now b.name.now };

    ghost laws = { Prim.search (comparing, rules) };

    #[inline]
    fn eq(&self, other: &Self) -> bool {
        are_same(self.name, other.name)
    }
}

impl Eq for Key<'_> {
    ghost laws = { Prim.search (comparing, rules) };
}

impl Hash for Key<'_> {
    ghost hash_input = { λ key. key.name.now ∷ [] };

    ghost respects_eq = { Prim.search (hashing, rules) };

    #[inline]
    fn hash<H: Hasher>(&self, state: &mut H) {
        state.write(self.name);
    }
}
