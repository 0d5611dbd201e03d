ghost use Rattle.std.specs.Prelude.{◌≡◌, ◌+◌, ◌*◌, ◌%◌};
ghost use Rattle.class_steps.specs.Keys.{key_step, mets_key, class_key};

use bud_design::{Class, Met};

/// The key of what is one value longer.
fn key_step(key: u32, value: u32) -> u32
    ensures { result ≡ key_step key value }
{
    ((u64::from(key) * 16777619 + u64::from(value)) % 4294967291) as u32
}

fn mets_key(key: u32, mets: &[Met]) -> u32
    ensures { result ≡ mets_key key mets.now }
{
    let mut key = key;
    for met in mets {
        key = key_step(key_step(key, met.number), met.steps);
    }
    key
}

/// A number that equal classes share.
pub fn class_key(class: &Class) -> u32
    ensures { result ≡ class_key class.now }
{
    mets_key(key_step(0, class.clock), class.exceptions.as_slice())
}
