ghost use Rattle.std.specs.Prelude.{◌≡◌, ◌==◌, ◌∷◌, ◌++◌, ℕ, [], Some, length, IfOk, OnOk, if◌then◌else◌};
ghost use Rattle.std.specs.Map.{lookup};
ghost use Rattle.class_steps.specs.Classes.{IsFoundClass};

use crate::classes::same_class;
use crate::keys::class_key;
use bud_design::Class;
use indexmap::IndexMap;
use std::alloc::{AllocError, Global};
use std::marker::Model;

/// Classes, each found by a key of what it holds.
#[derive(Debug, Drop)]
pub struct ClassTable {
    classes: Vec<Class>,
    /// The last class of each key.
    last: IndexMap<u32, u32>,
    /// Before each class the one before it of the same key.
    links: Vec<Option<u32>>,
}

impl Model for ClassTable {
    ghost use Rattle.std.specs.Prelude.{List};
    ghost use Rattle.bud_design.specs.declared.layers.Class.{Class};
    ghost use Rattle.class_steps.specs.Tables.{AreLinked};

    ghost Value = { List Class };

    ghost view = { λ t. t.classes.items };

    ghost invariant = { λ t. AreLinked t.classes.items t.last.entries t.links.items };
}

/// The last place of the key.
fn last_of(last: &IndexMap<u32, u32>, key: u32) -> Option<u32>
    ensures { result ≡ lookup (λ k. key == k) last.now.entries }
{
    last.get(&key).copied()
}

/// Makes a place the last of its key.
fn put_last(last: &mut IndexMap<u32, u32>, key: u32, place: u32) -> Result<(), AllocError>
    ensures { OnOk result ((q : ℕ) → lookup (λ k. q == k) last.new.entries ≡ (if key == q then Some place else lookup (λ k. q == k) last.old.entries)) }
{
    match last.insert(key, place) {
        Ok(_) => Ok(()),
        Err(_) => Err(AllocError),
    }
}

impl ClassTable {
    /// No classes.
    pub fn new(alloc: Global) -> ClassTable
        ensures { result ≡ [] }
    {
        ClassTable {
            classes: Vec::new(alloc),
            last: IndexMap::new(alloc),
            links: Vec::new(alloc),
        }
    }

    /// The classes, with one more behind them.
    pub fn with(self, class: Class) -> Result<ClassTable, AllocError>
        ensures { IfOk result (λ table. table ≡ self ++ class ∷ []) }
    {
        let ClassTable {
            mut classes,
            mut last,
            mut links,
        } = self;
        let Ok(number) = u32::try_from(classes.len()) else {
            return Err(AllocError);
        };
        let key = class_key(&class);
        links.push(last_of(&last, key))?;
        put_last(&mut last, key, number)?;
        classes.push(class)?;
        Ok(ClassTable {
            classes,
            last,
            links,
        })
    }

    pub fn as_slice(&self) -> &[Class]
        ensures { result.now ≡ self.now }
    {
        self.classes.as_slice()
    }

    pub fn len(&self) -> usize
        ensures { result ≡ length self.now }
    {
        self.classes.len()
    }

    /// A place of the class in the list, among those of its key alone.
    pub fn find(&self, class: &Class) -> Option<usize>
        ensures { IsFoundClass self.now class.now result }
    {
        let mut next = last_of(&self.last, class_key(class));
        while let Some(place) = next {
            if same_class(&self.classes[place as usize], class) {
                return Some(place as usize);
            }
            next = self.links[place as usize];
        }
        None
    }
}
