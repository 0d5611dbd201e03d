ghost use Rattle.std.specs.Prelude.{◌≡◌, ◌==◌, ℕ, Some, nat_lt, length, IfOk, OnOk, if◌then◌else◌};
ghost use Rattle.std.specs.Map.{lookup};
ghost use Rattle.bud_design.specs.Exceptions.{groups_of};
ghost use Rattle.design_layers.specs.GroupMarks.{AreMarked};

use bud_design::{Constraints, Exception};
use indexmap::IndexMap;
use std::alloc::{AllocError, Global};

/// By the numbers of exceptions, whether they have groups.
pub type GroupMarks = IndexMap<u32, bool>;

fn put(marks: &mut GroupMarks, number: u32, has_groups: bool) -> Result<(), AllocError>
    ensures { OnOk result ((q : ℕ) → lookup (λ k. q == k) marks.new.entries ≡ (if number == q then Some has_groups else lookup (λ k. q == k) marks.old.entries)) }
{
    match marks.insert(number, has_groups) {
        Ok(_) => Ok(()),
        Err(_) => Err(AllocError),
    }
}

/// The marks of the exceptions; of those with one number, the first one's.
pub fn group_marks(alloc: Global, exceptions: &[Exception]) -> Result<GroupMarks, AllocError>
    ensures { IfOk result (λ marks. AreMarked exceptions.now marks.entries) }
{
    let mut marks = GroupMarks::new(alloc);
    let mut place = exceptions.len();
    while place > 0 {
        place -= 1;
        let exception = &exceptions[place];
        put(&mut marks, exception.number, exception.groups.len() > 0)?;
    }
    Ok(marks)
}

/// Whether the exception of the number has groups.
pub fn has_groups(all: &Constraints, marks: &GroupMarks, number: u32) -> bool
    requires { AreMarked all.now.exceptions marks.now.entries }
    ensures { result ≡ nat_lt 0 (length (groups_of all.now.exceptions number)) }
{
    match marks.get(&number) {
        Some(has_groups) => *has_groups,
        None => false,
    }
}
