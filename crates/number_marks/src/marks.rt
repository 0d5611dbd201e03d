ghost use Rattle.std.specs.Prelude.{◌≡◌, ◌++◌, ◌<◌, [], ◌∷◌, filter, length, All, IfOk, OnOk, if◌then◌else◌};
ghost use Rattle.std.specs.List.{range_with_len};
ghost use Rattle.number_marks.specs.Marks.{AreMarks, has_number, is_marked};

use std::alloc::{AllocError, Global};

/// Marks for the numbers below a count: which of them are among these. Greater ones have none.
fn marks(alloc: Global, count: usize, numbers: &[u32]) -> Result<Vec<bool>, AllocError>
    ensures { IfOk result (λ marks. AreMarks numbers.now count marks.items) }
{
    let mut marks = vec![in alloc; false; count]?;
    for number in numbers {
        let place = *number as usize;
        if place < count {
            marks[place] = true;
        }
    }
    Ok(marks)
}

fn is_marked(marks: &[bool], number: u32) -> bool
    ensures { result ≡ is_marked marks.now number }
{
    match marks.get(number as usize) {
        Some(mark) => *mark,
        None => false,
    }
}

/// Those of the numbers that are marked, in their order, where each has a mark, or want of memory.
fn marked(alloc: Global, numbers: &[u32], marks: &[bool]) -> Result<Vec<u32>, AllocError>
    ensures found { IfOk result (λ found. found.items ≡ filter (is_marked marks.now) numbers.now) }
    ensures within { IfOk result (λ found. All (λ v. v < length marks.now) numbers.now) }
{
    let mut found = Vec::new(alloc);
    for number in numbers {
        if *number as usize >= marks.len() {
            return Err(AllocError);
        }
        put_if(&mut found, *number, is_marked(marks, *number))?;
    }
    Ok(found)
}

/// Adds a number where it is wanted.
pub fn put_if(out: &mut Vec<u32>, number: u32, wanted: bool) -> Result<(), AllocError>
    ensures { OnOk result (out.new.items ≡ out.old.items ++ (if wanted then number ∷ [] else [])) }
{
    if wanted {
        out.push(number)?;
    }
    Ok(())
}

/// The marked numbers below a count, from the least on.
fn marked_below(alloc: Global, count: u32, marks: &[bool]) -> Result<Vec<u32>, AllocError>
    ensures { IfOk result (λ found. found.items ≡ filter (is_marked marks.now) (range_with_len 0 count)) }
{
    let mut found = Vec::new(alloc);
    for number in 0..count {
        put_if(&mut found, number, is_marked(marks, number))?;
    }
    Ok(found)
}

/// Those of the numbers that are among others, in their order, in time linear in both and the count. A number that isn't below
/// the count is answered as want of memory.
pub fn among(
    alloc: Global,
    count: usize,
    numbers: &[u32],
    others: &[u32],
) -> Result<Vec<u32>, AllocError>
    ensures { IfOk result (λ found. found.items ≡ filter (has_number others.now) numbers.now) }
{
    let marks = marks(alloc, count, others)?;
    marked(alloc, numbers, &marks)
}

/// The numbers below a count that are among these, from the least on.
pub fn below(alloc: Global, count: u32, numbers: &[u32]) -> Result<Vec<u32>, AllocError>
    ensures { IfOk result (λ found. found.items ≡ filter (has_number numbers.now) (range_with_len 0 count)) }
{
    let marks = marks(alloc, count as usize, numbers)?;
    marked_below(alloc, count, &marks)
}
