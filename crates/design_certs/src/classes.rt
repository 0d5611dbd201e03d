ghost use Rattle.std.specs.Prelude.{◌≡◌, ◌↔◌, ◌<◌, ◌^◌, length, map, IsTrue, IfOk};
ghost use Rattle.std.specs.List.{AllByRecursion};
ghost use Rattle.bud_design.specs.Clocks.{clock_at};
ghost use Rattle.cert_text.specs.Writing.{IsTextException};
ghost use Rattle.plan_cert.specs.Names.{HasClassNumbers};
ghost use Rattle.design_certs.specs.DesignCerts.{has_groups, steps_of, exception_line, class_line_of, class_lines};

use bud_base::{ClassId, Text};
use bud_design::{Class, Clock, Constraints, Exception, Met};
use cert_text::{CertClass, CertClasses, CertException, CertExceptions};
use std::alloc::{AllocError, Global};

/// The name of a clock.
fn clock_name(clocks: &[Clock], number: u32) -> &[u8]
    ensures { result.now ≡ (clock_at clocks.now number).name }
{
    match clocks.get(number as usize) {
        Some(clock) => clock.name.as_slice(),
        None => &[],
    }
}

/// Whether the exception of this number has groups.
fn has_groups(exceptions: &[Exception], number: u32) -> bool
    ensures { result ≡ has_groups exceptions.now number }
{
    for exception in exceptions {
        if exception.number == number {
            return !exception.groups.is_empty();
        }
    }
    false
}

/// How many groups of the exception are met, where it has groups.
fn steps_of(exceptions: &[Exception], met: Met) -> Option<u32>
    ensures { result ≡ steps_of exceptions.now met }
{
    if has_groups(exceptions, met.number) {
        Some(met.steps)
    } else {
        None
    }
}

/// An exception as the line of a class has it.
fn exception_line(exceptions: &[Exception], met: Met) -> CertException
    ensures line { result ≡ exception_line exceptions.now met }
    ensures numbers { IsTextException result }
{
    CertException {
        number: met.number,
        steps: steps_of(exceptions, met),
    }
}

/// The exceptions of a class as its line has them.
fn exception_lines(
    alloc: Global,
    exceptions: &[Exception],
    mets: &[Met],
) -> Result<CertExceptions, AllocError>
    ensures lines { IfOk result (λ lines. lines ≡ map (exception_line exceptions.now) mets.now) }
    ensures numbers { IfOk result (AllByRecursion IsTextException) }
{
    let mut lines = Vec::new(alloc);
    for met in mets {
        lines.push(exception_line(exceptions, *met))?;
    }
    Ok(CertExceptions::from_vec(lines))
}

/// The line of a class.
fn class_line(
    alloc: Global,
    all: &Constraints,
    number: u32,
    class: &Class,
) -> Result<CertClass, AllocError>
    ensures line { IfOk result (λ line. line ≡ class_line_of all.now number class.now) }
    ensures numbers { IfOk result HasClassNumbers }
{
    let clock = Vec::from_slice(alloc, clock_name(all.clocks.as_slice(), class.clock))?;
    let exceptions = exception_lines(
        alloc,
        all.exceptions.as_slice(),
        class.exceptions.as_slice(),
    )?;
    Ok(CertClass {
        number: ClassId(number),
        clock: Text::from_vec(clock),
        edge: class.edge,
        exceptions,
    })
}

/// The lines of the classes.
pub fn class_lines(
    alloc: Global,
    all: &Constraints,
    classes: &[Class],
) -> Result<CertClasses, AllocError>
    requires { length classes.now < 2 ^ 32 }
    ensures lines { IfOk result (λ lines. lines ≡ class_lines all.now 0 classes.now) }
    ensures numbers { IfOk result (AllByRecursion HasClassNumbers) }
{
    let mut lines = Vec::new(alloc);
    for (number, class) in classes.iter().enumerate() {
        lines.push(class_line(alloc, all, number as u32, class)?)?;
    }
    Ok(CertClasses::from_vec(lines))
}

/// Whether these are the exceptions of a class as its line has them.
fn are_exceptions(exceptions: &[Exception], mets: &[Met], lines: &[CertException]) -> bool
    ensures { IsTrue result ↔ (lines.now ≡ map (exception_line exceptions.now) mets.now) }
{
    let mut rest = lines;
    for met in mets {
        match rest {
            [first, others @ ..] if *first == exception_line(exceptions, *met) => rest = others,
            _ => return false,
        }
    }
    rest.is_empty()
}

/// Whether this is the line of the class.
pub fn is_class_line(all: &Constraints, number: usize, class: &Class, line: &CertClass) -> bool
    ensures { IsTrue result ↔ (line.now ≡ class_line_of all.now number class.now) }
{
    line.number.0 as usize == number
        && line.edge == class.edge
        && line.clock.as_slice() == clock_name(all.clocks.as_slice(), class.clock)
        && are_exceptions(
            all.exceptions.as_slice(),
            class.exceptions.as_slice(),
            line.exceptions.as_slice(),
        )
}
