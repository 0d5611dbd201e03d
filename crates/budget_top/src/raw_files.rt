//! The file of a raw problem.
ghost use Rattle.bud_base.specs.Soundness.{IsListable};
ghost use Rattle.budget_top.specs.RawFiles.{problems};

use bud_base::{Problem, Text, TextFault};
use budget_report::Cause;
use budget_steps::Input;
use problem_text::read_problem;
use std::alloc::Global;

/// The text of a raw problem.
pub struct ProblemText;

impl Input for ProblemText {
    type Value = Problem;

    type Fault = TextFault;

    ghost grammar = { problems };

    ghost is_value = { IsListable };

    fn read(alloc: Global, text: &[u8]) -> Result<Problem, TextFault> {
        read_problem(alloc, text)
    }

    fn cause(name: Text, fault: TextFault) -> Cause {
        Cause::Text(name, fault)
    }
}
