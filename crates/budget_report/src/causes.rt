ghost use Rattle.std.specs.Prelude.{◌≡◌, ◌++◌, IfOk, OnOk};
ghost use Rattle.budget_report.specs.Lines.{line};
ghost use Rattle.budget_report.specs.Subjects.{subject_of, problem_of};
ghost use Rattle.budget_report.specs.Causes.{problem_status, status_of, shelf_fields, length_fields, text_of, Concerns};

use crate::certificates::put_cert_fault;
use crate::designs::{
    bind_status, elab_status, graph_status, layer_status, put_bind_fault, put_elab_fault,
    put_graph_fault, put_layer_fault, put_resolve_fault, resolve_status,
};
use crate::faults::put_problem_fault;
use crate::lines::put_number;
use crate::readings::{
    put_sdc_fault, put_sdf_fault, put_text_fault, put_verilog_fault, sdc_status, sdf_status,
    text_status, verilog_status,
};
use crate::scenes::{Scene, problem_in};
use crate::statuses::Status;
use bud_base::{Ends, Items, Problem, ProblemFault, Starts, Text, TextFault};
use delay_bind::BindFault;
use layer_theory::LayerFault;
use line_text::put_field;
use module_nets::ElabFault;
use plan_cert::CertFault;
use sdc_reader::SdcFault;
use sdf_reader::SdfFault;
use std::alloc::{AllocError, Global};
use timing_graph::GraphFault;
use timing_objects::ResolveFault;
use verilog_reader::VerilogFault;

/// Why a job is refused. The first text of a cause is the file's name.
///
/// The want of memory that a fault may carry is no cause.
#[derive(Debug, Drop)]
pub enum Cause {
    /// The words fit no job.
    Words,
    /// The file can't be read or written.
    Shelf(Text),
    /// The output can't be put.
    Sink,
    /// The file has this many bytes, which are too many.
    Length(Text, u64),
    /// The line text has no reading.
    Text(Text, TextFault),
    /// The netlist has no reading.
    Verilog(Text, VerilogFault),
    /// The delay file has no reading.
    Sdf(Text, SdfFault),
    /// The constraints have no reading.
    Sdc(Text, SdcFault),
    /// The netlist has no flat design, or passes a limit.
    Elab(ElabFault),
    /// The delay file doesn't fit the design.
    Bind(BindFault),
    /// The arcs have a cycle.
    Graph(GraphFault),
    /// A timing command is refused.
    Resolve(ResolveFault),
    /// The policy doesn't fit the design, or the layering passes a limit.
    Layer(LayerFault),
    /// The raw problem isn't sound, or passes a limit.
    Problem(ProblemFault),
    /// The certificate doesn't hold.
    Cert(CertFault),
}

impl Cause {
    /// How a run ends that is refused for this cause.
    pub fn status(&self) -> Status
        ensures { result ≡ status_of self.now }
    {
        match self {
            Cause::Words => Status::Words,
            Cause::Shelf(_) | Cause::Sink => Status::Fault,
            Cause::Length(..) => Status::Limit,
            Cause::Text(_, fault) => text_status(*fault),
            Cause::Verilog(_, fault) => verilog_status(fault),
            Cause::Sdf(_, fault) => sdf_status(fault),
            Cause::Sdc(_, fault) => sdc_status(fault),
            Cause::Elab(fault) => elab_status(fault),
            Cause::Bind(fault) => bind_status(fault),
            Cause::Graph(fault) => graph_status(fault),
            Cause::Resolve(fault) => resolve_status(fault),
            Cause::Layer(fault) => layer_status(fault),
            Cause::Problem(fault) => problem_status(fault),
            Cause::Cert(_) => Status::Certificate,
        }
    }
}

fn problem_status(fault: &ProblemFault) -> Status
    ensures { result ≡ problem_status fault.now }
{
    match fault {
        ProblemFault::TooLarge(_) => Status::Limit,
        ProblemFault::NoMemory => Status::Memory,
        _ => Status::Design,
    }
}

/// What is printed of a cause: one line, and for a cycle one more for each of its items. A refusal of the sink has none.
pub fn fault_text(alloc: Global, cause: &Cause, scene: Scene<'_>) -> Result<Text, AllocError>
    requires { Concerns (subject_of scene) cause.now }
    ensures { IfOk result (λ text. text ≡ text_of (subject_of scene.entry) cause.now) }
{
    let nothing = Problem {
        nodes: 0,
        items: Items::new(alloc),
        starts: Starts::new(alloc),
        ends: Ends::new(alloc),
    };
    let mut out = Vec::new(alloc);
    put_cause(&mut out, cause, scene, problem_in(scene, &nothing))?;
    Ok(Text::from_vec(out))
}

/// Adds the lines of a cause; the problem is that of the scene.
fn put_cause(
    out: &mut Vec<u8>,
    cause: &Cause,
    scene: Scene<'_>,
    problem: &Problem,
) -> Result<(), AllocError>
    requires problem { problem.now ≡ problem_of (subject_of scene) }
    requires concerns { Concerns (subject_of scene) cause.now }
    ensures { OnOk result (out.new.items ≡ out.old.items ++ text_of (subject_of scene.entry) cause.now) }
{
    match cause {
        Cause::Words => out.extend_from_slice(b"words\n"),
        Cause::Shelf(name) => put_shelf(out, name.as_slice()),
        Cause::Sink => Ok(()),
        Cause::Length(name, count) => put_length(out, name.as_slice(), *count),
        Cause::Text(name, fault) => put_text_fault(out, name.as_slice(), *fault),
        Cause::Verilog(name, fault) => put_verilog_fault(out, name.as_slice(), fault),
        Cause::Sdf(name, fault) => put_sdf_fault(out, name.as_slice(), fault),
        Cause::Sdc(name, fault) => put_sdc_fault(out, name.as_slice(), fault),
        Cause::Elab(fault) => put_elab_fault(out, fault),
        Cause::Bind(fault) => put_bind_fault(out, fault),
        Cause::Graph(fault) => put_graph_fault(out, scene, fault),
        Cause::Resolve(fault) => put_resolve_fault(out, fault),
        Cause::Layer(fault) => put_layer_fault(out, fault),
        Cause::Problem(fault) => put_problem_fault(out, problem, fault),
        Cause::Cert(fault) => put_cert_fault(out, scene, problem, *fault),
    }
}

/// Adds the line of a file that can't be read or written.
fn put_shelf(out: &mut Vec<u8>, name: &[u8]) -> Result<(), AllocError>
    ensures { OnOk result (out.new.items ≡ out.old.items ++ line (shelf_fields name.now)) }
{
    out.extend_from_slice(b"fault")?;
    put_field(out, name)?;
    out.push(b'\n')?;
    Ok(())
}

/// Adds the line of a file that is too long.
fn put_length(out: &mut Vec<u8>, name: &[u8], count: u64) -> Result<(), AllocError>
    ensures { OnOk result (out.new.items ≡ out.old.items ++ line (length_fields name.now count)) }
{
    out.extend_from_slice(b"limit")?;
    put_field(out, name)?;
    put_number(out, count)?;
    out.push(b'\n')?;
    Ok(())
}
