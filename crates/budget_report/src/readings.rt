//! Files that have no reading.
ghost use Rattle.std.specs.Prelude.{◌≡◌, ◌++◌, OnOk};
ghost use Rattle.budget_report.specs.Lines.{line};
ghost use Rattle.budget_report.specs.Readings.{refused_fields, worded_fields, text_status, verilog_status, sdf_status, sdc_status, text_fields, verilog_fields, sdf_fields, sdc_fields};

use crate::lines::put_number;
use crate::statuses::Status;
use bud_base::TextFault;
use line_text::put_field;
use sdc_reader::SdcFault;
use sdf_reader::SdfFault;
use std::alloc::AllocError;
use verilog_reader::VerilogFault;

pub fn text_status(fault: TextFault) -> Status
    ensures { result ≡ text_status fault }
{
    match fault {
        TextFault::NoMemory => Status::Memory,
        _ => Status::Refused,
    }
}

pub fn verilog_status(fault: &VerilogFault) -> Status
    ensures { result ≡ verilog_status fault.now }
{
    match fault {
        VerilogFault::NoMemory => Status::Memory,
        _ => Status::Refused,
    }
}

pub fn sdf_status(fault: &SdfFault) -> Status
    ensures { result ≡ sdf_status fault.now }
{
    match fault {
        SdfFault::NoMemory => Status::Memory,
        _ => Status::Refused,
    }
}

pub fn sdc_status(fault: &SdcFault) -> Status
    ensures { result ≡ sdc_status fault.now }
{
    match fault {
        SdcFault::NoMemory => Status::Memory,
        _ => Status::Refused,
    }
}

/// Adds the line of a line text that has no reading.
pub fn put_text_fault(out: &mut Vec<u8>, name: &[u8], fault: TextFault) -> Result<(), AllocError>
    ensures { OnOk result (out.new.items ≡ out.old.items ++ line (text_fields name.now fault)) }
{
    match fault {
        TextFault::Syntax(at) => put_refused(out, name, at, b"syntax"),
        TextFault::Value(at) => put_refused(out, name, at, b"value"),
        TextFault::NoMemory => out.extend_from_slice(b"memory\n"),
    }
}

/// Adds the line of a netlist that has no reading.
pub fn put_verilog_fault(
    out: &mut Vec<u8>,
    name: &[u8],
    fault: &VerilogFault,
) -> Result<(), AllocError>
    ensures { OnOk result (out.new.items ≡ out.old.items ++ line (verilog_fields name.now fault.now)) }
{
    match fault {
        VerilogFault::Syntax(at) => put_refused(out, name, *at, b"syntax"),
        VerilogFault::Unsupported(word, at) => {
            put_worded(out, name, *at, b"unsupported", word.as_slice())
        }
        VerilogFault::Port(port, at) => put_worded(out, name, *at, b"port", port.as_slice()),
        VerilogFault::Number(at) => put_refused(out, name, *at, b"number"),
        VerilogFault::NoMemory => out.extend_from_slice(b"memory\n"),
    }
}

/// Adds the line of a delay file that has no reading.
pub fn put_sdf_fault(out: &mut Vec<u8>, name: &[u8], fault: &SdfFault) -> Result<(), AllocError>
    ensures { OnOk result (out.new.items ≡ out.old.items ++ line (sdf_fields name.now fault.now)) }
{
    match fault {
        SdfFault::Syntax(at) => put_refused(out, name, *at, b"syntax"),
        SdfFault::Unsupported(word, at) => {
            put_worded(out, name, *at, b"unsupported", word.as_slice())
        }
        SdfFault::Value(at) => put_refused(out, name, *at, b"value"),
        SdfFault::NoMemory => out.extend_from_slice(b"memory\n"),
    }
}

/// Adds the line of constraints that have no reading.
pub fn put_sdc_fault(out: &mut Vec<u8>, name: &[u8], fault: &SdcFault) -> Result<(), AllocError>
    ensures { OnOk result (out.new.items ≡ out.old.items ++ line (sdc_fields name.now fault.now)) }
{
    match fault {
        SdcFault::Syntax(at) => put_refused(out, name, *at, b"syntax"),
        SdcFault::UnknownCommand(command, at) => {
            put_worded(out, name, *at, b"command", command.as_slice())
        }
        SdcFault::UnknownOption(option, at) => {
            put_worded(out, name, *at, b"option", option.as_slice())
        }
        SdcFault::Value(at) => put_refused(out, name, *at, b"value"),
        SdcFault::NoMemory => out.extend_from_slice(b"memory\n"),
    }
}

/// Adds the line of a file without reading: its name, the offset and the kind of the refusal.
fn put_refused(out: &mut Vec<u8>, name: &[u8], at: usize, kind: &[u8]) -> Result<(), AllocError>
    ensures { OnOk result (out.new.items ≡ out.old.items ++ line (refused_fields name.now at kind.now)) }
{
    out.extend_from_slice(b"refused")?;
    put_field(out, name)?;
    put_number(out, at as u64)?;
    put_field(out, kind)?;
    out.push(b'\n')?;
    Ok(())
}

/// Adds the line of a file without reading, with a word of its text.
fn put_worded(
    out: &mut Vec<u8>,
    name: &[u8],
    at: usize,
    kind: &[u8],
    word: &[u8],
) -> Result<(), AllocError>
    ensures { OnOk result (out.new.items ≡ out.old.items ++ line (worded_fields name.now at kind.now word.now)) }
{
    out.extend_from_slice(b"refused")?;
    put_field(out, name)?;
    put_number(out, at as u64)?;
    put_field(out, kind)?;
    put_field(out, word)?;
    out.push(b'\n')?;
    Ok(())
}
