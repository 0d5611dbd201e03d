//! The files of a design.
ghost use Rattle.budget_designs.specs.Files.{netlists, delay_files, constraint_files};
ghost use Rattle.budget_designs.specs.Inputs.{IsNetlist, IsDelayFile, IsConstraintFile};

use bud_base::Text;
use bud_syntax::{Modules, SdcFile, SdfFile};
use budget_report::Cause;
use budget_steps::Input;
use sdc_reader::{SdcFault, read_sdc};
use sdf_reader::{SdfFault, read_sdf};
use std::alloc::Global;
use verilog_reader::{VerilogFault, read_verilog};

/// A netlist.
pub struct NetlistText;

impl Input for NetlistText {
    type Value = Modules;

    type Fault = VerilogFault;

    ghost grammar = { netlists };

    ghost is_value = { IsNetlist };

    fn read(alloc: Global, text: &[u8]) -> Result<Modules, VerilogFault> {
        read_verilog(alloc, text)
    }

    fn cause(name: Text, fault: VerilogFault) -> Cause {
        Cause::Verilog(name, fault)
    }
}

/// A delay file.
pub struct DelayText;

impl Input for DelayText {
    type Value = SdfFile;

    type Fault = SdfFault;

    ghost grammar = { delay_files };

    ghost is_value = { IsDelayFile };

    fn read(alloc: Global, text: &[u8]) -> Result<SdfFile, SdfFault> {
        read_sdf(alloc, text)
    }

    fn cause(name: Text, fault: SdfFault) -> Cause {
        Cause::Sdf(name, fault)
    }
}

/// Timing constraints.
pub struct ConstraintText;

impl Input for ConstraintText {
    type Value = SdcFile;

    type Fault = SdcFault;

    ghost grammar = { constraint_files };

    ghost is_value = { IsConstraintFile };

    fn read(alloc: Global, text: &[u8]) -> Result<SdcFile, SdcFault> {
        read_sdc(alloc, text)
    }

    fn cause(name: Text, fault: SdcFault) -> Cause {
        Cause::Sdc(name, fault)
    }
}
