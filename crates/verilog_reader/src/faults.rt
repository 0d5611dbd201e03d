use bud_base::Text;
use thiserror::Error;

/// Why a Verilog text isn't a netlist.
#[derive(Debug, Drop, Error)]
pub enum VerilogFault {
    /// The text isn't structural Verilog; the offset is within the text.
    #[error("syntax")]
    Syntax(usize),
    /// The text isn't a netlist, and this is the first word that structural Verilog leaves out, with its offset.
    #[error("unsupported")]
    Unsupported(Text, usize),
    /// A port has no direction, at its place in the header, or is listed or declared twice, at the second place.
    #[error("port")]
    Port(Text, usize),
    /// The number at this offset is out of its range: past 1,000,000 in brackets, or a width of 0 or past 65,536.
    #[error("number")]
    Number(usize),
    /// Want of memory.
    #[error("memory")]
    NoMemory,
}
