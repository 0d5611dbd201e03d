ghost use Rattle.std.specs.Prelude.{◌≡◌, IfOk};
ghost use Rattle.sdf_reader.specs.Said.{kind_of};

use crate::names::printed;
use bud_syntax::{Edge, SdfKind};
use std::alloc::{AllocError, Global};

/// A port, and the edge that stands at it; the name is as in the text.
#[derive(Clone, Copy)]
pub struct Port<'a> {
    pub edge: Option<Edge>,
    pub name: &'a [u8],
}

/// What an entry says, with the names as in the text.
#[derive(Clone, Copy)]
pub enum Said<'a> {
    Cell,
    Delay {
        from: &'a [u8],
        edge: Option<Edge>,
        to: &'a [u8],
        value: i64,
    },
    Wire {
        from: &'a [u8],
        to: &'a [u8],
        value: i64,
    },
    Setup {
        pin: &'a [u8],
        clock: &'a [u8],
        edge: Option<Edge>,
        value: i64,
    },
}

/// The same with printed names.
pub fn kind(alloc: Global, divider: u8, said: Said<'_>) -> Result<SdfKind, AllocError>
    ensures { IfOk result (λ kind. kind ≡ kind_of divider said.entry) }
{
    match said {
        Said::Cell => Ok(SdfKind::Cell),
        Said::Delay {
            from,
            edge,
            to,
            value,
        } => {
            let from = printed(alloc, divider, from)?;
            let to = printed(alloc, divider, to)?;
            Ok(SdfKind::Delay {
                from,
                edge,
                to,
                value,
            })
        }
        Said::Wire { from, to, value } => {
            let from = printed(alloc, divider, from)?;
            let to = printed(alloc, divider, to)?;
            Ok(SdfKind::Wire { from, to, value })
        }
        Said::Setup {
            pin,
            clock,
            edge,
            value,
        } => {
            let pin = printed(alloc, divider, pin)?;
            let clock = printed(alloc, divider, clock)?;
            Ok(SdfKind::Setup {
                pin,
                clock,
                edge,
                value,
            })
        }
    }
}
