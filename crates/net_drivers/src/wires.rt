ghost use Rattle.std.specs.Prelude.{◌≡◌, ◌++◌, ◌<◌, ◌^◌, length, OnOk};
ghost use Rattle.net_drivers.specs.Slots.{BitsWithin};
ghost use Rattle.net_drivers.specs.Wires.{pin_wires};

use crate::pins::{LocalPin, LocalWire};
use crate::slots::{Joint, is_dir};
use bud_syntax::Dir;
use std::alloc::AllocError;

/// Appends the wires to the port bits of one direction, of the module itself or of an instance.
pub fn put_wires(
    wires: &mut Vec<LocalWire>,
    pins: &[Option<LocalPin>],
    meant: Dir,
    instance: Option<u32>,
    joints: &[Joint],
) -> Result<(), AllocError>
    requires bits { BitsWithin (length pins.now) joints.now }
    requires small { length joints.now < 2 ^ 32 }
    ensures { OnOk result (wires.new.items ≡ wires.old.items ++ pin_wires pins.now meant instance 0 joints.now) }
{
    for (k, joint) in joints.iter().enumerate() {
        if is_dir(meant, joint.dir) {
            if let Some(bit) = joint.bit {
                if let Some(from) = pins[bit as usize] {
                    let to = LocalPin {
                        instance,
                        bit: k as u32,
                    };
                    wires.push(LocalWire { from, to })?;
                }
            }
        }
    }
    Ok(())
}
