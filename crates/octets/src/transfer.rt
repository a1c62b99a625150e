//! Loops over a device that fill a buffer or give a whole slice.

ghost use Rattle.std.specs.Prelude.{◌≤◌, length, IfOk};
ghost use Rattle.octets.specs.Device.{Counts, Fills, GivesAll};

use crate::device::{DeviceFault, Intake, Outlet};

/// Takes until the buffer is full or the device is at its end, and returns the number of bytes taken.
pub fn fill<I: Intake>(intake: &mut I, buf: &mut [u8]) -> Result<usize, DeviceFault>
    ensures bound { IfOk result (λ n. n ≤ length buf.new) }
    ensures bytes { Fills (I.left intake.old) (I.left intake.new) result buf.new }
    ensures count { Counts (I.failures intake.old) (I.failures intake.new) result }
{
    let mut at = 0;
    while at < buf.len() {
        let n = intake.take(&mut buf[at..])?;
        if n == 0 {
            return Ok(at);
        }
        at += n;
    }
    Ok(at)
}

/// Gives all the bytes. On a fault, a prefix of them was given.
pub fn give_all<O: Outlet>(outlet: &mut O, bytes: &[u8]) -> Result<(), DeviceFault>
    ensures bytes { GivesAll (O.taken outlet.old) (O.taken outlet.new) result bytes.now }
    ensures count { Counts (O.failures outlet.old) (O.failures outlet.new) result }
{
    let mut at = 0;
    while at < bytes.len() {
        at += outlet.give(&bytes[at..])?;
    }
    Ok(())
}
