// How the calls of the plant are answered.
ghost use Rattle.std.specs.Prelude.{◌≡◌};
ghost use Rattle.plant.specs.Calls.{DeviceCause};
ghost use Rattle.plant.specs.DiskCalls.{DiskCause};
ghost use Rattle.plant.specs.Readings.{ReadCause};

use plant::{Answer, Fault, Faults, ReadFailed};

/// The answer of a call of the disk: each failure is counted.
pub(crate) fn of_disk<T: Drop>(faults: &mut Faults, found: Result<T, Fault>) -> Result<T, Fault>
    ensures cause { DiskCause faults.old faults.new result }
    ensures same { result ≡ found }
{
    if let Err(Fault::Failed) = &found {
        faults.disk = faults.disk.saturating_add(1);
    }
    found
}

/// The answer of a command: each failure is counted.
pub(crate) fn of_device(faults: &mut Faults, found: Result<Answer, Fault>) -> Result<Answer, Fault>
    ensures cause { DeviceCause faults.old faults.new result }
    ensures same { result ≡ found }
{
    if let Err(Fault::Failed) = &found {
        faults.devices = faults.devices.saturating_add(1);
    }
    found
}

/// The answer of a reading: each failure is counted.
pub(crate) fn of_reading<T: Drop>(
    faults: &mut Faults,
    found: Result<T, ReadFailed>,
) -> Result<T, ReadFailed>
    ensures cause { ReadCause faults.old faults.new result }
    ensures same { result ≡ found }
{
    if let Err(ReadFailed) = &found {
        faults.devices = faults.devices.saturating_add(1);
    }
    found
}
