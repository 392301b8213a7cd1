// Fields that hold numbers of a small range.
ghost use Rattle.std.specs.Prelude.{◌≡◌};
ghost use Rattle.lab_base.specs.Parts.{number_from};

use lab_base::{Kind, number_in};

/// The number in a field, from `least` to `most`, which is at most 65,535.
pub fn short_in(field: &[u8], least: u16, most: u16) -> Result<u16, Kind>
    ensures { result ≡ number_from least most field.now }
{
    match number_in(field, u64::from(least), u64::from(most)) {
        Ok(number) => Ok(number as u16),
        Err(kind) => Err(kind),
    }
}

/// The number in a field, from 0 to `most`, which is at most 4,294,967,295.
pub fn weight_in(field: &[u8], most: u32) -> Result<u32, Kind>
    ensures { result ≡ number_from 0 most field.now }
{
    match number_in(field, 0, u64::from(most)) {
        Ok(number) => Ok(number as u32),
        Err(kind) => Err(kind),
    }
}
