ghost use Rattle.std.specs.Prelude.{◌≡◌, IfOk};
ghost use Rattle.lab_base.specs.Kinds.{both_of};
ghost use Rattle.lab_base.specs.Parts.{name_of, number_from, joined_to};

use crate::{Items, Kind, Memory, Name, both, read_number};

/// The values of a list of fields, or the fault that is tried first.
pub type ListRead<T> = Result<Items<T>, Kind>;

/// The name that a field is; `name` where it is none.
pub fn name_in(field: &[u8]) -> Result<Name, Kind>
    ensures { result ≡ name_of field.now }
{
    match Name::read(field) {
        Ok(name) => Ok(name),
        Err(_) => Err(Kind::Name),
    }
}

/// The number that a field is; `number` where it is none from `least` to `most`.
pub fn number_in(field: &[u8], least: u64, most: u64) -> Result<u64, Kind>
    ensures { result ≡ number_from least most field.now }
{
    match read_number(field, most) {
        Ok(number) => {
            if least <= number {
                Ok(number)
            } else {
                Err(Kind::Number)
            }
        }
        Err(_) => Err(Kind::Number),
    }
}

/// Adds one more field to a list that is read. Of two faults the one that is tried first counts.
pub fn add_read<T: Drop>(so_far: ListRead<T>, next: Result<T, Kind>) -> Result<ListRead<T>, Memory>
    ensures { IfOk result (λ read. read ≡ joined_to (both_of so_far next)) }
{
    match both(so_far, next) {
        Ok((mut items, item)) => {
            items.push(item)?;
            Ok(Ok(items))
        }
        Err(kind) => Ok(Err(kind)),
    }
}
