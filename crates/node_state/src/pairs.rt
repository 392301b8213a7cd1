ghost use Rattle.std.specs.Prelude.{◌≡◌};
ghost use Rattle.lab_model.specs.Courses.{lawful as is_lawful};

use lab_base::Boot;

/// Whether the second boot state may follow the first. A state may stay as it is.
pub fn lawful(from: Boot, to: Boot) -> bool
    ensures { result ≡ is_lawful from to }
{
    match from {
        Boot::Off => matches!(to, Boot::Off | Boot::Booting),
        Boot::Shutdown => matches!(to, Boot::Shutdown | Boot::Off | Boot::Booting),
        Boot::Booting => matches!(to, Boot::Booting | Boot::TbSetup | Boot::Shutdown),
        Boot::TbSetup => matches!(to, Boot::TbSetup | Boot::IsUp | Boot::Booting),
        Boot::IsUp => matches!(to, Boot::IsUp | Boot::Shutdown),
    }
}
