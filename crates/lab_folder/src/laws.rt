ghost use Rattle.folder.specs.Lost.{blank};
ghost use Rattle.lab_folder.specs.Left.{IsLeft, LossesAreLeft};

use lab_top::runs;
use plant_file::folders_keep;

/// A blank folder is as a run may find it. What a kill or a loss of power leaves of a folder is so too, at whatever moment it comes: it is what a stop
/// would have left just after an earlier command, with device commands alone between, and after a kill just after the last one.
pub fn folders()
    ensures blank { IsLeft blank }
    ensures lost { LossesAreLeft }
{
    runs();
    folders_keep();
}
