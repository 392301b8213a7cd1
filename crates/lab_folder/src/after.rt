ghost use Rattle.std.specs.Option.{ForSome};
ghost use Rattle.lab_model.specs.Cabled.{Cabled};
ghost use Rattle.lab_model.specs.Holding.{Holding};
ghost use Rattle.lab_model.specs.Isolated.{Isolated};
ghost use Rattle.lab_top.specs.Headline.{AtEachMoment};
ghost use Rattle.lab_folder.specs.Left.{IsLeft};

use folder::Folder;
use lab_io::{Sink, Source};
use lab_top::{Status, labctl};
use plant_file::FolderLab;
use std::alloc::Global;

/// The end of a run, and its folder.
#[derive(Drop)]
pub struct After<F: Folder + Drop> {
    pub status: Status,
    pub folder: F,
}

/// One run of the program over a folder, blank or as an earlier run left it.
///
/// A program that is killed in a call is a folder that stops there: then it lets nothing more through, and what it holds is what the killed program
/// left. So a run that ends as `stopped` or for want of memory stands for each kill too.
pub fn run_over<S: Source, K: Sink, F: Folder + Drop>(
    alloc: Global,
    words: &[String],
    source: &mut S,
    sink: &mut K,
    folder: F,
) -> After<F>
    requires { ForSome (F.told folder) IsLeft }
    ensures left { ForSome (F.told result.folder) IsLeft }
    // at each moment of all that happened to the folder, whichever run did it
    ensures isolated { ForSome (F.told result.folder) (λ h. AtEachMoment Isolated h.past.trace) }
    ensures holding { ForSome (F.told result.folder) (λ h. AtEachMoment (λ lab es w. Holding lab es) h.past.trace) }
    ensures cabled { ForSome (F.told result.folder) (λ h. AtEachMoment Cabled h.past.trace) }
{
    let mut plant = FolderLab::over(alloc, folder);
    let status = labctl(alloc, words, source, sink, &mut plant);
    let folder = plant.into_folder();
    After { status, folder }
}
