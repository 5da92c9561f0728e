//! Laws of the databases of one folder.

ghost use Rattle.common_laws.specs.Maps.{Contents};
ghost use Rattle.db_model.specs.Alike.{IsAlike};
ghost use Rattle.db_model.specs.Database.{Database};
ghost use Rattle.db_model.specs.Sound.{IsSoundDatabase};
ghost use Rattle.folder_laws.specs.OneText.{FoldersRunAlike, FoldersGoThrough, FoldersHaveOneText};
ghost use Rattle.folder_model.specs.Reopening.{Reopens};

use alike_steps::{alike_runs_go_through, alike_runs_print_alike};
use db_laws::openings_are_sound;
use one_text::{numbers_last, the_mover_changes_no_text};
use steps_exist::every_script_has_a_run;
use stored_rows::one_list_of_rows;

/// Two databases that one folder reopens to have the same tables with the same columns and projections, the same newest epoch and ancient
/// history mark, and from the mark on the same bag of rows in each table. Nothing else is asked.
pub fn one_folder_reopens_alike()
    ensures { (m : Contents) (d e : Database) → Reopens m d → Reopens m e → IsAlike d e }
{
    one_list_of_rows();
}

/// A folder that reopens to a database reopens to each sound one that is alike to it: so the order of rows, and rows that were deleted up to
/// the mark, are what it leaves open.
pub fn alike_databases_reopen()
    ensures { (m : Contents) (d e : Database) → Reopens m d → IsAlike d e → IsSoundDatabase e → Reopens m e }
{}

/// Two runs of one script over one folder print the same bytes, some statement is refused in both or in none, and no statement tells apart
/// the states at their ends, whichever of the databases that the folder reopens to each begins with, and whatever numbers its files and
/// containers give. It is asked that the script asks the mover for nothing and is run without its steps, and that the numbers that files are
/// called by aren't spent at either end. A script in which moveouts of all and refreshes stand prints the same, too, where no statement is refused in either
/// run, and leaves such states where numbers are left.
pub fn one_folder_has_one_text()
    ensures runs { FoldersRunAlike }
    ensures through { FoldersGoThrough }
{
    one_folder_reopens_alike();
    openings_are_sound();
    alike_runs_print_alike();
    alike_runs_go_through();
}

/// Whatever the mover does between its statements, and whichever of the databases that the folder reopens to each begins with, two runs of one
/// script over one folder print the same bytes, and some statement is refused in both or in none. It is asked that the script asks the mover
/// for nothing, and for nothing that the mover makes of projections; and that the numbers of the folder suffice.
pub fn one_folder_has_one_text_with_the_mover()
    ensures { FoldersHaveOneText }
{
    one_folder_reopens_alike();
    openings_are_sound();
    alike_runs_print_alike();
    the_mover_changes_no_text();
    numbers_last();
    every_script_has_a_run();
}
