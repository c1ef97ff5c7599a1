// Whether occurrences are deleted whole.
ghost use Rattle.std.specs.Prelude.{◌≡◌, ◌↔◌, IsTrue};
ghost use Rattle.plan_opening.specs.Laws.{AreDeletedAlike, OccurrencesAreDeletedWhole};

use plan_basics::OpKey;
use plan_model::OperationRecord;
use plan_rows::ValidContents;

// Whether two operations are both deleted or both not, if they are of one occurrence.
fn are_deleted_alike(a: &(OpKey, OperationRecord), b: &(OpKey, OperationRecord)) -> bool
    ensures { IsTrue result ↔ AreDeletedAlike a.now b.now }
{
    a.0.occurrence != b.0.occurrence || a.1.mark.is_live() == b.1.mark.is_live()
}

/// Whether each occurrence is deleted whole: the operations of one occurrence are neighbours, and no two neighbours differ.
pub fn occurrences_are_deleted_whole(contents: &ValidContents) -> bool
    ensures { IsTrue result ↔ OccurrencesAreDeletedWhole contents.now }
{
    let rows = contents.operations();
    for i in 1..rows.len() {
        if !are_deleted_alike(&rows[i - 1], &rows[i]) {
            return false;
        }
    }
    true
}
