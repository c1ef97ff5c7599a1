// What is so of each page, as the contract of a function that does nothing.
ghost use Rattle.html_pages.specs.Laws.{MarkupStands, NamesStand};

/// A page has the bytes that HTML takes for markup where its own markup has them, and nowhere else, whatever texts are put
/// into it; and a name is shown as it is.
pub fn names_cannot_break()
    ensures markup { MarkupStands }
    ensures names { NamesStand }
{}
