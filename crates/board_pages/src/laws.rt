// What is so of each page, as the contract of a function that does nothing.
ghost use Rattle.board_pages.specs.Laws.{UnknownIsTold};

/// Where it isn't known since when something is going, as of what had started before the desk was opened, the page of what is
/// read off a forecast says of how many operations that is so; where it is known of all that is going, the page says nothing
/// of it.
pub fn unknown_is_told()
    ensures { UnknownIsTold }
{}
