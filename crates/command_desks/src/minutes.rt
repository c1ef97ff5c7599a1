// The minute at which something is asked of a desk.
ghost use Rattle.std.specs.Prelude.{◌≡◌};
ghost use Rattle.command_desks.specs.Given.{minute_asked};

use desk_tables::Desk;
use sqlite::Alter;

/// The minute at which it is asked: the given one, or else that of the desk's clock.
pub fn minute_of<S: Alter + Drop>(desk: &Desk<S>, minute: Option<i64>) -> i64
    ensures { result ≡ minute_asked minute desk.now.plan }
{
    match minute {
        Some(minute) => minute,
        None => desk.plan().clock().minute(),
    }
}
