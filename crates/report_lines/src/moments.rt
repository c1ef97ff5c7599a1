// Moments in a column.
ghost use Rattle.std.specs.Prelude.{◌≡◌};
ghost use Rattle.plan_basics.specs.MomentTexts.{moment_text};
ghost use Rattle.report_lines.specs.Moments.{latest_text};

use plan_basics::{Moment, minute_text};

/// The text of a moment.
pub fn moment_text(moment: Moment) -> [u8; 16]
    ensures { result ≡ moment_text moment }
{
    moment.to_text()
}

/// The text of a latest start, sixteen hyphens where no plan can name it.
pub fn latest_text(minute: i64) -> [u8; 16]
    ensures { result ≡ latest_text minute }
{
    minute_text(minute)
}
