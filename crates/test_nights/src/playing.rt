// Nights as texts. Each begins with a line `NAME: what it shows`, and an empty line comes before the next. Each line between is a
// turn, as `21:00 load STATIONS RUNS | names -`, what is asked at a minute and its answer after the bar; or another that the
// player of the night knows. A night begins with nothing loaded. `-` is an empty list.
use super::words::cut;
use std::alloc::Global;

/// What plays nights, line by line.
pub trait Player: Drop {
    /// One at which nothing is loaded.
    fn begin(alloc: Global) -> Option<Self>;

    /// It after a line, if that goes as the line says.
    fn after(self, line: &str) -> Option<Self>;
}

/// A night, and its line at which it goes otherwise than the line says.
#[derive(Clone, Copy)]
pub struct Deviation<'a> {
    pub night: &'a str,
    pub line: &'a str,
}

// Plays lines; or the line that goes otherwise.
fn play<P: Player>(alloc: Global, lines: &str) -> Result<(), &str> {
    let mut player = P::begin(alloc).ok_or("nothing loaded")?;
    for line in lines.lines() {
        player = player.after(line).ok_or(line)?;
    }
    Ok(())
}

/// Plays each night of a text; or where one goes otherwise than it says.
pub fn pass<P: Player>(alloc: Global, nights: &str) -> Result<(), Deviation<'_>> {
    for night in nights.split("\n\n") {
        let (header, lines) = cut(night, "\n").unwrap_or((night, ""));
        if let Err(line) = play::<P>(alloc, lines) {
            return Err(Deviation {
                night: header,
                line,
            });
        }
    }
    Ok(())
}
