// A database over two files in memory, one of which passes so many calls on, and fails each one after.
use super::deeds::{Deed, Played, done};
use super::replies::Came;
use sqlite::{Connection, Files, Options};
use sqlite_disk::{Crash, Disk, Fuse, Memory};
use std::alloc::{AllocError, Global};
use std::io;

/// How the files stand after a stop: as they were last synced, where they lose what wasn't, or as they were last written.
#[derive(Clone, Copy)]
pub struct End {
    log_loses: bool,
    db_loses: bool,
}

impl End {
    /// The process was killed.
    pub const KILLED: End = End {
        log_loses: false,
        db_loses: false,
    };

    /// The power was cut.
    pub const POWER_CUT: End = End {
        log_loses: true,
        db_loses: true,
    };

    /// The power was cut, and of the database's file all is there that was written.
    pub const LOG_LOSES: End = End {
        log_loses: true,
        db_loses: false,
    };

    /// The power was cut, and of the log all is there that was written.
    pub const DATABASE_LOSES: End = End {
        log_loses: false,
        db_loses: true,
    };
}

/// Which of the files fails, after how many calls, and how both stand afterwards; and whether each transaction first copies what
/// the log holds into the database's file.
#[derive(Clone, Copy)]
pub struct Stop {
    pub is_log: bool,
    pub calls: u64,
    pub end: End,
    pub copies: bool,
}

impl Stop {
    /// None: both files pass all calls on.
    pub fn never(copies: bool) -> Stop {
        Stop {
            is_log: true,
            calls: u64::MAX,
            end: End::KILLED,
            copies,
        }
    }

    // How many calls a file passes on.
    fn calls_of(self, is_log: bool) -> u64 {
        if self.is_log == is_log {
            self.calls
        } else {
            u64::MAX
        }
    }

    // How a database is opened.
    fn options(self) -> Options {
        let mut options = Options::new(7);
        if self.copies {
            options.checkpoint_frames = 1;
        }
        options
    }
}

/// What stands in the two files.
#[derive(Drop)]
pub struct Bytes {
    log: Vec<u8>,
    db: Vec<u8>,
}

impl Bytes {
    /// Nothing.
    pub fn none(alloc: Global) -> Bytes {
        Bytes {
            log: Vec::new(alloc),
            db: Vec::new(alloc),
        }
    }
}

/// How far lines came over two files, and what stands in these then.
#[derive(Drop)]
pub struct Left {
    pub played: Played,
    pub bytes: Bytes,
}

// A file in which these bytes stand, synced, and which passes so many calls on.
fn file_with(alloc: Global, bytes: &[u8], calls: u64) -> io::Result<Fuse<Memory>> {
    let mut file = Memory::new(alloc);
    if file.may_be_used() {
        file.write_at(0, bytes)?;
    }
    if file.may_be_used() {
        file.sync()?;
    }
    Ok(Fuse::new(file, calls))
}

// Two files in which this stands, synced, and which stop so.
fn files_with(alloc: Global, bytes: &Bytes, stop: Stop) -> io::Result<Files<Fuse<Memory>>> {
    Ok(Files {
        log: file_with(alloc, &bytes.log, stop.calls_of(true))?,
        db: file_with(alloc, &bytes.db, stop.calls_of(false))?,
    })
}

// What stands in a file, which may lose what wasn't synced.
fn bytes_in(alloc: Global, mut file: Fuse<Memory>, loses: bool) -> Result<Vec<u8>, AllocError> {
    if loses {
        file.crash();
    }
    file.inner().bytes().to_vec(alloc)
}

// What stands in files once they stand so.
fn bytes_left(alloc: Global, files: Files<Fuse<Memory>>, end: End) -> Result<Bytes, AllocError> {
    let Files { log, db } = files;
    Ok(Bytes {
        log: bytes_in(alloc, log, end.log_loses)?,
        db: bytes_in(alloc, db, end.db_loses)?,
    })
}

// Nothing is done, since files can't be opened.
fn unopened(alloc: Global) -> Played {
    Played {
        at: 0,
        came: Came::Store,
        texts: Vec::new(alloc),
    }
}

// Does this over files, which come back, without a further call of the disk, unless they are lost.
fn done_over<D: Crash + Drop>(
    alloc: Global,
    files: Files<D>,
    options: Options,
    deed: &Deed<'_>,
) -> (Option<Files<D>>, Played) {
    if !files.log.may_be_used() || !files.db.may_be_used() {
        return (Some(files), unopened(alloc));
    }
    match Connection::open_files(alloc, files, options) {
        Ok(conn) => {
            let (store, played) = done(alloc, conn, deed);
            let files = match store {
                Some(store) => Some(store.close()),
                None => None,
            };
            (files, played)
        }
        Err((_, left)) => (Some(left.into_files()), unopened(alloc)),
    }
}

/// Does this over two files in which this stands, and which stop so.
pub fn done_on(alloc: Global, bytes: &Bytes, stop: Stop, deed: &Deed<'_>) -> Option<Left> {
    let files = files_with(alloc, bytes, stop).ok()?;
    let (files, played) = done_over(alloc, files, stop.options(), deed);
    match bytes_left(alloc, files?, stop.end) {
        Ok(bytes) => Some(Left { played, bytes }),
        Err(_) => None,
    }
}
