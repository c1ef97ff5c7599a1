// The file of a journal: opened, and made where there is none, for each exchange anew, so that it can be moved meanwhile.
ghost use Rattle.std.specs.Prelude.{◌≡◌, [], IfErr, OnOk};
ghost use Rattle.std.specs.Io.KnownBytes.{Appends};
ghost use Rattle.desk_journal.specs.Lines.{entries_of};
ghost use Rattle.command_answers.specs.declared.endings.Fault.{Fault};

use command_answers::Fault;
use desk_serving::Journal;
use plan_basics::Watched;
use std::fs::{File, OpenOptions};
use std::io;
use std::io::{Read, Seek, SeekFrom, Write};
use std::rt::HostRuntime;

// The file of a name, to which all that is written is appended, made where there is none.
fn appending(rt: &HostRuntime, path: &str) -> io::Result<File> {
    OpenOptions::new()
        .read(true)
        .append(true)
        .create(true)
        .open(rt, path)
}

/// What is appended to the file that has a name when its first byte comes, up to a flush with nothing to be flushed, which
/// closes the file. So lines that are written and flushed one by one stand whole in one file until then, also where another
/// gets the name.
#[derive(Drop)]
pub struct NamedFile<'a> {
    rt: &'a HostRuntime,
    path: &'a str,
    open: Option<File>,
    /// Whether something was written since it was flushed last.
    written: bool,
}

impl Write for NamedFile<'_> {
    fn write(&mut self, buf: &[u8]) -> io::Result<usize> {
        let mut file = match self.open.take() {
            Some(file) => file,
            None => appending(self.rt, self.path)?,
        };
        let count = file.write(buf);
        self.open = Some(file);
        self.written = true;
        count
    }

    fn flush(&mut self) -> io::Result<()> {
        if !self.written {
            self.open = None;
        }
        self.written = false;
        Ok(())
    }
}

// The last byte of a file, if it has one.
fn last_byte(file: &mut File) -> io::Result<Option<u8>> {
    if file.seek(SeekFrom::End(0))? == 0 {
        return Ok(None);
    }
    file.seek(SeekFrom::End(-1))?;
    let mut last = [0u8; 1];
    file.read_exact(&mut last)?;
    Ok(Some(last[0]))
}

// The last byte of the file of a name, if it has one; the file is made where there is none.
fn last_byte_of(rt: &HostRuntime, path: &str) -> io::Result<Option<u8>> {
    let mut file = appending(rt, path)?;
    last_byte(&mut file)
}

/// How many bytes of a journal's end are read as a desk is opened: the lines of a full night.
const MOST_READ: u64 = 16_777_216;

// The end of a file, as many bytes as are read.
fn end_of_file(rt: &HostRuntime, file: &mut File) -> io::Result<Vec<u8>> {
    let length = file.seek(SeekFrom::End(0))?;
    file.seek(SeekFrom::Start(length.saturating_sub(MOST_READ)))?;
    let mut end = Vec::new(rt.alloc());
    file.read_to_end(&mut end)?;
    Ok(end)
}

// The end of the file of a name; the file is made where there is none.
fn end_of_named(rt: &HostRuntime, path: &str) -> io::Result<Vec<u8>> {
    let mut file = appending(rt, path)?;
    end_of_file(rt, &mut file)
}

/// The end of the journal in the file of this path, nothing where none is named. `File` where it can't be had.
pub fn journal_end(rt: &HostRuntime, path: Option<&str>) -> Result<Vec<u8>, Fault>
    ensures { IfErr result (λ fault. fault ≡ Fault.File) }
{
    let Some(path) = path else {
        return Ok(Vec::new(rt.alloc()));
    };
    match end_of_named(rt, path) {
        Ok(end) => Ok(end),
        Err(_) => Err(Fault::File),
    }
}

/// The journal in the file of this path, if one is named. A line that was cut short is ended. `File` where it can't be had,
/// or takes nothing.
pub fn opened_journal<'a>(
    rt: &'a HostRuntime,
    path: Option<&'a str>,
) -> Result<Journal<NamedFile<'a>>, Fault>
    ensures { IfErr result (λ fault. fault ≡ Fault.File) }
{
    let Some(path) = path else {
        return Ok(Journal::Absent);
    };
    let Ok(last) = last_byte_of(rt, path) else {
        return Err(Fault::File);
    };
    let mut journal = Journal::Kept(Watched::new(NamedFile {
        rt,
        path,
        open: None,
        written: false,
    }));
    if !journal.end_line(last) {
        return Err(Fault::File);
    }
    Ok(journal)
}

/// Ends an exchange: nothing is added to the journal, and its file is closed. `File` where it can't be.
pub fn end_exchange<J: Write>(journal: &mut Journal<J>) -> Result<(), Fault>
    ensures nothing { OnOk result (Appends (entries_of J.contents journal.old) (entries_of J.contents journal.new) []) }
    ensures fault { IfErr result (λ fault. fault ≡ Fault.File) }
{
    if journal.enter(b"") {
        Ok(())
    } else {
        Err(Fault::File)
    }
}
