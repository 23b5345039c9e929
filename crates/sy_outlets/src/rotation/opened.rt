//! Opening the file of an archive.

use std::fs::{self, File, Files, Metadata, OpenOptions, TryLockError};
use std::io::{self, Error, ErrorKind, Read, Seek, SeekFrom, Write};
use std::os::fd::AsFd;
use std::os::unix::fs::{FileTypeExt, MetadataExt, OpenOptionsExt, fchown};
use sy_host_parameters::ArchiveHost;
use sy_report::texts::reason::Reason;

/// The mode of folders that are made, as rsyslog's `dirCreateMode` has it where it isn't given.
const FOLDER_MODE: u32 = 0o700;

/// The mode of a file whose own can't be had.
const PRIVATE: u32 = 0o600;

/// Why a file can't be opened.
#[derive(Clone, Copy)]
pub enum Refusal {
    /// No folder is there.
    NoFolder,
    /// A file is there that hasn't whole frames alone.
    NoFrames,
    /// Its name isn't UTF-8.
    NoName,
    /// It is an unread file by another name too.
    Twice,
    /// What has its name is no regular file, and is to be one.
    NotRegular,
    /// Another process has the lock on it.
    Locked,
    Host(Reason),
}

impl Refusal {
    /// Why a call of the host failed that would have made the file.
    pub fn of(error: &Error) -> Refusal {
        if error.kind() == ErrorKind::NotFound {
            return Refusal::NoFolder;
        }
        Refusal::Host(Reason::of(error))
    }

    /// A number of its own.
    pub fn code(self) -> u64 {
        match self {
            Refusal::NoFolder => 0,
            Refusal::NoFrames => u64::MAX - 2,
            Refusal::NoName => u64::MAX - 3,
            Refusal::Twice => u64::MAX - 4,
            Refusal::NotRegular => u64::MAX - 5,
            Refusal::Locked => u64::MAX - 6,
            Refusal::Host(reason) => reason.code(),
        }
    }
}

/// Which file of the host it is: the number of its file system, and its own number there.
#[derive(Clone, Copy, PartialEq, Eq)]
pub struct Node {
    device: u64,
    number: u64,
}

fn node_of(about: &Metadata) -> Node {
    Node {
        device: about.dev(),
        number: about.ino(),
    }
}

/// Which file that is, where the host says it.
pub fn node_of_file(file: &File) -> Option<Node> {
    match file.metadata() {
        Ok(about) => Some(node_of(&about)),
        Err(_) => None,
    }
}

/// Whether a file's name is gone, or is another file's. Where the host doesn't say, it isn't.
pub fn has_lost_name(rt: &HostRuntime, name: &str, node: Node) -> bool {
    match fs::metadata(rt, name) {
        Ok(about) => node_of(&about) != node,
        Err(error) => {
            error.kind() == ErrorKind::NotFound || error.kind() == ErrorKind::NotADirectory
        }
    }
}

/// Whether that file has its name still, as the host says.
pub fn has_name(rt: &HostRuntime, name: &str, node: Node) -> bool {
    match fs::metadata(rt, name) {
        Ok(about) => node_of(&about) == node,
        Err(_) => false,
    }
}

/// Whether a pipe has that name, whose opening waits until somebody reads it.
pub fn is_pipe(rt: &HostRuntime, name: &str) -> bool {
    match fs::metadata(rt, name) {
        Ok(about) => about.file_type().is_fifo(),
        Err(_) => false,
    }
}

/// Whether the disk can be asked to keep what is written to a file: of a pipe, and of most devices, the host refuses that.
pub fn can_sync(file: &File) -> bool {
    match file.metadata() {
        Ok(about) if !about.is_file() => match file.sync_data() {
            Err(error) => error.kind() != ErrorKind::InvalidInput,
            Ok(()) => true,
        },
        _ => true,
    }
}

// Whether the file of that name ends in a line feed.
fn ends_in_line_feed(rt: &HostRuntime, name: &str) -> io::Result<bool> {
    let mut file = File::open(rt, name)?;
    file.seek(SeekFrom::End(-1))?;
    let mut last = [0u8; 1];
    let count = file.read(&mut last)?;
    Ok(count == 1 && last[0] == b'\n')
}

// Whether a file may end in the middle of a line: it does, or it can't be read. Only ordinary files are looked at.
fn may_be_torn(rt: &HostRuntime, name: &str, file: &File) -> bool {
    let Ok(about) = file.metadata() else {
        return true;
    };
    if !about.is_file() || about.len() == 0 {
        return false;
    }
    !ends_in_line_feed(rt, name).unwrap_or(false)
}

/// Why a file to which lines are to be written isn't opened.
#[derive(Drop)]
pub enum Unopened {
    NotRegular,
    Locked,
    Host(Error),
}

impl Unopened {
    /// The same as a refusal.
    pub fn refusal(&self) -> Refusal {
        match self {
            Unopened::NotRegular => Refusal::NotRegular,
            Unopened::Locked => Refusal::Locked,
            Unopened::Host(error) => Refusal::of(error),
        }
    }
}

// Whether something that is no regular file has that name. (A folder can't be opened so, which the host says.)
fn is_other(rt: &HostRuntime, name: &str) -> bool {
    match fs::metadata(rt, name) {
        Ok(about) => !about.is_file() && !about.is_dir(),
        Err(_) => false,
    }
}

// The folder of a name, with its last slash; none where the name has no slash.
fn folder_of(name: &str) -> Option<&str> {
    let at = name.rfind('/')?;
    name.get(..at + 1)
}

// Has the disk keep that a file is in its folder.
fn sync_folder(rt: &HostRuntime, name: &str) -> io::Result<()> {
    let folder = folder_of(name).unwrap_or("./");
    File::open(rt, folder)?.sync_all()
}

// Makes a folder, where it isn't there, and has the disk keep that, where that is asked for.
fn make_folder(rt: &HostRuntime, name: &str, is_synced: bool) -> io::Result<()> {
    match rt.create_dir_with_mode(name, FOLDER_MODE) {
        Ok(()) if is_synced => sync_folder(rt, name),
        Ok(()) => Ok(()),
        Err(error) if error.kind() == ErrorKind::AlreadyExists => Ok(()),
        Err(error) => Err(error),
    }
}

// Makes the folders of a name that aren't there.
fn make_folders(rt: &HostRuntime, name: &str, is_synced: bool) -> io::Result<()> {
    let Some(folder) = folder_of(name) else {
        return Ok(());
    };
    for (at, _) in folder.match_indices('/') {
        match folder.get(..at) {
            Some(front) if !front.is_empty() => make_folder(rt, front, is_synced)?,
            _ => {}
        }
    }
    Ok(())
}

// A number of an owner or a group, as the host has it. (Each that a parameter gives is one.)
fn id_of(given: Option<u64>) -> Option<u32> {
    u32::try_from(given?).ok()
}

// Makes a file for appending, which is those owner's and group's; where it can't be, it is removed again.
fn make_for(rt: &HostRuntime, name: &str, mode: u32, does: ArchiveHost) -> io::Result<File> {
    let file = OpenOptions::new()
        .append(true)
        .create_new(true)
        .mode(mode)
        .open(rt, name)?;
    match fchown(file.as_fd(), id_of(does.owner), id_of(does.group)) {
        Ok(()) => Ok(file),
        Err(error) => {
            let _ = fs::remove_file(rt, name);
            Err(error)
        }
    }
}

// Opens a file for appending. Where it isn't there it is made.
fn open_or_make(rt: &HostRuntime, name: &str, does: ArchiveHost) -> io::Result<File> {
    let mode = u32::try_from(does.create_mode).unwrap_or(PRIVATE);
    if does.owner.is_some() || does.group.is_some() {
        return match make_for(rt, name, mode, does) {
            Err(error) if error.kind() == ErrorKind::AlreadyExists => {
                OpenOptions::new().append(true).open(rt, name)
            }
            made => made,
        };
    }
    OpenOptions::new()
        .append(true)
        .create(true)
        .mode(mode)
        .open(rt, name)
}

// The same, in folders that are made where that is asked for.
fn open_in_folder(rt: &HostRuntime, name: &str, does: ArchiveHost) -> io::Result<File> {
    if does.makes_folders {
        make_folders(rt, name, does.is_synced)?;
    }
    open_or_make(rt, name, does)
}

// Takes the lock on a file, and answers whether no other process has it. What may be any file isn't locked: it may be shared. Nor
// is one of a file system without locks: that is no reason to write nothing.
fn is_own(file: &File, does: ArchiveHost) -> bool {
    match file.metadata() {
        Ok(about) if about.is_file() && !does.may_be_any => {
            !matches!(file.try_lock(), Err(TryLockError::WouldBlock))
        }
        _ => true,
    }
}

// Ends a line that is torn, and has the disk keep that the file is in its folder, where that is asked for.
fn begin(rt: &HostRuntime, name: &str, file: &mut File, does: ArchiveHost) -> io::Result<()> {
    if may_be_torn(rt, name, file) {
        file.write_all(b"\n")?;
    }
    if does.is_synced {
        sync_folder(rt, name)?;
    }
    Ok(())
}

// Opens a file for appending, with what its host is to do for it. Of a file that is another's nothing is changed.
fn open_by(rt: &HostRuntime, name: &str, does: ArchiveHost) -> Result<File, Unopened> {
    let mut file = match open_in_folder(rt, name, does) {
        Ok(file) => file,
        Err(error) => return Err(Unopened::Host(error)),
    };
    if !is_own(&file, does) {
        return Err(Unopened::Locked);
    }
    match begin(rt, name, &mut file, does) {
        Ok(()) => Ok(file),
        Err(error) => Err(Unopened::Host(error)),
    }
}

/// The file of that name, to whose end lines are written. Where it ends in the middle of a line, or that isn't known, a line
/// feed is written first. No other process has it so: its lock ends as it is closed.
pub fn open_file(rt: &HostRuntime, name: &str, does: ArchiveHost) -> Result<File, Unopened> {
    if !does.may_be_any && is_other(rt, name) {
        return Err(Unopened::NotRegular);
    }
    open_by(rt, name, does)
}
