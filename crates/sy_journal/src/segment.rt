//! A segment: its log, its finishes, how many entries it has, and for how many it has places.
ghost use Rattle.std.specs.Prelude.{◌≡◌, ◌<◌, ◌≤◌, ◌+◌, ◌++◌, ◌⊎◌, [], List, ℕ, length, take, drop, map, IsTrue, IfOk, IfSome, IfNone, OnErr, OnOk, IsErrOf};
ghost use Rattle.sy_journal.specs.Bridge.{slots};
ghost use Rattle.sy_journal.specs.Storage.{LeavesOnly, Only, written_at};
ghost use Rattle.sy_journal.specs.Frames.{IsFrame, Reads};
ghost use Rattle.sy_journal.specs.Life.{unfinished};
ghost use Rattle.sy_journal.specs.Log.{IsAsBefore, IsCleared};
ghost use Rattle.sy_journal.specs.Finishes.{Fades, AllSet};
ghost use Rattle.sy_journal.specs.Packing.{packed, AreShort};
ghost use Rattle.sy_journal.specs.Segment.{IsReady, IsWithOrWithout, AreBatches, StandFor};

use crate::finishes::{all_set, finish};
use crate::{Log, Storage, StorageError, recover_log, unpack};
use std::alloc::{AllocError, Global};

#[derive(Drop)]
pub struct Segment<S: Storage> {
    pub log: Log<S>,
    pub finishes: S,
    pub count: usize,
    pub places: usize,
}

impl<S: Storage> Segment<S> {
    /// Appends a batch of so many entries, with one sync. At `Ok` it is on the disk. At `Full` nothing has changed.
    /// At another `Err`, open the files again.
    pub fn append(&mut self, frame: &[u8], many: usize) -> Result<(), StorageError>
        requires ready { IsReady S.seen S.may_leave self.old }
        requires frame { IsFrame (drop 8 frame.now) frame.now }
        requires packs { (batch : List (List ℕ)) × (drop 8 frame.now ≡ packed batch) × (many ≡ length batch) × AreShort batch }

        ensures ready { OnOk result (IsReady S.seen S.may_leave self.new) }
        ensures appended { OnOk result ((entries batch : List (List ℕ)) → drop 8 frame.now ≡ packed batch → AreShort batch
            → StandFor (S.seen self.old.log.file) (S.seen self.old.finishes) entries
            → StandFor (S.seen self.new.log.file) (S.seen self.new.finishes) (entries ++ batch)) }

        // A crash at any moment of the call leaves the entries from before it, with the whole batch or with none of it.
        ensures any_moment { LeavesOnly S.moment S.left_since self.old.log.file self.new.log.file
            (IsWithOrWithout (S.seen self.old.log.file) (drop 8 frame.now)) }
        ensures finishes { self.new.finishes ≡ self.old.finishes }
        ensures places { self.new.places ≡ self.old.places }
        ensures count { OnErr result (self.new.count ≡ self.old.count) }

        ensures failed { IsErrOf result StorageError.Failed → S.faults self.old.log.file < S.faults self.new.log.file }
        ensures full { IsErrOf result StorageError.Full → (self.new ≡ self.old) × ((self.old.places < self.old.count + many) ⊎ (self.old.log.size < self.old.log.end + length frame.now)) }
    {
        if self.places - self.count < many {
            return Err(StorageError::Full);
        }
        self.log.append(frame)?;
        self.count += many;
        Ok(())
    }

    /// Finishes a run of entries. It isn't synced: a crash may lose finishes, and makes none.
    pub fn finish(&mut self, first: usize, run: &[u8]) -> Result<(), StorageError>
        requires ready { IsReady S.seen S.may_leave self.old }
        requires within { first + length run.now ≤ self.old.count }
        requires set { AllSet run.now }

        ensures ready { OnOk result (IsReady S.seen S.may_leave self.new) }
        ensures finished { OnOk result (S.seen self.new.finishes ≡ written_at first run.now (S.seen self.old.finishes)) }
        ensures any_moment { LeavesOnly S.moment S.left_since self.old.finishes self.new.finishes (Fades (written_at first run.now (S.seen self.old.finishes))) }
        ensures log { self.new.log ≡ self.old.log }
        ensures failed { IsErrOf result StorageError.Failed → S.faults self.old.finishes < S.faults self.new.finishes }
    {
        finish(&mut self.finishes, first, run)?;
        Ok(())
    }

    /// Whether no entry has work left: then the segment may be removed.
    pub fn is_done(&mut self, alloc: Global) -> Result<bool, StorageError>
        requires ready { IsReady S.seen S.may_leave self.old }
        ensures done { IfOk result (λ yes. IsTrue yes → (base : ℕ) (entries : List (List ℕ)) → length entries ≡ self.old.count
            → unfinished (slots base entries (S.seen self.old.finishes)) ≡ []) }
        ensures log { self.new.log ≡ self.old.log }
        ensures same { S.seen self.new.finishes ≡ S.seen self.old.finishes }
    {
        let finishes = self.finishes.read(alloc)?;
        if finishes.len() < self.count {
            return Ok(false);
        }
        Ok(all_set(&finishes[..self.count]))
    }
}

// The entries of all contents, one behind the other, or none where a content isn't one.
fn entries_of(alloc: Global, contents: &[Vec<u8>]) -> Result<Option<Vec<Vec<u8>>>, AllocError>
    ensures some { (es : List (List ℕ)) → AreBatches (map (λ v. v.items) contents.now) es → IfOk result (λ found. IfSome found (λ entries. map (λ v. v.items) entries.items ≡ es)) }
    ensures none { (es : List (List ℕ)) → AreBatches (map (λ v. v.items) contents.now) es → IfOk result (λ found. IfNone found ⊥) }
{
    let mut entries = Vec::new(alloc);
    let mut rest = contents;
    while let [content, after @ ..] = rest {
        let Some(batch) = unpack(alloc, content)? else {
            return Ok(None);
        };
        append_all(&mut entries, batch)?;
        rest = after;
    }
    Ok(Some(entries))
}

fn append_all(entries: &mut Vec<Vec<u8>>, batch: Vec<Vec<u8>>) -> Result<(), AllocError>
    ensures { OnOk result (entries.new.items ≡ entries.old.items ++ batch.items) }
{
    let mut batch = batch;
    entries.append(&mut batch)
}

/// What the files of a segment have.
#[derive(Drop)]
pub struct Recovered {
    pub entries: Vec<Vec<u8>>,
    pub finishes: Vec<u8>,
    pub end: usize,
    pub size: usize,
}

/// Reads the files of a segment that a crash may have left, and clears what is torn. It may crash too.
/// None where they are no segment.
pub fn recover_segment<S: Storage>(
    alloc: Global,
    log: &mut S,
    finishes: &mut S,
) -> Result<Option<Recovered>, StorageError>
    // After a restart, what is read is what is on the disk.
    requires log { Only (S.seen log.old) (S.may_leave log.old) }
    requires finishes { Only (S.seen finishes.old) (S.may_leave finishes.old) }

    // Every entry comes back, in order, and nothing else.
    ensures entries { (es : List (List ℕ)) → StandFor (S.seen log.old) (S.seen finishes.old) es → IfOk result (λ o. IfSome o (λ opened. map (λ v. v.items) opened.entries.items ≡ es)) }
    ensures none { (es : List (List ℕ)) → StandFor (S.seen log.old) (S.seen finishes.old) es → IfOk result (λ o. IfNone o ⊥) }
    ensures set { IfOk result (λ o. IfSome o (λ opened. opened.finishes.items ≡ S.seen finishes.old)) }
    ensures durable { OnOk result (Only (S.seen log.new) (S.may_leave log.new)) }
    ensures cleared { IfOk result (λ o. IfSome o (λ opened. (contents : List (List ℕ)) × Reads contents (S.seen log.old) × IsCleared (S.seen log.new) contents opened.end opened.size)) }
    ensures same { OnOk result (IsAsBefore (S.seen log.old) (S.seen log.new)) }
    ensures finishes { S.seen finishes.new ≡ S.seen finishes.old }
    ensures finishes_crash { (c : List ℕ) → S.may_leave finishes.new c → S.may_leave finishes.old c }
    ensures any_moment { LeavesOnly S.moment S.left_since log.old log.new (IsAsBefore (S.seen log.old)) }
    ensures finishes_any_moment { LeavesOnly S.moment S.left_since finishes.old finishes.new (λ c. c ≡ S.seen finishes.old) }
{
    let found = recover_log(alloc, log)?;
    let Some(entries) = entries_of(alloc, &found.contents)? else {
        return Ok(None);
    };
    let set = finishes.read(alloc)?;
    Ok(Some(Recovered {
        entries,
        finishes: set,
        end: found.end,
        size: found.size,
    }))
}

/// A segment and what its files have: its entries in order, and a finish for each, 0 where it has work left.
#[derive(Drop)]
pub struct Opened<S: Storage> {
    pub segment: Segment<S>,
    pub entries: Vec<Vec<u8>>,
    pub finishes: Vec<u8>,
}

/// AreBatches the files of a segment, so that it can go on. None where they are no segment.
pub fn open_segment<S: Storage + Drop>(
    alloc: Global,
    log: S,
    finishes: S,
) -> Result<Option<Opened<S>>, StorageError>
    requires log { Only (S.seen log) (S.may_leave log) }
    requires finishes { Only (S.seen finishes) (S.may_leave finishes) }
    ensures entries { (es : List (List ℕ)) → StandFor (S.seen log) (S.seen finishes) es → IfOk result (λ o. IfSome o (λ r. map (λ v. v.items) r.entries.items ≡ es)) }
    ensures set { IfOk result (λ o. IfSome o (λ r. r.finishes.items ≡ S.seen finishes)) }
    ensures ready { (es : List (List ℕ)) → StandFor (S.seen log) (S.seen finishes) es → IfOk result (λ o. IfSome o (λ r. IsReady S.seen S.may_leave r.segment)) }
    ensures same { (es : List (List ℕ)) → StandFor (S.seen log) (S.seen finishes) es → IfOk result (λ o. IfSome o (λ r. StandFor (S.seen r.segment.log.file) (S.seen r.segment.finishes) es)) }
{
    let mut log = log;
    let mut finishes = finishes;
    let Some(opened) = recover_segment(alloc, &mut log, &mut finishes)? else {
        return Ok(None);
    };
    let count = opened.entries.len();
    let places = opened.finishes.len();
    if places < count {
        return Ok(None);
    }
    Ok(Some(Opened {
        segment: Segment {
            log: Log {
                file: log,
                end: opened.end,
                size: opened.size,
            },
            finishes,
            count,
            places,
        },
        entries: opened.entries,
        finishes: opened.finishes,
    }))
}
