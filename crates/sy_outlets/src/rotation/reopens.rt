//! What asks for archives to be opened anew, and wakes who watches over them.

use crate::rotation::rotated::Rotated;
use std::alloc::{AllocError, Global};
use std::mem;
use std::sync::atomic::{AtomicBool, AtomicU64, Ordering};
use std::sync::{Arc, Mutex, Wait};
use std::thread::Parker;
use std::time::{Clock, Duration};

/// How often the last answer is waited for, and how long each time, in milliseconds.
const LAST_WAITS: u32 = 10;

const LAST_WAIT: u64 = 100;

/// What the devices of archives, who asks for them to be opened anew, and who watches over them share.
#[derive(Drop)]
pub struct Reopens {
    // those that nobody watches over yet
    archives: Mutex<Vec<Arc<Rotated>>>,
    // how often it was asked for
    asked: AtomicU64,
    // wakes who watches
    change: Parker,
    is_ending: AtomicBool,
    // tells that nobody watches any more
    end: Parker,
    has_ended: AtomicBool,
}

impl Reopens {
    /// Of no archive yet.
    pub fn new(alloc: Global) -> Reopens {
        Reopens {
            archives: Mutex::new(Vec::new(alloc)),
            asked: AtomicU64::new(0),
            change: Parker::new(),
            is_ending: AtomicBool::new(false),
            end: Parker::new(),
            has_ended: AtomicBool::new(false),
        }
    }

    /// Adds an archive, before anybody watches.
    pub fn push(&self, archive: Arc<Rotated>) -> Result<(), AllocError> {
        let Some(mut archives) = self.archives.try_lock() else {
            return Err(AllocError);
        };
        match archives.push(archive) {
            Ok(()) => Ok(()),
            Err(_) => Err(AllocError),
        }
    }

    /// Takes the archives, for who watches over them from now on.
    pub fn take<R: Wait>(&self, rt: &R, alloc: Global) -> Vec<Arc<Rotated>> {
        let mut archives = self.archives.lock(rt);
        mem::replace(&mut *archives, Vec::new(alloc))
    }

    /// Asks for all archives to be opened anew. It waits for none: who watches over them answers.
    pub fn ask(&self) {
        let _ = self.asked.fetch_add(1, Ordering::SeqCst);
        self.change.unpark();
    }

    /// How often that was asked for.
    pub fn asked(&self) -> u64 {
        self.asked.load(Ordering::SeqCst)
    }

    /// Wakes who watches.
    pub fn wake(&self) {
        self.change.unpark();
    }

    /// Waits until something changes, for so many milliseconds at most where that is given.
    pub fn wait<R: Wait>(&self, rt: &R, most: Option<u64>) {
        match most {
            Some(most) => self.change.park_timeout(rt, Duration::from_millis(most)),
            None => self.change.park(rt),
        }
    }

    /// Whether the relay ends.
    pub fn is_ending(&self) -> bool {
        self.is_ending.load(Ordering::SeqCst)
    }

    /// Nobody watches any more.
    pub fn set_ended(&self) {
        self.has_ended.store(true, Ordering::SeqCst);
        self.end.unpark();
    }

    /// Has what was asked for answered, and waits for that, but not for long: a file system may not answer.
    pub fn finish<R: Wait + Clock>(&self, rt: &R) {
        self.is_ending.store(true, Ordering::SeqCst);
        self.change.unpark();
        for _ in 0..LAST_WAITS {
            if self.has_ended.load(Ordering::SeqCst) {
                return;
            }
            self.end.park_timeout(rt, Duration::from_millis(LAST_WAIT));
        }
    }
}
