//! The thread that prints what a relay that runs has to say.

use std::alloc::AllocError;
use std::sync::{Arc, Wait};
use std::thread;
use std::thread::Threads;
use std::time::{Clock, Duration};
use sy_inputs::serving::Serving;
use sy_wire::Sink;

/// For how many milliseconds the last lines are waited for: nobody may read them.
const LAST_LINES_WAIT: u64 = 1000;

// What the thread has.
#[derive(Drop)]
struct Printed<E: Drop> {
    serving: Arc<Serving<E>>,
}

// Prints what comes until nothing does any more.
fn print_all<R: Wait + Drop, E: Sink + Drop>(rt: R, of: Printed<E>) {
    for _ in rt.forever() {
        if !of.serving.print_next(&rt) {
            return;
        }
    }
}

/// Has a thread of its own print from now on, until `end_printing`.
pub fn start_printing<
    R: Threads + Wait + Clock + Copy + Send + 'static,
    E: Sink + Drop + Send + 'static,
>(rt: R, serving: &Arc<Serving<E>>) -> Result<(), AllocError> {
    let of = Printed {
        serving: Arc::try_clone(serving)?,
    };
    let printing = serving.printing();
    printing.set_thread(&rt);
    match thread::spawn(&rt, move || print_all(rt, of)) {
        Ok(_thread) => Ok(()),
        Err(_) => {
            printing.unset_thread(&rt);
            Err(AllocError)
        }
    }
}

/// Waits until what came so far is printed, but not for long.
pub fn wait_for_printing<R: Wait + Clock, E: Sink + Drop>(rt: &R, serving: &Serving<E>) {
    serving
        .printing()
        .wait(rt, Duration::from_millis(LAST_LINES_WAIT));
}

/// Has the thread end once all is printed, and waits for that for a while. Where there is none, all is printed here.
pub fn end_printing<R: Wait + Clock, E: Sink + Drop>(rt: &R, serving: &Serving<E>) {
    let printing = serving.printing();
    if printing.has_thread(rt) {
        wait_for_printing(rt, serving);
        printing.set_ending(rt);
    } else {
        serving.print_here(rt);
    }
}
