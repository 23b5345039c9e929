//! The steps of a board, each where there is a message that it is about.

mod entries;
pub mod inputs;
pub mod posts;
pub mod runs;

use crate::checker::guarded_plan;
use std::alloc::Global;
use std::sync::Arc;
use sy_board::Board;
use sy_rules::Plan;
use sy_script::read_script;

// The main queue has room for one message. So has the queue of the first action, which the second worker works.
const SCRIPT: &[u8] = br#"
module(load="imtcp")
main_queue(queue.size="1")
input(type="imtcp" port="1" flowControl="off")
action(name="inner" type="omfile" file="f" queue.type="LinkedList" queue.size="1")
action(name="outer" type="omfile" file="g" action.resumeRetryCount="-1")
"#;

/// A board without a guard.
pub fn board_without_guard(alloc: Global) -> Option<Board> {
    let Ok(script) = read_script(alloc, SCRIPT) else {
        return None;
    };
    let Ok(plan) = Plan::load(alloc, &script) else {
        return None;
    };
    Board::new(alloc, Arc::new(alloc, plan).ok()?, None).ok()
}

/// A board with the guard of a site that was accepted.
pub fn guarded_board(alloc: Global) -> Option<Board> {
    let (plan, guard) = guarded_plan(alloc)?;
    Board::new(alloc, plan, Some(guard)).ok()
}
