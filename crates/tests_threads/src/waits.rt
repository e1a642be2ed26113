//! Waiting for another thread, for some seconds at most.
use ref_shared::{Gate, Spot};
use std::sync::atomic::{AtomicBool, Ordering};
use std::thread;
use std::time::{Clock, Duration};

/// Waits until somebody has set a flag, for some seconds at most, and returns whether it was set.
pub fn wait_for<R: Clock>(rt: &R, flag: &AtomicBool) -> bool {
    for _ in 0..200_000u32 {
        if flag.load(Ordering::SeqCst) {
            return true;
        }
        thread::sleep(rt, Duration::from_micros(1));
    }
    false
}

/// Waits for a flag, and then some time more, in which the thread that set it has begun to wait.
pub fn wait_past<R: Clock>(rt: &R, flag: &AtomicBool) -> bool {
    let is_set = wait_for(rt, flag);
    thread::sleep(rt, Duration::from_millis(20));
    is_set
}

/// A gate that holds an action until another thread has come so far, and some time more.
#[derive(Drop)]
pub struct Meet<'a, 'b, 'c, R: Clock> {
    pub rt: &'a R,
    pub here: &'b AtomicBool,
    pub there: &'c AtomicBool,
    /// Whether the other came.
    pub met: bool,
}

impl<'a, 'b, 'c, R: Clock> Meet<'a, 'b, 'c, R> {
    pub fn at(rt: &'a R, here: &'b AtomicBool, there: &'c AtomicBool) -> Meet<'a, 'b, 'c, R> {
        let met = false;
        Meet {
            rt,
            here,
            there,
            met,
        }
    }
}

impl<'a, 'b, 'c, R: Clock> Gate for Meet<'a, 'b, 'c, R> {
    fn pass(&mut self, spot: Spot) {
        if spot == Spot::BeforeAction {
            self.here.store(true, Ordering::SeqCst);
            self.met = wait_past(self.rt, self.there);
        }
    }
}
