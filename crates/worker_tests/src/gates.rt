//! Gates that hold a worker up.
use host_io::Gate;
use std::hint;
use std::sync::atomic::{AtomicU64, Ordering};
use std::sync::{Mutex, Wait};

// How often the worker of the frame looks for the others.
const LOOKS: u32 = 50_000_000;

/// Holds a frame until so many others are drawn, for some while, and notes whether it saw them drawn.
#[derive(Drop)]
pub struct HeldFrame {
    held: u32,
    awaited: u64,
    others: AtomicU64,
    saw: AtomicU64,
}

impl HeldFrame {
    /// Holds this frame until another one is drawn. No frame is drawn.
    pub fn new(held: u32) -> HeldFrame {
        HeldFrame::until(held, 1)
    }

    /// Holds this frame until so many others are drawn. No frame is drawn.
    pub fn until(held: u32, awaited: u64) -> HeldFrame {
        HeldFrame {
            held,
            awaited,
            others: AtomicU64::new(0),
            saw: AtomicU64::new(0),
        }
    }

    /// Whether the frame was held while the others were drawn.
    pub fn saw_another(&self) -> bool {
        self.saw.load(Ordering::SeqCst) == 1
    }
}

impl Gate for HeldFrame {
    fn drawn(&self, frame: u32) {
        if frame != self.held {
            self.others.fetch_add(1, Ordering::SeqCst);
            return;
        }
        for _ in 0..LOOKS {
            if self.others.load(Ordering::SeqCst) >= self.awaited {
                self.saw.store(1, Ordering::SeqCst);
                return;
            }
            hint::spin_loop();
        }
    }
}

/// Counts frames under a lock, for which it waits with a handle of its own.
#[derive(Drop)]
pub struct Counted<'a, R: Wait> {
    rt: &'a R,
    frames: Mutex<u32>,
}

impl<'a, R: Wait> Counted<'a, R> {
    /// No frame is counted.
    pub fn new(rt: &'a R) -> Counted<'a, R> {
        Counted {
            rt,
            frames: Mutex::new(0),
        }
    }

    /// How many frames were drawn.
    pub fn frames(&self) -> u32 {
        *self.frames.lock(self.rt)
    }
}

impl<'a, R: Wait + Sync> Gate for Counted<'a, R> {
    fn drawn(&self, _frame: u32) {
        let mut frames = self.frames.lock(self.rt);
        *frames = frames.saturating_add(1);
    }
}
