//! Gates that hold one thread of a run until another has come so far.
use ref_shared::{Gate, Spot};
use std::sync::atomic::{AtomicBool, AtomicU32, Ordering};
use std::thread;
use std::time::{Clock, Duration};

/// How far the threads of a run have come.
#[derive(Drop)]
pub(crate) struct Board {
    /// How many bodies of the one who is overtaken have ended.
    pub(crate) bodies: AtomicU32,
    /// How many commits the overtaker has made.
    pub(crate) commits: AtomicU32,
    /// How many actions have begun.
    pub(crate) actions: AtomicU32,
    /// Whether somebody has waited in vain.
    pub(crate) late: AtomicBool,
}

impl Board {
    pub(crate) fn new() -> Board {
        Board {
            bodies: AtomicU32::new(0),
            commits: AtomicU32::new(0),
            actions: AtomicU32::new(0),
            late: AtomicBool::new(false),
        }
    }
}

/// What a gate does.
#[derive(Clone, Copy, Drop)]
pub(crate) enum Role {
    /// It lets all pass.
    Open,
    /// It holds so many bodies at their end, the first ones, each until the overtaker has made one more commit.
    Overtaken(u32),
    /// It holds each body until one more body of the other has ended.
    Overtaker,
    /// It holds so many bodies, the first ones, each until one more action has begun.
    Sender(u32),
    /// It says of each action that it has begun.
    Server,
    /// The same, and it holds the action until so many have begun.
    Meeting(u32),
}

/// A gate of one thread, which shows the others on the board how far it has come.
#[derive(Drop)]
pub(crate) struct Turn<'a, 'b, R: Clock> {
    pub(crate) rt: &'a R,
    pub(crate) board: &'b Board,
    pub(crate) role: Role,
    /// How many times it stood where its role holds it.
    pub(crate) times: u32,
}

impl<'a, 'b, R: Clock> Gate for Turn<'a, 'b, R> {
    fn pass(&mut self, spot: Spot) {
        let board = self.board;
        match (self.role, spot) {
            (Role::Overtaken(most), Spot::AfterBody) => {
                if self.times < most {
                    board.bodies.fetch_add(1, Ordering::SeqCst);
                }
                self.hold(most, &board.commits);
            }
            (Role::Overtaker, Spot::BeforeBody) => self.hold(u32::MAX, &board.bodies),
            (Role::Overtaker, Spot::AfterCommit) => {
                board.commits.fetch_add(1, Ordering::SeqCst);
            }
            (Role::Sender(most), Spot::BeforeBody) => self.hold(most, &board.actions),
            (Role::Server, Spot::BeforeAction) => {
                board.actions.fetch_add(1, Ordering::SeqCst);
            }
            (Role::Meeting(all), Spot::BeforeAction) => {
                board.actions.fetch_add(1, Ordering::SeqCst);
                wait_for(self.rt, board, &board.actions, all);
            }
            _ => {}
        }
    }
}

impl<'a, 'b, R: Clock> Turn<'a, 'b, R> {
    // The first so many times here, it waits until this count is as high as the times.
    fn hold(&mut self, most: u32, count: &AtomicU32) {
        self.times = self.times.saturating_add(1);
        if self.times <= most {
            wait_for(self.rt, self.board, count, self.times);
        }
    }
}

// Waits until a count is so high, for some seconds at most; after that nobody waits any more.
pub(crate) fn wait_for<R: Clock>(rt: &R, board: &Board, count: &AtomicU32, least: u32) {
    for _ in 0..200_000u32 {
        if count.load(Ordering::SeqCst) >= least || board.late.load(Ordering::SeqCst) {
            return;
        }
        thread::sleep(rt, Duration::from_micros(1));
    }
    board.late.store(true, Ordering::SeqCst);
}
