//! How far a peer has come in its frames.

ghost use Rattle.std.specs.Prelude.{◌≡◌, ◌≤◌, ◌<◌, ℕ, List, [], ◌++◌, length, take, Option};
ghost use Rattle.std.specs.declared.time.Duration.{Duration};
ghost use Rattle.deadlines.specs.Progress.{Came, IsCut, bytes_at, frame_start, part_of};

use std::time::Duration;

/// What has come of the frame that the next byte belongs to.
#[derive(Clone, Copy, Debug, PartialEq, Eq)]
pub(crate) enum Part {
    /// Nothing: the byte is the first one of a frame.
    Nothing,
    /// The first byte of its size field.
    One(u8),
    /// The first two bytes of its size field.
    Two(u8, u8),
    /// The first three bytes of its size field.
    Three(u8, u8, u8),
    /// Its size field, and its body but for so many bytes and one more.
    Body(u32),
}

/// How far a peer has come in its frames, and when the first byte came of the frame that isn't whole, counted from the session's
/// beginning.
#[derive(Clone, Copy, Debug, PartialEq, Eq)]
pub(crate) struct Progress {
    part: Part,
    since: Duration,
}

/// What has come of a frame when so many bytes of its body are still to come: where that is 0, the frame is whole, and nothing
/// has come of the next.
fn part_of(to_come: u32) -> Part
    ensures { result ≡ part_of to_come }
{
    match to_come.checked_sub(1) {
        None => Part::Nothing,
        Some(more) => Part::Body(more),
    }
}

impl Progress {
    /// No byte has come: the next one is the first one of a frame.
    pub(crate) fn new() -> Progress
        ensures { IsCut [] result }
    {
        Progress {
            part: Part::Nothing,
            since: Duration::ZERO,
        }
    }

    /// When the first byte came of the frame that isn't whole yet, on the session's clock; `None` between two frames.
    pub(crate) fn begun(&self) -> Option<Duration>
        ensures { (came : List Came) → (cut : IsCut came self.now) → result ≡ frame_start cut.part }
    {
        match self.part {
            Part::Nothing => None,
            _ => Some(self.since),
        }
    }

    /// Takes in the next byte of a size field, or as many bytes as belong to the same body, and gives how many those are: at
    /// least one. `now` is counted from the session's beginning.
    fn step(&mut self, bytes: &[u8], now: Duration) -> usize
        requires { 0 < length bytes.now }
        ensures some { 0 < result }
        ensures few { result ≤ length bytes.now }
        ensures cut { (came : List Came) → IsCut came self.old
            → IsCut (came ++ bytes_at now (take result bytes.now)) self.new }
    {
        let byte = bytes[0];
        match self.part {
            Part::Nothing => {
                self.since = now;
                self.part = Part::One(byte);
            }
            Part::One(a) => self.part = Part::Two(a, byte),
            Part::Two(a, b) => self.part = Part::Three(a, b, byte),
            Part::Three(a, b, c) => self.part = part_of(u32::from_be_bytes([a, b, c, byte])),
            Part::Body(more) => {
                let to_come = more as usize + 1;
                let count = bytes.len().min(to_come);
                self.part = part_of((to_come - count) as u32);
                return count;
            }
        }
        1
    }

    /// Takes in all bytes of a read, which came at `now`: they may end frames and begin others.
    pub(crate) fn pass(&mut self, bytes: &[u8], now: Duration)
        ensures { (came : List Came) → IsCut came self.old → IsCut (came ++ bytes_at now bytes.now)
            self.new }
    {
        let mut passed = 0;
        while passed < bytes.len() {
            passed += self.step(&bytes[passed..], now);
        }
    }
}
