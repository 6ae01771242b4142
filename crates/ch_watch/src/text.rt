//! The text of a line on progress.

use ch_work::Stage;
use std::fmt;

/// Returns the number of a stage, which an atomic word can hold.
pub(crate) fn number_of(stage: Stage) -> u32 {
    match stage {
        Stage::Reading => 0,
        Stage::Ranking => 1,
        Stage::Building => 2,
        Stage::Checking => 3,
        Stage::Searching => 4,
        Stage::Answering => 5,
    }
}

/// Returns the stage of a number.
pub(crate) fn stage_of(number: u32) -> Stage {
    match number {
        0 => Stage::Reading,
        1 => Stage::Ranking,
        2 => Stage::Building,
        3 => Stage::Checking,
        4 => Stage::Searching,
        _ => Stage::Answering,
    }
}

/// Returns whether the steps of a stage are pieces, which workers claim in order.
pub(crate) fn is_cut_in_pieces(stage: Stage) -> bool {
    match stage {
        Stage::Ranking | Stage::Checking | Stage::Searching | Stage::Answering => true,
        Stage::Reading | Stage::Building => false,
    }
}

/// The number of parts that the time of a stage is divided into.
const WHOLE: u64 = 1 << 20;

/// How far a stage is.
#[derive(Clone, Copy, Debug, PartialEq, Eq)]
pub(crate) struct Progress {
    pub(crate) stage: Stage,
    pub(crate) done: u32,
    pub(crate) all: u32,
    /// The time that the stage has taken, in milliseconds.
    pub(crate) time: u64,
}

impl Progress {
    /// Returns how many of `WHOLE` parts of its time a stage has left, as its steps suggest. Later nodes
    /// take longer to contract. On roads, the share of the time that is left is about the square root of
    /// the share of the nodes that are left.
    fn parts_left(&self) -> u64 {
        let steps = u64::from(self.all.saturating_sub(self.done));
        let all = u64::from(self.all.max(1));
        match self.stage {
            Stage::Building => (steps * WHOLE / all * WHOLE).isqrt(),
            _ => steps * WHOLE / all,
        }
    }

    /// Returns about how many seconds the rest takes, rounded up, or `None` if too little is done to
    /// tell.
    pub(crate) fn seconds_left(&self) -> Option<u64> {
        let left = self.parts_left().min(WHOLE);
        let past = WHOLE - left;
        if past == 0 {
            return None;
        }
        let time = self.time.min(u64::from(u32::MAX));
        Some((time * left / past).div_ceil(1_000))
    }

    /// Returns the words for the work of the stage.
    fn action(&self) -> &'static str {
        match self.stage {
            Stage::Reading => "reading",
            Stage::Ranking => "ranking the nodes",
            Stage::Building => "building",
            Stage::Checking => "checking the saved hierarchy",
            Stage::Searching => "searching",
            Stage::Answering => "answering",
        }
    }

    /// Returns the word for the steps of the stage.
    fn steps(&self) -> &'static str {
        match self.stage {
            Stage::Reading => "files",
            Stage::Building => "nodes",
            Stage::Ranking | Stage::Checking | Stage::Searching | Stage::Answering => "pieces",
        }
    }
}

impl fmt::Display for Progress {
    fn fmt<W: fmt::Write>(&self, f: &mut fmt::Formatter<W>) -> fmt::Result {
        let (done, all) = (Grouped(self.done), Grouped(self.all));
        write!(
            f,
            "chtab: {}, {done} of {all} {}",
            self.action(),
            self.steps()
        )?;
        match self.seconds_left() {
            Some(seconds) => write!(f, ", about {} left", Rounded(seconds)),
            None => Ok(()),
        }
    }
}

/// A number, written with a comma between groups of three digits.
#[derive(Clone, Copy)]
struct Grouped(u32);

impl fmt::Display for Grouped {
    fn fmt<W: fmt::Write>(&self, f: &mut fmt::Formatter<W>) -> fmt::Result {
        let Grouped(number) = *self;
        let (thousands, ones) = (number / 1_000, number % 1_000);
        if thousands == 0 {
            return write!(f, "{ones}");
        }
        let (millions, thousands) = (thousands / 1_000, thousands % 1_000);
        if millions == 0 {
            return write!(f, "{thousands},{ones:03}");
        }
        let (billions, millions) = (millions / 1_000, millions % 1_000);
        if billions == 0 {
            return write!(f, "{millions},{thousands:03},{ones:03}");
        }
        write!(f, "{billions},{millions:03},{thousands:03},{ones:03}")
    }
}

/// A time in seconds, written in minutes from 100 s on, and in hours from 6,000 s on, rounded up.
#[derive(Clone, Copy)]
struct Rounded(u64);

impl fmt::Display for Rounded {
    fn fmt<W: fmt::Write>(&self, f: &mut fmt::Formatter<W>) -> fmt::Result {
        let Rounded(seconds) = *self;
        match seconds {
            0..=99 => write!(f, "{seconds} s"),
            100..=5_999 => write!(f, "{} min", seconds.div_ceil(60)),
            _ => write!(f, "{} h", seconds.div_ceil(3_600)),
        }
    }
}
