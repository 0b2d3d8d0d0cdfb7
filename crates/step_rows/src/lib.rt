// What the step checker works on: the table of labels, and rows of numbers, step lines and held serials. specs/ says
// how each is read.
#![tactic(auto)]

pub mod lines;
pub mod ops;

use logic::Interval;
use request::ranges;
use steps::Hypothesis;

// What each label stands for.
pub const LABELS: usize = ranges::LABELS as usize;

pub type LabelRows = [Hypothesis; LABELS];

// What stands at a label that is not taken.
pub const NO_HYPOTHESIS: Hypothesis = Hypothesis {
    formula: 0,
    interval: Interval {
        from: 0,
        to: 0,
        first: 0,
        last: 0,
    },
};

// The step lines of a booking, eight numbers a step.
pub const STEP_WIDTH: usize = 8;

pub const STEP_CELLS: usize = ranges::STEPS_LAST as usize * STEP_WIDTH;

pub type StepRows = [u32; STEP_CELLS];

// The serials of a booking's hold lines.
pub const SERIALS: usize = ranges::HOLDS_LAST as usize;

pub type Serials = [u32; SERIALS];

// A step line as a row: its number, label, the high and low 32 bits of its set of labels (document 01: share), its
// interval; 0, and no interval, where a step has no such field. The holder of `al` stands as the low number.
#[derive(Clone, Copy)]
pub struct StepRow {
    pub op: u32,
    pub label: u32,
    pub high: u32,
    pub low: u32,
    pub interval: logic::Window,
}
