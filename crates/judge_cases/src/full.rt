//! Sixty-four operations, and nothing left of those that were there before.
use crate::step::{Case, Step};

pub const CASES: &[Case] = &[
    (
        "64 writes, one too many, and one in place of another",
        &[
            Step::Size(2, 1),
            Step::Writes(1, 64),
            Step::Judge,
            Step::View(1, 65),
            Step::Record(2, 2, 1, 0, 8),
            Step::View(1, 64),
            Step::Strike(1),
            Step::View(1, 64),
            Step::Record(2, 2, 1, 0, 8),
            Step::Judge,
            Step::View(1, 64),
        ],
    ),
    (
        "63 writes and a read, and another read in its place",
        &[
            Step::Size(2, 1),
            Step::Writes(1, 63),
            Step::Record(2, 1, 1, 163, 7),
            Step::Judge,
            Step::View(1, 64),
            Step::Strike(2),
            Step::Record(2, 1, 1, 0, 0),
            Step::Judge,
            Step::View(1, 64),
        ],
    ),
];
