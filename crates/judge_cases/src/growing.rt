//! A trace that is illegal, grows, and stays illegal until something is taken away.
//!
//! 101 reads y 1 from 202, 102 writes x 1; 201 reads x 1 from 102, 202 writes y 1. Each read saw what comes after the other.
use crate::step::{Case, Step};

pub const ILLEGAL: &[Case] = &[
    (
        "each read saw what comes after the other",
        &[
            Step::Size(2, 2),
            Step::Record(1, 1, 2, 202, 1),
            Step::Record(1, 2, 1, 0, 1),
            Step::Record(2, 1, 1, 102, 1),
            Step::Record(2, 2, 2, 0, 1),
            Step::Judge,
            Step::View(1, 4),
            Step::Size(2, 2),
            Step::Strike(3),
            Step::Judge,
            Step::Record(2, 2, 1, 0, 5),
            Step::Judge,
            Step::View(1, 4),
            Step::Strike(2),
            Step::Strike(2),
            Step::Judge,
            Step::View(1, 4),
        ],
    ),
    (
        "the same, and then without the second read",
        &[
            Step::Size(2, 2),
            Step::Record(1, 1, 2, 202, 1),
            Step::Record(1, 2, 1, 0, 1),
            Step::Record(2, 1, 1, 102, 1),
            Step::Record(2, 2, 2, 0, 1),
            Step::Judge,
            Step::Strike(2),
            Step::Strike(2),
            Step::Record(2, 2, 1, 0, 5),
            Step::Judge,
            Step::Record(2, 2, 2, 0, 1),
            Step::Judge,
            Step::View(1, 4),
            Step::View(2, 4),
        ],
    ),
    (
        "the same, and then another trace",
        &[
            Step::Size(2, 2),
            Step::Record(1, 1, 2, 202, 1),
            Step::Record(1, 2, 1, 0, 1),
            Step::Record(2, 1, 1, 102, 1),
            Step::Record(2, 2, 2, 0, 1),
            Step::Judge,
            Step::Load(&[1, 1, 0]),
            Step::Judge,
            Step::View(1, 1),
        ],
    ),
];

pub const LEGAL: &[Case] = &[(
    "each read saw what comes after the other",
    &[
        Step::Size(2, 2),
        Step::Record(1, 1, 2, 202, 1),
        Step::Record(1, 2, 1, 0, 1),
        Step::Record(2, 1, 1, 102, 1),
        Step::Record(2, 2, 2, 0, 1),
        Step::Judge,
        Step::View(1, 3),
        Step::View(2, 3),
    ],
)];
