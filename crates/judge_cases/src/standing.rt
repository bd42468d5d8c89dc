//! How long a legal verdict stands.
use crate::step::{Case, Step};

// 101 writes a 1, 102 writes c 0, 103 reads b from the start; 201 writes b 1, 202 writes c 2, 203 reads a from the start.
const BUFFERING: &[u8] = &[
    2, 3, 3, 2, 1, 0, 0, 0, 0, 0, 1, 2, 3, 0, 0, 0, 0, 0, 0, 1, 2, 0, 0, 0, 0, 0, 0, 3, 2, 2, 0, 0,
    0, 0, 0, 1, 2, 3, 0, 0, 0, 0, 0, 2, 1, 1, 0, 0, 0, 0, 0, 0,
];

pub const STAYS: &[Case] = &[(
    "verdict, views, refused calls, and views again",
    &[
        Step::Load(BUFFERING),
        Step::View(1, 2),
        Step::Judge,
        Step::View(1, 1),
        Step::View(1, 2),
        Step::View(2, 3),
        Step::View(3, 4),
        Step::View(0, 2),
        Step::View(4, 2),
        Step::View(4, 0),
        Step::View(3, 0),
        Step::Size(2, 3),
        Step::Size(0, 3),
        Step::Record(3, 2, 1, 0, 1),
        Step::Record(1, 0, 1, 0, 1),
        Step::Record(1, 2, 4, 0, 1),
        Step::Record(1, 2, 1, 101, 1),
        Step::Strike(3),
        Step::Load(&[2]),
        Step::View(1, 2),
        Step::Inspect(&[2, 203, 101, 2, 103, 201, 2, 102, 202]),
        Step::Inspect(&[2, 203, 101, 2, 103, 201, 2, 202, 102]),
        Step::Inspect(&[2, 101, 203, 2, 103, 201, 2, 102, 202]),
        Step::Save(4),
        Step::View(2, 2),
        Step::Judge,
        Step::View(3, 2),
    ],
)];

pub const ENDS: &[Case] = &[
    (
        "ended by a size",
        &[
            Step::Judge,
            Step::View(1, 1),
            Step::Size(2, 1),
            Step::View(1, 1),
            Step::Judge,
            Step::View(2, 1),
            Step::Size(2, 1),
            Step::View(2, 1),
        ],
    ),
    (
        "ended by a record",
        &[
            Step::Record(1, 2, 1, 0, 5),
            Step::Judge,
            Step::View(1, 2),
            Step::Record(1, 2, 1, 0, 6),
            Step::View(1, 2),
            Step::Judge,
            Step::View(1, 2),
        ],
    ),
    (
        "ended by a strike",
        &[
            Step::Record(1, 2, 1, 0, 5),
            Step::Record(1, 2, 1, 0, 6),
            Step::Judge,
            Step::View(1, 2),
            Step::Strike(1),
            Step::View(1, 2),
            Step::Judge,
            Step::View(1, 2),
        ],
    ),
    (
        "ended by a load, also of the same file",
        &[
            Step::Load(&[1, 1, 1, 2, 1, 0, 0, 0, 0, 0, 5]),
            Step::Judge,
            Step::View(1, 2),
            Step::Load(&[1, 1, 1, 2, 1, 0, 0, 0, 0, 0, 5]),
            Step::View(1, 2),
            Step::Judge,
            Step::View(1, 2),
            Step::Load(&[1, 1, 0]),
            Step::View(1, 2),
            Step::Judge,
            Step::View(1, 2),
        ],
    ),
];
