// Lists nets that check refuses, one for each reason: up to the refused word, and whole where a plan is refused.
#![tactic(auto)]

use listing::list::list_words;
use listing::output::LineOutput;
use std::fmt;
use std::fmt::Write;

struct Case {
    name: &'static str,
    words: &'static [u32],
}

const CASES: [Case; 14] = [
    Case {
        name: "no words",
        words: &[],
    },
    Case {
        name: "a net that ends in its first arc",
        words: &[
            0x1000_0101,
            0x2000_0001,
            0x3000_0009,
            0x4001_0011,
            0x3000_0009,
            0x5000_0000,
            0x7000_0001,
        ],
    },
    Case {
        name: "a VARIABLE where a RANGE is due",
        words: &[0x1000_0101, 0x2000_0002, 0x3000_0009, 0x8000_0000],
    },
    Case {
        name: "a net of 0 places",
        words: &[0x1000_0001, 0x2000_0001],
    },
    Case {
        name: "a place of 5 components",
        words: &[0x1000_0101, 0x2000_0005],
    },
    Case {
        name: "a range from 9 to 0",
        words: &[0x1000_0101, 0x2000_0001, 0x3002_4000],
    },
    Case {
        name: "a transition of 9 variables",
        words: &[0x1000_0101, 0x2000_0001, 0x3000_0009, 0x4000_0009],
    },
    Case {
        name: "an arc to a place that is not there",
        words: &[
            0x1000_0101,
            0x2000_0001,
            0x3000_0009,
            0x4000_0100,
            0x5000_0001,
        ],
    },
    Case {
        name: "a variable that is not there",
        words: &[
            0x1000_0101,
            0x2000_0001,
            0x3000_0009,
            0x4001_0011,
            0x3000_0009,
            0x5000_0000,
            0x7000_0001,
            0x8000_0001,
        ],
    },
    Case {
        name: "an operator that is not there",
        words: &[
            0x1000_0101,
            0x2000_0001,
            0x3000_0009,
            0x4001_1001,
            0x3000_0009,
            0x6000_0000,
            0x8000_0000,
            0x9000_0005,
        ],
    },
    Case {
        name: "an element of sort 3",
        words: &[
            0x1000_0101,
            0x2000_0001,
            0x3000_0009,
            0x4001_0001,
            0x3000_0009,
            0xA000_0300,
        ],
    },
    Case {
        name: "words left behind a net",
        words: &[
            0x1000_0101,
            0x2000_0001,
            0x3FFF_8009,
            0x4000_0100,
            0x5000_0000,
            0x7000_0001,
            0x7000_3FFE,
            0xB000_0001,
            0xC000_0000,
        ],
    },
    Case {
        name: "a second element that binds nothing new",
        words: &[
            0x1000_0101,
            0x2000_0001,
            0x3000_0009,
            0x4002_0001,
            0x3000_0009,
            0xA000_0200,
            0xA000_0200,
        ],
    },
    Case {
        name: "a variable that the plan leaves unbound",
        words: &[
            0x1000_0101,
            0x2000_0001,
            0x3000_0009,
            0x4000_0001,
            0x3000_0009,
        ],
    },
];

fn list_all(out: &mut impl fmt::Write) -> fmt::Result {
    for case in CASES.iter() {
        writeln!(out, "{}", case.name)?;
        list_words(out, case.words)?;
    }
    Ok(())
}

fn main() {
    let _ = list_all(&mut LineOutput::new());
}
