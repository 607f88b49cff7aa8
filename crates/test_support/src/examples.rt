//! Worked examples with names: systems together with their quotients, and pairs of systems to compare.

/// An example of minimisation: a system, the labels to hide in the system, and its quotients.
#[derive(Clone, Copy, Drop)]
pub struct Example {
    pub name: &'static str,
    pub text: &'static [u8],
    pub hide: &'static [u8],
    pub states: u32,
    pub transitions: u32,
    /// The quotient modulo strong bisimilarity.
    pub strong: &'static [u8],
    /// The quotient modulo branching bisimilarity.
    pub branching: &'static [u8],
}

/// A system with one transition. This system is the quotient of the example `two-equal-targets`.
pub const STEP: &[u8] = b"des (0, 1, 2)\n(0, a, 1)\n";

/// The input of the example `LONE_STATE`.
pub const LONE_STATE_TEXT: &[u8] = b"des (0,0,1)\n";

/// The input of the example `TWO_EQUAL_TARGETS`.
pub const TWO_EQUAL_TARGETS_TEXT: &[u8] = b"des (0, 2, 3)\n(0, a, 1)\n(0, a, 2)\n";

pub const LONE_STATE: Example = Example {
    name: "lone-state",
    text: LONE_STATE_TEXT,
    hide: b"",
    states: 1,
    transitions: 0,
    strong: b"des (0, 0, 1)\n",
    branching: b"des (0, 0, 1)\n",
};

pub const TWO_EQUAL_TARGETS: Example = Example {
    name: "two-equal-targets",
    text: TWO_EQUAL_TARGETS_TEXT,
    hide: b"",
    states: 3,
    transitions: 2,
    strong: STEP,
    branching: STEP,
};

pub const SILENT_CHOICE: Example = Example {
    name: "silent-choice",
    text: b"des (0,2,2)\n(0,i,1)\n(0,a,1)\n",
    hide: b"",
    states: 2,
    transitions: 2,
    strong: b"des (0, 2, 2)\n(0, a, 1)\n(0, i, 1)\n",
    branching: b"des (0, 2, 2)\n(0, a, 1)\n(0, i, 1)\n",
};

pub const CHAIN_OF_THREE: Example = Example {
    name: "chain-of-three",
    text: b"des (0,3,4)\n(0,a,1)\n(1,a,2)\n(2,a,3)\n",
    hide: b"",
    states: 4,
    transitions: 3,
    strong: b"des (0, 3, 4)\n(0, a, 1)\n(1, a, 2)\n(2, a, 3)\n",
    branching: b"des (0, 3, 4)\n(0, a, 1)\n(1, a, 2)\n(2, a, 3)\n",
};

pub const SILENT_CHAIN: Example = Example {
    name: "silent-chain",
    text: b"des (0,3,4)\n(0,i,1)\n(1,i,2)\n(2,a,3)\n",
    hide: b"",
    states: 4,
    transitions: 3,
    strong: b"des (0, 3, 4)\n(0, i, 1)\n(1, i, 2)\n(2, a, 3)\n",
    branching: STEP,
};

pub const SILENT_BESIDE_VISIBLE: Example = Example {
    name: "silent-beside-visible",
    text: b"des (0,3,4)\n(0,i,1)\n(0,a,2)\n(1,b,3)\n",
    hide: b"",
    states: 4,
    transitions: 3,
    strong: b"des (0, 3, 3)\n(0, a, 2)\n(0, i, 1)\n(1, b, 2)\n",
    branching: b"des (0, 3, 3)\n(0, a, 2)\n(0, i, 1)\n(1, b, 2)\n",
};

pub const SILENT_DETOUR: Example = Example {
    name: "silent-detour",
    text: b"des (0,6,6)\n(0,i,1)\n(1,a,2)\n(0,a,3)\n(2,i,4)\n(3,b,5)\n(4,b,5)\n",
    hide: b"",
    states: 6,
    transitions: 6,
    strong: b"des (0, 5, 5)\n(0, a, 3)\n(0, i, 1)\n(1, a, 2)\n(2, i, 3)\n(3, b, 4)\n",
    branching: b"des (0, 2, 3)\n(0, a, 1)\n(1, b, 2)\n",
};

pub const HIDDEN_QUOTED: Example = Example {
    name: "hidden-quoted",
    text: b"des (0,2,2)\n(0,a,1)\n(0,b,1)\n",
    hide: b"\"a\"\nb\n",
    states: 2,
    transitions: 2,
    strong: b"des (0, 1, 2)\n(0, i, 1)\n",
    branching: b"des (0, 0, 1)\n",
};

/// All examples of minimisation in this file.
pub const EXAMPLES: [Example; 8] = [
    LONE_STATE,
    TWO_EQUAL_TARGETS,
    SILENT_CHOICE,
    CHAIN_OF_THREE,
    SILENT_CHAIN,
    SILENT_BESIDE_VISIBLE,
    SILENT_DETOUR,
    HIDDEN_QUOTED,
];

/// An example of a comparison: two systems, and the labels to hide in both systems.
#[derive(Clone, Copy, Drop)]
pub struct Pair {
    pub name: &'static str,
    pub first: &'static [u8],
    pub second: &'static [u8],
    pub hide: &'static [u8],
    /// Whether the two systems are equivalent modulo strong bisimilarity.
    pub strong: bool,
    /// Whether the two systems are equivalent modulo branching bisimilarity.
    pub branching: bool,
}

/// In the first system, the choice between the labels b and c is made after the transition with the label a. In the
/// second system, this choice is made earlier, because two transitions with the label a lead to different states.
pub const MOMENT_OF_CHOICE: Pair = Pair {
    name: "moment-of-choice",
    first: b"des (0,3,4)\n(0,a,1)\n(1,b,2)\n(1,c,3)\n",
    second: b"des (0,4,5)\n(0,a,1)\n(0,a,2)\n(1,b,3)\n(2,c,4)\n",
    hide: b"",
    strong: false,
    branching: false,
};

pub const SILENT_MIDDLE: Pair = Pair {
    name: "silent-middle",
    first: b"des (0,3,4)\n(0,a,1)\n(1,i,2)\n(2,b,3)\n",
    second: b"des (0,2,3)\n(0,a,1)\n(1,b,2)\n",
    hide: b"",
    strong: false,
    branching: true,
};
