//! The systems that several tables of examples use, in the short notation of the file `texts`.

pub(crate) const LONE_STATE: &str = "0 of 1";

pub(crate) const ONLY_A: &str = "0 of 2; 0 a 1";

pub(crate) const ONLY_B: &str = "0 of 2; 0 b 1";

pub(crate) const TWO_EQUAL_TARGETS: &str = "0 of 3; 0 a 1; 0 a 2";

pub(crate) const CHAIN_OF_THREE: &str = "0 of 4; 0 a 1; 1 a 2; 2 a 3";

pub(crate) const TWO_SPELLINGS: &str = "0 of 2; 0 a 1; 0 a 1; 0 a 1";

pub(crate) const LABEL_ORDER: &str = "0 of 2; 0 a 1; 0 B 1; 0 !x 1";

pub(crate) const MOMENT_AFTER: &str = "0 of 4; 0 a 1; 1 b 2; 1 c 3";

pub(crate) const MOMENT_BEFORE: &str = "0 of 5; 0 a 1; 0 a 2; 1 b 3; 2 c 4";

pub(crate) const NO_MIDDLE: &str = "0 of 3; 0 a 1; 1 b 2";

pub(crate) const NOT_COMMITTED: &str = "0 of 4; 0 a 1; 1 i 2; 1 b 3";

pub(crate) const OPTION_BEHIND: &str = "0 of 3; 0 a 2; 0 i 1; 1 b 2";

pub(crate) const HIDDEN_STEP: &str = "0 of 3; 0 i 1; 1 b 2";

pub(crate) const SILENT_LOOP: &str = "0 of 1; 0 i 0";

pub(crate) const SILENT_CHAIN: &str = "0 of 4; 0 i 1; 1 i 2; 2 a 3";

pub(crate) const SILENT_BESIDE_VISIBLE: &str = "0 of 4; 0 i 1; 0 a 2; 1 b 3";

pub(crate) const SILENT_CYCLE: &str = "0 of 2; 0 i 1; 1 i 0; 1 a 1";

pub(crate) const SILENT_DETOUR: &str = "0 of 6; 0 i 1; 1 a 2; 0 a 3; 2 i 4; 3 b 5; 4 b 5";

pub(crate) const QUOTED_INTERNAL: &str = "0 of 2; 0 i 1";

pub(crate) const OLD_BLOCKS: &str = "0 of 2; 0 i 0";
