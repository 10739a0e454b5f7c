// The choices of a caller that tests go through.

use amd_types::amd::Control;

/// The choices of a caller that are tried: the dense row parameter, and whether absorption is aggressive.
pub static CHOICES: [Control; 6] = [
    Control {
        dense: 10000,
        aggressive: true,
    },
    Control {
        dense: 10000,
        aggressive: false,
    },
    Control {
        dense: 0,
        aggressive: true,
    },
    Control {
        dense: 0,
        aggressive: false,
    },
    Control {
        dense: -1,
        aggressive: true,
    },
    Control {
        dense: -1,
        aggressive: false,
    },
];
