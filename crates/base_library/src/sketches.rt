//! The derived forms as macros (R7RS 4.2, 7.3), as sketches of their trees. A name with `%` is in no library.
ghost use Rattle.std.specs.Prelude.{◌≡◌, true, map};
ghost use Rattle.scheme_model.specs.Prelude as model;
ghost use Rattle.base_library.specs.Macros.{prelude_nodes};
ghost use Rattle.base_library.specs.Sketched.{sketch_plain, macro_plain, sketches_size, all_small};

use crate::sketch::Sketch;

mod binding;
mod control;

/// All macros, in order.
pub fn sketches() -> &'static [Sketch]
    ensures macros { map sketch_plain result.now ≡ map macro_plain model.prelude }
    ensures size { sketches_size result.now ≡ prelude_nodes }
    ensures small { all_small result.now ≡ true }
{
    &PRELUDE
}

static PRELUDE: [Sketch; 21] = [
    Sketch {
        name: "let",
        literals: &[],
        steps: &binding::LET,
    },
    Sketch {
        name: "let*",
        literals: &[],
        steps: &binding::LET_STAR,
    },
    Sketch {
        name: "letrec",
        literals: &[],
        steps: &binding::LETREC,
    },
    Sketch {
        name: "letrec*",
        literals: &[],
        steps: &binding::LETREC_STAR,
    },
    Sketch {
        name: "do",
        literals: &[],
        steps: &binding::DO,
    },
    Sketch {
        name: "%do",
        literals: &[],
        steps: &binding::SUB_DO,
    },
    Sketch {
        name: "cond",
        literals: &["else", "=>"],
        steps: &control::COND,
    },
    Sketch {
        name: "case",
        literals: &[],
        steps: &control::CASE,
    },
    Sketch {
        name: "%case",
        literals: &["else", "=>"],
        steps: &control::SUB_CASE,
    },
    Sketch {
        name: "and",
        literals: &[],
        steps: &control::AND,
    },
    Sketch {
        name: "or",
        literals: &[],
        steps: &control::OR,
    },
    Sketch {
        name: "when",
        literals: &[],
        steps: &control::WHEN,
    },
    Sketch {
        name: "unless",
        literals: &[],
        steps: &control::UNLESS,
    },
    Sketch {
        name: "let-values",
        literals: &[],
        steps: &binding::LET_VALUES,
    },
    Sketch {
        name: "%lv",
        literals: &[],
        steps: &binding::SUB_LV,
    },
    Sketch {
        name: "%lw",
        literals: &[],
        steps: &binding::SUB_LW,
    },
    Sketch {
        name: "let*-values",
        literals: &[],
        steps: &binding::LET_STAR_VALUES,
    },
    Sketch {
        name: "parameterize",
        literals: &[],
        steps: &binding::PARAMETERIZE,
    },
    Sketch {
        name: "guard",
        literals: &[],
        steps: &binding::GUARD,
    },
    Sketch {
        name: "delay",
        literals: &[],
        steps: &control::DELAY,
    },
    Sketch {
        name: "delay-force",
        literals: &[],
        steps: &control::DELAY_FORCE,
    },
];
