//! The names of the standard libraries (R7RS Appendix A).
ghost use Rattle.std.specs.Prelude.{◌≡◌, map};
ghost use Rattle.scheme_model.specs.StandardLibraries.{standard_libraries};
ghost use Rattle.base_library.specs.Texts.{name_text};

/// The names of the standard libraries.
pub fn standard_library_names() -> &'static [&'static str]
    ensures { map (λ s. s.now) result.now ≡ map (λ l. name_text l.name) standard_libraries }
{
    &STANDARD
}

static STANDARD: [&str; 15] = [
    "(scheme base)",
    "(scheme case-lambda)",
    "(scheme char)",
    "(scheme complex)",
    "(scheme cxr)",
    "(scheme eval)",
    "(scheme file)",
    "(scheme inexact)",
    "(scheme lazy)",
    "(scheme load)",
    "(scheme process-context)",
    "(scheme read)",
    "(scheme repl)",
    "(scheme time)",
    "(scheme write)",
];
