//! The texts of libraries that are made of numbers, and of a program that uses one of them (R7RS 5.6).
ghost use Rattle.std.specs.Prelude.{◌≡◌, ◌++◌, codes, IfOk};
ghost use Rattle.std.specs.Fmt.{decimal};
ghost use Rattle.std.specs.String.{string_bytes};
ghost use Rattle.generated_workspace.specs.Generated as spec;

use ls_base::{Mem, Text};
use std::alloc::{AllocError, Global};

/// The uri of a library.
pub fn library_uri(alloc: Global, number: u32) -> Mem<Text>
    ensures { IfOk result (λ uri. uri ≡ spec.library_uri number) }
{
    Ok(Text::from_string(format!(in alloc; "gen:/l{number}")?))
}

/// The text of a library.
#[tactic(auto, unfolding(crate::specs::Generated::library_text))]
pub fn library_text(alloc: Global, number: u32) -> Mem<Text>
    ensures { IfOk result (λ text. text ≡ spec.library_text number) }
{
    let declarations = library_declarations(alloc, number)?;
    Ok(Text::from_string(library(alloc, number, declarations.as_str())?))
}

/// A library with declarations.
fn library(alloc: Global, number: u32, declarations: &str) -> Result<String, AllocError>
    ensures { IfOk result (λ text. string_bytes text ≡ codes "(define-library (gen l" ++ decimal number ++ codes ") " ++ declarations.now ++ codes ")") }
{
    format!(in alloc; "(define-library (gen l{number}) {declarations})")
}

/// The declarations of a library.
fn library_declarations(alloc: Global, number: u32) -> Result<String, AllocError>
    ensures { IfOk result (λ text. string_bytes text ≡ spec.library_declarations number) }
{
    let exports = library_exports(alloc, number)?;
    let imports = library_imports(alloc, number)?;
    let begin = library_begin(alloc, number)?;
    Ok(spaced(alloc, exports.as_str(), imports.as_str(), begin.as_str())?)
}

/// Three parts with spaces between them.
fn spaced(alloc: Global, one: &str, two: &str, three: &str) -> Result<String, AllocError>
    ensures { IfOk result (λ text. string_bytes text ≡ one.now ++ codes " " ++ two.now ++ codes " " ++ three.now) }
{
    format!(in alloc; "{one} {two} {three}")
}

/// What a library exports.
fn library_exports(alloc: Global, number: u32) -> Result<String, AllocError>
    ensures { IfOk result (λ text. string_bytes text ≡ spec.library_exports number) }
{
    format!(in alloc; "(export f{number} twice{number})")
}

/// What a library imports.
fn library_imports(alloc: Global, number: u32) -> Result<String, AllocError>
    ensures { IfOk result (λ text. string_bytes text ≡ spec.library_imports number) }
{
    let before = import_before(alloc, number)?;
    let before = before.as_str();
    format!(in alloc; "(import (scheme base){before})")
}

/// What a library imports besides the standard one: the library before it.
fn import_before(alloc: Global, number: u32) -> Result<String, AllocError>
    ensures { IfOk result (λ text. string_bytes text ≡ spec.import_before number) }
{
    if number == 0 {
        return Ok(String::new(alloc));
    }
    let before = number - 1;
    format!(in alloc; " (gen l{before})")
}

/// The macro and the function of a library.
fn library_begin(alloc: Global, number: u32) -> Result<String, AllocError>
    ensures { IfOk result (λ text. string_bytes text ≡ spec.library_begin number) }
{
    let keyword = library_macro(alloc, number)?;
    let function = library_function(alloc, number)?;
    Ok(begin_with(alloc, keyword.as_str(), function.as_str())?)
}

/// A declaration that begins with two definitions.
fn begin_with(alloc: Global, keyword: &str, function: &str) -> Result<String, AllocError>
    ensures { IfOk result (λ text. string_bytes text ≡ codes "(begin " ++ keyword.now ++ codes " " ++ function.now ++ codes ")") }
{
    format!(in alloc; "(begin {keyword} {function})")
}

/// The macro of a library.
fn library_macro(alloc: Global, number: u32) -> Result<String, AllocError>
    ensures { IfOk result (λ text. string_bytes text ≡ spec.library_macro number) }
{
    format!(in alloc;
        "(define-syntax twice{number} (syntax-rules () ((_ e) (let ((t e)) (+ t t)))))"
    )
}

/// The function of a library: its macro is used on what the function before answers.
fn library_function(alloc: Global, number: u32) -> Result<String, AllocError>
    ensures { IfOk result (λ text. string_bytes text ≡ spec.library_function number) }
{
    let before = function_before(alloc, number)?;
    let used = call(alloc, number, before.as_str())?;
    Ok(function(alloc, number, used.as_str())?)
}

/// A macro that is used on what a function answers.
fn call(alloc: Global, number: u32, before: &str) -> Result<String, AllocError>
    ensures { IfOk result (λ text. string_bytes text ≡ codes "(twice" ++ decimal number ++ codes " (" ++ before.now ++ codes " t))") }
{
    format!(in alloc; "(twice{number} ({before} t))")
}

/// A function that comes to a call.
fn function(alloc: Global, number: u32, call: &str) -> Result<String, AllocError>
    ensures { IfOk result (λ text. string_bytes text ≡ codes "(define (f" ++ decimal number ++ codes " t) " ++ call.now ++ codes ")") }
{
    format!(in alloc; "(define (f{number} t) {call})")
}

/// The function that a library's function calls: that of the library before it.
fn function_before(alloc: Global, number: u32) -> Result<String, AllocError>
    ensures { IfOk result (λ text. string_bytes text ≡ spec.function_before number) }
{
    if number == 0 {
        return String::from_str(alloc, "abs");
    }
    let before = number - 1;
    format!(in alloc; "f{before}")
}

/// The uri of the program.
pub fn main_uri(alloc: Global) -> Mem<Text>
    ensures { IfOk result (λ uri. uri ≡ spec.main_uri) }
{
    Ok(Text::of(alloc, "gen:/main")?)
}

/// The text of the program that uses a library.
#[tactic(auto, unfolding(crate::specs::Generated::main_text))]
pub fn main_text(alloc: Global, number: u32) -> Mem<Text>
    ensures { IfOk result (λ text. text ≡ spec.main_text number) }
{
    let import = main_import(alloc, number)?;
    let definitions = main_definitions(alloc, number)?;
    Ok(Text::from_string(program(alloc, import.as_str(), definitions.as_str())?))
}

/// A program of its import and its definitions.
fn program(alloc: Global, import: &str, definitions: &str) -> Result<String, AllocError>
    ensures { IfOk result (λ text. string_bytes text ≡ import.now ++ codes " " ++ definitions.now) }
{
    format!(in alloc; "{import} {definitions}")
}

/// What the program imports.
fn main_import(alloc: Global, number: u32) -> Result<String, AllocError>
    ensures { IfOk result (λ text. string_bytes text ≡ spec.main_import number) }
{
    format!(in alloc; "(import (scheme base) (gen l{number}))")
}

/// What the program defines.
fn main_definitions(alloc: Global, number: u32) -> Result<String, AllocError>
    ensures { IfOk result (λ text. string_bytes text ≡ spec.main_definitions number) }
{
    format!(in alloc; "(define t 1) (define r (twice{number} (f{number} t)))")
}
