//! The formats by their names.

ghost use Rattle.std.specs.Prelude.{◌≡◌, map};
ghost use Rattle.std.specs.Str.{bytes_eq};
ghost use Rattle.lexical_formats.specs.Names.{format_among, format_named, named_formats};

use crate::{c_like, compiled, data, functional, scripting};
use lexical_util::format::NumberFormat;

// Every format with the name of its function.
fn named_formats() -> [(&'static str, NumberFormat); 27]
    ensures { map (λ entry. (entry.0.now, entry.1)) result ≡ named_formats }
{
    [
        ("c", c_like::c()),
        ("c_decimal", c_like::c_decimal()),
        ("c_octal", c_like::c_octal()),
        ("c_hexadecimal", c_like::c_hexadecimal()),
        ("c23", c_like::c23()),
        ("cpp14", c_like::cpp14()),
        ("csharp", c_like::csharp()),
        ("java", c_like::java()),
        ("kotlin", c_like::kotlin()),
        ("rust", compiled::rust()),
        ("go", compiled::go()),
        ("swift", compiled::swift()),
        ("ada", compiled::ada()),
        ("vhdl", compiled::vhdl()),
        ("assembler_hexadecimal", compiled::assembler_hexadecimal()),
        ("python", scripting::python()),
        ("ruby", scripting::ruby()),
        ("javascript", scripting::javascript()),
        ("julia", scripting::julia()),
        ("haskell", functional::haskell()),
        ("ocaml", functional::ocaml()),
        ("json", data::json()),
        ("json5", data::json5()),
        ("toml", data::toml()),
        ("yaml", data::yaml()),
        ("sql", data::sql()),
        ("sql_2023", data::sql_2023()),
    ]
}

// Whether the names are equal.
fn is_name(known: &str, name: &[u8]) -> bool
    ensures { result ≡ bytes_eq name.now known.now }
{
    name == known.as_bytes()
}

// The format of a name among some.
fn format_among(name: &[u8], formats: &[(&'static str, NumberFormat)]) -> Option<NumberFormat>
    ensures { result
        ≡ format_among name.now (map (λ entry. (entry.0.now, entry.1)) formats.now) }
{
    for entry in formats {
        if is_name(entry.0, name) {
            return Some(entry.1);
        }
    }
    None
}

/// The format that the function of this name makes: that of `rust` is [`rust`](crate::rust).
pub fn named(name: &[u8]) -> Option<NumberFormat>
    ensures { result ≡ format_named name.now }
{
    format_among(name, &named_formats())
}
