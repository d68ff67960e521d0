// Options and their builder: what is set is what is got, and the laws of the derives.
ghost use Rattle.std.specs.Prelude.{◌≡◌, ◌↔◌, IsTrue, Ok, Some, false, true};
ghost use Rattle.std.specs.declared.cmp.Ordering.TheVariants.{Equal};

use crate::tests::answers;
use lexical_parse_integer::options::{LARGE_NUMBERS, SMALL_NUMBERS, STANDARD};
use lexical_parse_integer::{
    FromLexicalWithOptions, Options, OptionsBuilder, ParseOptions, format,
};
use std::alloc::AllocError;
use std::cmp::Ordering;
use std::test::Fail;

// The calls that make options, and what each has; `true` is the standard.
#[test]
fn options_have_what_was_set(rt: HostRuntime) {
    let builder = OptionsBuilder::new().no_multi_digit(false);
    let mut options = Options::new();
    options.set_no_multi_digit(true);
    let valid = [
        builder.is_valid(),
        options.is_valid(),
        ParseOptions::is_valid(&LARGE_NUMBERS),
    ];
    answers(&rt, valid, [true; 3]);
    let set = [
        OptionsBuilder::default().get_no_multi_digit(),
        builder.get_no_multi_digit(),
        builder.build_strict().get_no_multi_digit(),
        builder.build_unchecked().get_no_multi_digit(),
        options.get_no_multi_digit(),
        Options::default().get_no_multi_digit(),
        Options::from_radix(36).get_no_multi_digit(),
        STANDARD.get_no_multi_digit(),
        SMALL_NUMBERS.get_no_multi_digit(),
        LARGE_NUMBERS.get_no_multi_digit(),
    ];
    let expected = [
        true, false, false, false, true, true, true, true, true, false,
    ];
    answers(&rt, set, expected);
    answers(&rt, builder.build(), Ok(LARGE_NUMBERS));
}

// ---- the derives: the clauses are the laws, and the calls below only run them

fn are_equal(options: &Options, other: &Options) -> bool
    ensures { IsTrue result ↔ (options.now ≡ other.now) }
{
    options == other
}

// False stands before true.
fn is_less(options: &Options, other: &Options) -> bool
    ensures { IsTrue result
        ↔ ((options.now.no_multi_digit ≡ false) × (other.now.no_multi_digit ≡ true)) }
{
    options < other
}

// Equality and both orders agree.
fn compared(options: &Options, other: &Options) -> (Ordering, Option<Ordering>)
    ensures total { result.1 ≡ Some result.0 }
    ensures equal { (result.0 ≡ Equal) ↔ (options.now ≡ other.now) }
{
    (options.cmp(other), options.partial_cmp(other))
}

fn cloned(options: &Options) -> std::result::Result<Options, AllocError>
    ensures { result ≡ Ok options.now }
{
    options.clone()
}

fn are_equal_builders(builder: &OptionsBuilder, other: &OptionsBuilder) -> bool
    ensures { IsTrue result ↔ (builder.now ≡ other.now) }
{
    builder == other
}

fn is_less_builder(builder: &OptionsBuilder, other: &OptionsBuilder) -> bool
    ensures { IsTrue result
        ↔ ((builder.now.no_multi_digit ≡ false) × (other.now.no_multi_digit ≡ true)) }
{
    builder < other
}

fn compared_builders(
    builder: &OptionsBuilder,
    other: &OptionsBuilder,
) -> (Ordering, Option<Ordering>)
    ensures total { result.1 ≡ Some result.0 }
    ensures equal { (result.0 ≡ Equal) ↔ (builder.now ≡ other.now) }
{
    (builder.cmp(other), builder.partial_cmp(other))
}

fn cloned_builder(builder: &OptionsBuilder) -> std::result::Result<OptionsBuilder, AllocError>
    ensures { result ≡ Ok builder.now }
{
    builder.clone()
}

#[test]
fn options_compare_by_their_field(rt: HostRuntime) -> std::result::Result<(), Fail> {
    let large = cloned(&LARGE_NUMBERS)?;
    let tests = [
        are_equal(&STANDARD, &SMALL_NUMBERS),
        are_equal(&large, &SMALL_NUMBERS),
        is_less(&large, &SMALL_NUMBERS),
    ];
    answers(&rt, tests, [true, false, true]);
    let less = (Ordering::Less, Some(Ordering::Less));
    answers(&rt, compared(&large, &SMALL_NUMBERS), less);
    Ok(())
}

#[test]
fn builders_compare_by_their_field(rt: HostRuntime) -> std::result::Result<(), Fail> {
    let new = OptionsBuilder::new();
    let large = cloned_builder(&LARGE_NUMBERS.rebuild())?;
    let tests = [
        are_equal_builders(&new, &Options::builder()),
        are_equal_builders(&large, &new),
        is_less_builder(&large, &new),
    ];
    answers(&rt, tests, [true, false, true]);
    let less = (Ordering::Less, Some(Ordering::Less));
    answers(&rt, compared_builders(&large, &new), less);
    Ok(())
}

#[test]
fn options_of_a_builder_serve_a_parse(rt: HostRuntime) {
    let options = Options::builder().no_multi_digit(true).build_strict();
    let answer = u64::from_lexical_with_options(b"1234", &format::STANDARD, &options);
    answers(&rt, answer, Ok(1234));
}
