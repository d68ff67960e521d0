// What the derives promise: equality is that of variant and place, or of all fields, and a copy keeps
// the value. The clauses are the laws; the calls below only run them.

ghost use Rattle.std.specs.Prelude.{◌≡◌, ◌↔◌, IsTrue, Ok};

use crate::tests::answers;
use lexical_util::error::Error;
use lexical_util::format::{JSON, NumberFormat, NumberFormatBuilder, STANDARD};
use std::alloc::AllocError;
use std::test::Fail;

fn are_equal_faults(fault: Error, other: Error) -> bool
    ensures { IsTrue result ↔ (fault ≡ other) }
{
    fault == other
}

fn are_equal_formats(format: &NumberFormat, other: &NumberFormat) -> bool
    ensures { IsTrue result ↔ (format.now ≡ other.now) }
{
    format == other
}

#[tactic(auto, using(lexical_util::proofs::Same::format_eq_decides))]
fn are_equal_builders(builder: &NumberFormatBuilder, other: &NumberFormatBuilder) -> bool
    ensures { IsTrue result ↔ (builder.now ≡ other.now) }
{
    builder == other
}

fn copied(
    fault: &Error,
    format: &NumberFormat,
    builder: &NumberFormatBuilder,
) -> (Error, NumberFormat, NumberFormatBuilder)
    ensures { result ≡ (fault.now, format.now, builder.now) }
{
    (*fault, *format, *builder)
}

fn cloned_fault(fault: &Error) -> Result<Error, AllocError>
    ensures { result ≡ Ok fault.now }
{
    fault.clone()
}

fn cloned_format(format: &NumberFormat) -> Result<NumberFormat, AllocError>
    ensures { result ≡ Ok format.now }
{
    format.clone()
}

fn cloned_builder(builder: &NumberFormatBuilder) -> Result<NumberFormatBuilder, AllocError>
    ensures { result ≡ Ok builder.now }
{
    builder.clone()
}

#[test]
fn faults_and_copies(rt: HostRuntime) -> Result<(), Fail> {
    let (builder, fault) = (NumberFormatBuilder::new(), Error::Empty(1));
    let equalities = [
        are_equal_faults(fault, cloned_fault(&fault)?),
        are_equal_faults(fault, Error::Empty(2)),
        are_equal_faults(fault, Error::InvalidDigit(1)),
    ];
    answers(&rt, equalities, [true, false, false]);
    answers(&rt, copied(&fault, &JSON, &builder), (fault, JSON, builder));
    Ok(())
}

#[test]
fn formats(rt: HostRuntime) -> Result<(), Fail> {
    let json = cloned_format(&JSON)?;
    answers(&rt, are_equal_formats(&json, &STANDARD), false);
    let standard = NumberFormatBuilder::from_radix(10);
    answers(&rt, are_equal_formats(&standard, &STANDARD), true);
    Ok(())
}

#[test]
fn builders(rt: HostRuntime) -> Result<(), Fail> {
    let builder = NumberFormatBuilder::new();
    let copy = cloned_builder(&builder)?;
    answers(&rt, are_equal_builders(&builder, &copy), true);
    let other = builder.base_suffix(Some(b'h'));
    answers(&rt, are_equal_builders(&builder, &other), false);
    Ok(())
}
