//! The contents of the custom sections `component-name` and `producers`.

ghost use Rattle.std.specs.Prelude.{◌≡◌, ◌++◌, length, OnOk, IfOk, IfErr};
ghost use Rattle.std.specs.List.{flat_map};
ghost use Rattle.wac_binary.specs.Customs.{naming, of_sort, subsection, AreRising, names_bytes, producers_bytes};
ghost use Rattle.wac_binary.specs.Views.{names_of};
ghost use Rattle.wac_binary.specs.declared.fault.BinaryFault.TheVariants.{OutOfMemory};

use crate::bytes::put::{put_sort, put_text, put_unsigned};
use crate::fault::BinaryFault;
use crate::sorts::{Sort, number, space};
use std::alloc::{AllocError, Global};

/// Returns the contents of a custom section `component-name`.
///
/// It has a subsection for each sort with names: type, function, instance, component, core module, value.
/// The indexes of each sort must be strictly increasing.
///
/// # Errors
/// [`OutOfMemory`](BinaryFault::OutOfMemory).
#[tactic(auto, unfolding(crate::specs::Customs::names_bytes))]
pub fn component_names(alloc: Global, names: &[(Sort, u32, &str)]) -> Result<Vec<u8>, BinaryFault>
    requires rising { AreRising (names_of names.now) }
    ensures content { IfOk result (λ v. v.items ≡ names_bytes (names_of names.now)) }
    ensures memory { IfErr result (λ e. e ≡ OutOfMemory) }
{
    let mut out = Vec::new(alloc);
    let mut body = Vec::new(alloc);
    put_subsection(&mut out, &mut body, Sort::Type, names)?;
    put_subsection(&mut out, &mut body, Sort::Func, names)?;
    put_subsection(&mut out, &mut body, Sort::Instance, names)?;
    put_subsection(&mut out, &mut body, Sort::Component, names)?;
    put_subsection(&mut out, &mut body, Sort::CoreModule, names)?;
    put_subsection(&mut out, &mut body, Sort::Value, names)?;
    Ok(out)
}

/// Returns the contents of a custom section `producers` that names a processor and its version.
///
/// # Errors
/// [`OutOfMemory`](BinaryFault::OutOfMemory).
pub fn producers(alloc: Global, name: &str, version: &str) -> Result<Vec<u8>, BinaryFault>
    ensures content { IfOk result (λ v. v.items ≡ producers_bytes name.now version.now) }
    ensures memory { IfErr result (λ e. e ≡ OutOfMemory) }
{
    let mut out = Vec::new(alloc);
    out.push(1)?;
    put_text(&mut out, "processed-by")?;
    out.push(1)?;
    put_text(&mut out, name)?;
    put_text(&mut out, version)?;
    Ok(out)
}

/// Returns the number of names of a sort.
fn count_of(sort: Sort, names: &[(Sort, u32, &str)]) -> u64
    ensures { result ≡ length (of_sort sort (names_of names.now)) }
{
    let mut count = 0;
    for name in names {
        if number(space(name.0)) == number(space(sort)) {
            count += 1;
        }
    }
    count
}

/// Appends the names of a sort, each after its index.
fn put_namings(out: &mut Vec<u8>, sort: Sort, names: &[(Sort, u32, &str)]) -> Result<(), AllocError>
    ensures written { OnOk result (out.new.items ≡ out.old.items ++ flat_map naming (of_sort sort (names_of names.now))) }
{
    for name in names {
        if number(space(name.0)) == number(space(sort)) {
            put_unsigned(out, u64::from(name.1))?;
            put_text(out, name.2)?;
        }
    }
    Ok(())
}

/// Appends the subsection of a sort, if it has names. `body` is a spare buffer.
fn put_subsection(
    out: &mut Vec<u8>,
    body: &mut Vec<u8>,
    sort: Sort,
    names: &[(Sort, u32, &str)],
) -> Result<(), AllocError>
    ensures { OnOk result (out.new.items ≡ out.old.items ++ subsection sort (of_sort sort (names_of names.now))) }
{
    let count = count_of(sort, names);
    if count == 0 {
        return Ok(());
    }
    body.clear();
    put_sort(body, sort)?;
    put_unsigned(body, count)?;
    put_namings(body, sort, names)?;
    out.push(1)?;
    put_unsigned(out, body.len() as u64)?;
    out.extend_from_slice(body)
}
