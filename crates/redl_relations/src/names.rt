//! Names of parts, and where targets lead.

ghost use Rattle.std.specs.Prelude.{◌≡◌, ◌++◌, ◌∷◌, [], IfOk, OnOk, map, slice_get, codes};
ghost use Rattle.std.specs.List.{flat_map};
ghost use Rattle.redl_reading.specs.Steps.{Gives};
ghost use Rattle.redl_relations.specs.Names.{steps_of, after_slash, name_of, front_of, last_of, folder_of, relations_name, after_step, after_steps, start_of, target_name};

use std::alloc::{AllocError, Global};

// The steps of a name. `Err` means out of memory.
fn steps_of(alloc: Global, name: &[u8]) -> Result<Vec<&[u8]>, AllocError>
    ensures { IfOk result (λ steps. map (λ step. step.now) steps.items ≡ steps_of name.now) }
{
    name.split(|b| *b == b'/').collect(alloc)
}

// The name with these steps. `Err` means out of memory.
fn name_of(alloc: Global, steps: &[&[u8]]) -> Result<Vec<u8>, AllocError>
    ensures { IfOk result (λ name. name.items ≡ name_of (map (λ step. step.now) steps.now)) }
{
    let Some((first, more)) = steps.split_first() else {
        return Ok(Vec::new(alloc));
    };
    let mut name = Vec::from_slice(alloc, *first)?;
    add_steps(&mut name, more)?;
    Ok(name)
}

fn add_steps(name: &mut Vec<u8>, steps: &[&[u8]]) -> Result<(), AllocError>
    ensures { OnOk result (name.new.items ≡ name.old.items ++ flat_map after_slash (map (λ step. step.now) steps.now)) }
{
    for step in steps {
        add_step(name, *step)?;
    }
    Ok(())
}

fn add_step(name: &mut Vec<u8>, step: &[u8]) -> Result<(), AllocError>
    ensures { OnOk result (name.new.items ≡ name.old.items ++ after_slash step.now) }
{
    name.push(b'/')?;
    name.extend_from_slice(step)?;
    Ok(())
}

fn leave_last(steps: &mut Vec<&[u8]>)
    ensures { map (λ step. step.now) steps.new.items ≡ front_of (map (λ step. step.now) steps.old.items) }
{
    steps.truncate(steps.len().saturating_sub(1));
}

fn step_at<'b>(steps: &[&'b [u8]], place: usize) -> Option<&'b [u8]>
    ensures { Gives (λ step. step.now) result (slice_get (map (λ step. step.now) steps.now) place) }
{
    steps.get(place).copied()
}

// The last step, or the empty text where there is none.
fn last_of<'b>(steps: &[&'b [u8]]) -> &'b [u8]
    ensures { result.now ≡ last_of (map (λ step. step.now) steps.now) }
{
    match step_at(steps, steps.len().saturating_sub(1)) {
        Some(step) => step,
        None => b"",
    }
}

// The steps to the folder of the part with this name. `Err` means out of memory.
fn folder_of(alloc: Global, name: &[u8]) -> Result<Vec<&[u8]>, AllocError>
    ensures { IfOk result (λ steps. map (λ step. step.now) steps.items ≡ folder_of name.now) }
{
    let mut steps = steps_of(alloc, name)?;
    leave_last(&mut steps);
    Ok(steps)
}

/// The name of the part that has the relationships of the part with this name. `Err` means out of memory.
pub(crate) fn relations_name(alloc: Global, name: &[u8]) -> Result<Vec<u8>, AllocError>
    ensures { IfOk result (λ own. own.items ≡ relations_name name.now) }
{
    let mut own = relations_folder(alloc, name)?;
    add_step(&mut own, last_of(&steps_of(alloc, name)?))?;
    own.extend_from_slice(b".rels")?;
    Ok(own)
}

fn relations_folder(alloc: Global, name: &[u8]) -> Result<Vec<u8>, AllocError>
    ensures { IfOk result (λ folder. folder.items ≡ name_of (folder_of name.now ++ (codes "_rels" ∷ []))) }
{
    let mut steps = folder_of(alloc, name)?;
    steps.push(b"_rels")?;
    name_of(alloc, &steps)
}

/// The name to which a target leads from the part with the name `source`. `Err` means out of memory.
///
/// A target that begins with a slash is a name; any other leads from the folder of its source, where `.` stays and `..` goes up.
pub fn target_name(alloc: Global, source: &[u8], target: &[u8]) -> Result<Vec<u8>, AllocError>
    ensures { IfOk result (λ name. name.items ≡ target_name source.now target.now) }
{
    let mut at = start_of(alloc, source, target)?;
    take_steps(&steps_of(alloc, target)?, &mut at)?;
    name_of(alloc, &at)
}

// Where a target begins. `Err` means out of memory.
fn start_of<'b>(alloc: Global, source: &'b [u8], target: &[u8]) -> Result<Vec<&'b [u8]>, AllocError>
    ensures { IfOk result (λ steps. map (λ step. step.now) steps.items ≡ start_of source.now target.now) }
{
    if target.starts_with(b"/") {
        return Ok(Vec::new(alloc));
    }
    folder_of(alloc, source)
}

fn take_steps<'b>(steps: &[&'b [u8]], at: &mut Vec<&'b [u8]>) -> Result<(), AllocError>
    ensures { OnOk result (map (λ step. step.now) at.new.items ≡ after_steps (map (λ step. step.now) at.old.items) (map (λ step. step.now) steps.now)) }
{
    for step in steps {
        take_step(*step, at)?;
    }
    Ok(())
}

fn take_step<'b>(step: &'b [u8], at: &mut Vec<&'b [u8]>) -> Result<(), AllocError>
    ensures { OnOk result (map (λ step. step.now) at.new.items ≡ after_step (map (λ step. step.now) at.old.items) step.now) }
{
    if step == b".".as_slice() {
        return Ok(());
    }
    if step == b"..".as_slice() {
        leave_last(at);
        return Ok(());
    }
    at.push(step)?;
    Ok(())
}
