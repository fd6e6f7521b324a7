//! What is said of the directories of plans, by what a board came to.
ghost use Rattle.std.specs.Prelude.{◌≡◌, ◌+◌, ◌++◌, ◌∷◌, [], ◌<◌, length, map, string_bytes, IfOk, OnOk, Some};
ghost use Rattle.std.specs.List.{All, AllZip, count_by, filter_map, slice_get};
ghost use Rattle.ws_cache.specs.Compiles.{compiled_of};
ghost use Rattle.ws_board.specs.Calls.{result_at};
ghost use Rattle.ws_board.specs.Machine.{is_finish};
ghost use Rattle.ws_report.specs.Reports.{row, verdict_rows, verdict_model};
ghost use Rattle.ws_replica.specs.Jobs.{fault_in, verdict_of, place_seen, all_places_of, report_rows, IsVerdictOfJob, AreVerdicts, AllAreVerdicts};
ghost use Rattle.ws_replica.specs.Parts.{target_part, AllPartsWithin, IsReportPart};

use crate::parts::Part;
use crate::reached::Place;
use go_text::fault::Fault;
use std::alloc::{AllocError, Global};
use ws_board::Built;
use ws_cache::Outcome;
use ws_report::{Report, Verdict};

/// A number after that many others. An `Err` where there can't be so many.
pub(crate) fn number_after(before: usize, number: usize) -> Result<usize, AllocError>
    ensures { IfOk result (λ after. after ≡ before + number) }
{
    match before.checked_add(number) {
        Some(after) => Ok(after),
        None => Err(AllocError),
    }
}

fn verdict_of(outcome: &Outcome) -> Result<Verdict, AllocError>
    ensures { IfOk result (λ verdict. verdict_model verdict ≡ verdict_of (fault_in (compiled_of outcome.now))) }
{
    match outcome {
        Outcome::Good(_, _) => Ok(Verdict::Good),
        Outcome::Faulty(fault) => Ok(Verdict::Faulty(fault.copy()?)),
    }
}

/// The verdict on a directory: the fault of its plan, or what the outcome of its job says.
fn verdict_of_job(built: &Built, job: usize, fault: Option<Fault>) -> Result<Verdict, AllocError>
    ensures { IfOk result (λ verdict. IsVerdictOfJob fault (result_at built.now job) (verdict_model verdict)) }
{
    if let Some(fault) = fault {
        return Ok(Verdict::Faulty(fault));
    }
    let Some(outcome) = built.result(job) else {
        return Ok(Verdict::Blocked);
    };
    let verdict = verdict_of(outcome)?;
    Ok(verdict)
}

/// The verdicts on the directories of a plan, whose jobs are those behind the first `before`.
fn verdicts(
    alloc: Global,
    built: &Built,
    before: usize,
    places: Vec<Place>,
) -> Result<Vec<(String, Verdict)>, AllocError>
    ensures { IfOk result (λ told. AreVerdicts (result_at built.now) before (map place_seen places.items) (verdict_rows told.items)) }
{
    let mut directories = Vec::new(alloc);
    for place in places {
        let Place { path, fault } = place;
        let job = number_after(before, directories.len())?;
        let verdict = verdict_of_job(built, job, fault)?;
        directories.push((path, verdict))?;
    }
    Ok(directories)
}

/// The report of each plan, with how many were compiled for all of them.
pub(crate) fn reports(
    alloc: Global,
    built: &Built,
    all: Vec<Vec<Place>>,
) -> Result<Vec<Report>, AllocError>
    ensures verdicts { IfOk result (λ reports. AllAreVerdicts (result_at built.now) 0 (all_places_of all.items) (map report_rows reports.items)) }
    ensures counts { IfOk result (λ reports. All (λ r. r.compiled ≡ count_by is_finish built.now.history) reports.items) }
{
    let compiled = built.compiled() as u64;
    let mut reports = Vec::new(alloc);
    let mut before = 0;
    for places in all {
        let next = number_after(before, places.len())?;
        let directories = verdicts(alloc, built, before, places)?;
        reports.push(Report {
            directories,
            compiled,
        })?;
        before = next;
    }
    Ok(reports)
}

fn copied(verdict: &Verdict) -> Result<Verdict, AllocError>
    ensures { IfOk result (λ copy. verdict_model copy ≡ verdict_model verdict.now) }
{
    match verdict {
        Verdict::Good => Ok(Verdict::Good),
        Verdict::Blocked => Ok(Verdict::Blocked),
        Verdict::Faulty(fault) => Ok(Verdict::Faulty(fault.copy()?)),
    }
}

fn path_of(path: &String) -> Result<String, AllocError>
    ensures { IfOk result (λ copy. string_bytes copy ≡ string_bytes path.now) }
{
    let copy = path.clone()?;
    Ok(copy)
}

fn copy_of(told: &(String, Verdict)) -> Result<(String, Verdict), AllocError>
    ensures { IfOk result (λ copy. row copy ≡ row told.now) }
{
    let path = path_of(&told.0)?;
    let verdict = copied(&told.1)?;
    Ok((path, verdict))
}

fn row_at(told: &[(String, Verdict)], number: usize) -> &(String, Verdict)
    requires { number < length told.now }
    ensures { slice_get told.now number ≡ Some result.now }
{
    &told[number]
}

/// Adds a copy of the row of that number, if there is one.
fn add_row(
    told: &[(String, Verdict)],
    number: usize,
    picked: &mut Vec<(String, Verdict)>,
) -> Result<(), AllocError>
    ensures { OnOk result (verdict_rows picked.new.items ≡ verdict_rows picked.old.items ++ filter_map (slice_get (verdict_rows told.now)) (number ∷ [])) }
{
    let count = told.len();
    if number >= count {
        return Ok(());
    }
    let copy = copy_of(row_at(told, number))?;
    picked.push(copy)?;
    Ok(())
}

/// Copies of the rows of some numbers.
fn picked(
    alloc: Global,
    told: &[(String, Verdict)],
    numbers: &[usize],
) -> Result<Vec<(String, Verdict)>, AllocError>
    ensures { IfOk result (λ picked. verdict_rows picked.items ≡ filter_map (slice_get (verdict_rows told.now)) numbers.now) }
{
    let mut picked = Vec::new(alloc);
    for number in numbers {
        add_row(told, *number, &mut picked)?;
    }
    Ok(picked)
}

fn told_at(told: &[Report], number: usize) -> &Report
    requires { number < length told.now }
    ensures { slice_get told.now number ≡ Some result.now }
{
    &told[number]
}

/// The report of a part: its rows of the report on its replica.
fn part_report(alloc: Global, told: &[Report], part: &Part) -> Result<Report, AllocError>
    requires { part.now.replica < length told.now }
    ensures { IfOk result (λ report. IsReportPart told.now (target_part part.now) report) }
{
    let whole = told_at(told, part.replica);
    let directories = picked(alloc, &whole.directories, &part.numbers)?;
    Ok(Report {
        directories,
        compiled: whole.compiled,
    })
}

/// The report of each part.
pub(crate) fn part_reports(
    alloc: Global,
    told: &[Report],
    parts: &[Part],
) -> Result<Vec<Report>, AllocError>
    requires { AllPartsWithin (length told.now) parts.now }
    ensures { IfOk result (λ reports. AllZip (IsReportPart told.now) (map target_part parts.now) reports.items) }
{
    let mut reports = Vec::new(alloc);
    for part in parts {
        let report = part_report(alloc, told, part)?;
        reports.push(report)?;
    }
    Ok(reports)
}
