//! What commands print.
ghost use Rattle.std.specs.Prelude.{◌≡◌, ◌++◌, OnOk, IfOk, count_by, map, codes};
ghost use Rattle.std.specs.Fmt.{decimal};
ghost use Rattle.std.specs.List.{flat_map};
ghost use Rattle.hex.specs.Hex.{encode_lower};
ghost use Rattle.ws_command.specs.Printing.{place_text, kind_text, fault_text, blocked_text, row_text, is_bad, counts_text, target_text, report_text};
ghost use Rattle.ws_command.specs.RunPrinting.{panic_word, ending_text, panic_size, panic_text, run_target_text, head_text, run_text};
ghost use Rattle.ws_command.specs.IdsPrinting.{standing_text, id_text, ids_text};
ghost use Rattle.ws_command.specs.ShowPrinting.{content_text, write_text, show_text};
ghost use Rattle.ws_report.specs.Reports.{verdict_rows, row, id_row};

use go_code::ending::{Ending, PanicKind};
use go_text::fault::{Fault, FaultKind};
use go_text::place::Place;
use std::alloc::{AllocError, Global};
use ws_report::{IdLine, IdStatus, Report, Verdict};
use ws_version::{Held, Write};

fn push(out: &mut Vec<u8>, text: &[u8]) -> Result<(), AllocError>
    ensures { OnOk result (out.new.items ≡ out.old.items ++ text.now) }
{
    out.extend_from_slice(text)
}

/// Adds a text and then a number.
fn push_number(alloc: Global, out: &mut Vec<u8>, text: &[u8], number: u64) -> Result<(), AllocError>
    ensures { OnOk result (out.new.items ≡ out.old.items ++ (text.now ++ decimal number)) }
{
    let digits = number.to_string(alloc)?;
    push(out, text)?;
    push(out, digits.as_bytes())
}

fn push_place(alloc: Global, out: &mut Vec<u8>, place: Place) -> Result<(), AllocError>
    ensures { OnOk result (out.new.items ≡ out.old.items ++ place_text place) }
{
    push_number(alloc, out, b":", u64::from(place.line))?;
    push_number(alloc, out, b":", u64::from(place.column))
}

fn push_kind(alloc: Global, out: &mut Vec<u8>, kind: FaultKind) -> Result<(), AllocError>
    ensures { OnOk result (out.new.items ≡ out.old.items ++ kind_text kind) }
{
    push_number(alloc, out, b" ", u64::from(kind.number()))?;
    push(out, b" ")?;
    push(out, kind.word().as_bytes())
}

/// Adds the line of a fault of a directory's file.
#[tactic(auto, unfolding(crate::specs::Printing::fault_text))]
fn push_fault(
    alloc: Global,
    out: &mut Vec<u8>,
    directory: &str,
    fault: &Fault,
) -> Result<(), AllocError>
    ensures { OnOk result (out.new.items ≡ out.old.items ++ fault_text directory.now fault.now) }
{
    push(out, b"fault ")?;
    push(out, directory.as_bytes())?;
    push(out, b"/")?;
    push(out, fault.file().as_bytes())?;
    push_place(alloc, out, fault.place())?;
    push_kind(alloc, out, fault.kind())?;
    push(out, b"\n")
}

fn push_blocked(out: &mut Vec<u8>, directory: &str) -> Result<(), AllocError>
    ensures { OnOk result (out.new.items ≡ out.old.items ++ blocked_text directory.now) }
{
    push(out, b"blocked ")?;
    push(out, directory.as_bytes())?;
    push(out, b"\n")
}

/// Adds the line of a directory that isn't good.
fn push_row(alloc: Global, out: &mut Vec<u8>, of: &(String, Verdict)) -> Result<(), AllocError>
    ensures { OnOk result (out.new.items ≡ out.old.items ++ row_text (row of.now)) }
{
    match &of.1 {
        Verdict::Good => {}
        Verdict::Blocked => push_blocked(out, of.0.as_str())?,
        Verdict::Faulty(fault) => push_fault(alloc, out, of.0.as_str(), fault)?,
    }
    Ok(())
}

fn push_rows(alloc: Global, out: &mut Vec<u8>, all: &[(String, Verdict)]) -> Result<(), AllocError>
    ensures { OnOk result (out.new.items ≡ out.old.items ++ flat_map row_text (map row all.now)) }
{
    for of in all {
        push_row(alloc, out, of)?;
    }
    Ok(())
}

fn count_bad(all: &[(String, Verdict)]) -> usize
    ensures { result ≡ count_by is_bad (map row all.now) }
{
    let mut count = 0;
    for of in all {
        if !of.1.is_good() {
            count += 1;
        }
    }
    count
}

/// Adds how many directories were reached, or how many of them aren't good.
#[tactic(auto, unfolding(crate::specs::Printing::counts_text))]
fn push_summary(
    alloc: Global,
    out: &mut Vec<u8>,
    all: &[(String, Verdict)],
) -> Result<(), AllocError>
    ensures { OnOk result (out.new.items ≡ out.old.items ++ counts_text (map row all.now)) }
{
    let bad = count_bad(all);
    if bad == 0 {
        push_number(alloc, out, b" ok ", all.len() as u64)
    } else {
        push_number(alloc, out, b" faults ", bad as u64)
    }
}

fn push_target(out: &mut Vec<u8>, name: &[u8], directory: &str) -> Result<(), AllocError>
    ensures { OnOk result (out.new.items ≡ out.old.items ++ target_text name.now directory.now) }
{
    push(out, b"build ")?;
    push(out, name)?;
    push(out, b" ")?;
    push(out, directory.as_bytes())
}

/// The lines of a build's report, with the names of the replica and of the target's directory.
#[tactic(auto, unfolding(crate::specs::Printing::report_text))]
pub fn report_lines(
    alloc: Global,
    name: &[u8],
    directory: &str,
    report: &Report,
) -> Result<Vec<u8>, AllocError>
    ensures { IfOk result (λ text. text.items ≡ report_text name.now directory.now (verdict_rows report.now.directories.items) report.now.compiled) }
{
    let mut out = Vec::new(alloc);
    let rows = report.directories.as_slice();
    push_target(&mut out, name, directory)?;
    push_summary(alloc, &mut out, rows)?;
    push_number(alloc, &mut out, b" compiled ", report.compiled)?;
    push(&mut out, b"\n")?;
    push_rows(alloc, &mut out, rows)?;
    Ok(out)
}

/// The word of a kind of panic.
fn panic_word(kind: &PanicKind) -> &'static [u8]
    ensures { result.now ≡ panic_word kind.now }
{
    match kind {
        PanicKind::Divide => b"divide",
        PanicKind::Index => b"index",
        PanicKind::Slice => b"slice",
        PanicKind::Make => b"make",
        PanicKind::Shift => b"shift",
        PanicKind::Depth => b"depth",
        PanicKind::Long => b"long",
        PanicKind::User(_) => b"user",
    }
}

/// Adds how a program ended.
fn push_ending(out: &mut Vec<u8>, ending: &Ending) -> Result<(), AllocError>
    ensures { OnOk result (out.new.items ≡ out.old.items ++ ending_text ending.now) }
{
    match ending {
        Ending::Ended => push(out, b" ended "),
        Ending::Cut => push(out, b" cut "),
        Ending::Panicked(kind) => {
            push(out, b" panic ")?;
            push(out, panic_word(kind))?;
            push(out, b" ")
        }
    }
}

/// Adds how long the text of the program's own panic is, if it ended so.
fn push_panic_size(alloc: Global, out: &mut Vec<u8>, ending: &Ending) -> Result<(), AllocError>
    ensures { OnOk result (out.new.items ≡ out.old.items ++ panic_size ending.now) }
{
    match ending {
        Ending::Panicked(PanicKind::User(text)) => {
            push_number(alloc, out, b" ", text.bytes().len() as u64)
        }
        _ => Ok(()),
    }
}

/// Adds the text of the program's own panic, if it ended so, and a newline.
fn push_panic_text(out: &mut Vec<u8>, ending: &Ending) -> Result<(), AllocError>
    ensures { OnOk result (out.new.items ≡ out.old.items ++ panic_text ending.now) }
{
    match ending {
        Ending::Panicked(PanicKind::User(text)) => {
            push(out, text.bytes())?;
            push(out, b"\n")
        }
        _ => Ok(()),
    }
}

fn push_run_target(out: &mut Vec<u8>, name: &[u8], directory: &str) -> Result<(), AllocError>
    ensures { OnOk result (out.new.items ≡ out.old.items ++ run_target_text name.now directory.now) }
{
    push(out, b"run ")?;
    push(out, name)?;
    push(out, b" ")?;
    push(out, directory.as_bytes())
}

/// Adds how a program ended, and how much it printed.
#[tactic(auto, unfolding(crate::specs::RunPrinting::head_text))]
fn push_head(
    alloc: Global,
    out: &mut Vec<u8>,
    ending: &Ending,
    size: usize,
) -> Result<(), AllocError>
    ensures { OnOk result (out.new.items ≡ out.old.items ++ head_text ending.now size) }
{
    push_ending(out, ending)?;
    push_number(alloc, out, b"", size as u64)?;
    push_panic_size(alloc, out, ending)?;
    push(out, b"\n")
}

/// The lines of a run: the first one, and then what the program printed.
#[tactic(auto, unfolding(crate::specs::RunPrinting::run_text))]
pub fn run_lines(
    alloc: Global,
    name: &[u8],
    directory: &str,
    ending: &Ending,
    output: &[u8],
) -> Result<Vec<u8>, AllocError>
    ensures { IfOk result (λ text. text.items ≡ run_text name.now directory.now ending.now output.now) }
{
    let mut out = Vec::new(alloc);
    push_run_target(&mut out, name, directory)?;
    push_head(alloc, &mut out, ending, output.len())?;
    push(&mut out, output)?;
    push_panic_text(&mut out, ending)?;
    Ok(out)
}

/// Adds a text and then a word.
fn push_word(out: &mut Vec<u8>, text: &[u8], word: &[u8]) -> Result<(), AllocError>
    ensures { OnOk result (out.new.items ≡ out.old.items ++ (text.now ++ word.now)) }
{
    push(out, text)?;
    push(out, word)
}

/// Adds an id in hexadecimal digits.
fn push_id(alloc: Global, out: &mut Vec<u8>, id: [u8; 32]) -> Result<(), AllocError>
    ensures { OnOk result (out.new.items ≡ out.old.items ++ (codes " " ++ encode_lower id)) }
{
    let digits = hex::encode(alloc, id)?;
    push_word(out, b" ", digits.as_bytes())
}

/// Adds how a directory's action stands.
fn push_standing(alloc: Global, out: &mut Vec<u8>, standing: IdStatus) -> Result<(), AllocError>
    ensures { OnOk result (out.new.items ≡ out.old.items ++ standing_text standing) }
{
    match standing {
        IdStatus::NoId => push(out, b" none"),
        IdStatus::Absent(id) => {
            push_id(alloc, out, id)?;
            push(out, b" absent")
        }
        IdStatus::Held(id) => {
            push_id(alloc, out, id)?;
            push(out, b" held")
        }
    }
}

/// Adds the line of a directory's id.
#[tactic(auto, unfolding(crate::specs::IdsPrinting::id_text))]
fn push_id_line(alloc: Global, out: &mut Vec<u8>, line: &IdLine) -> Result<(), AllocError>
    ensures { OnOk result (out.new.items ≡ out.old.items ++ id_text (id_row line.now)) }
{
    push_word(out, b"id ", line.directory.as_bytes())?;
    push_standing(alloc, out, line.standing)?;
    push(out, b"\n")
}

fn push_id_lines(alloc: Global, out: &mut Vec<u8>, lines: &[IdLine]) -> Result<(), AllocError>
    ensures { OnOk result (out.new.items ≡ out.old.items ++ flat_map id_text (map id_row lines.now)) }
{
    for line in lines {
        push_id_line(alloc, out, line)?;
    }
    Ok(())
}

/// The lines of ids: how many directories a target reaches, and how the action of each stands.
#[tactic(auto, unfolding(crate::specs::IdsPrinting::ids_text))]
pub fn ids_lines(
    alloc: Global,
    name: &[u8],
    directory: &str,
    lines: &[IdLine],
) -> Result<Vec<u8>, AllocError>
    ensures { IfOk result (λ text. text.items ≡ ids_text name.now directory.now (map id_row lines.now)) }
{
    let mut out = Vec::new(alloc);
    push_word(&mut out, b"ids ", name)?;
    push_word(&mut out, b" ", directory.as_bytes())?;
    push_number(alloc, &mut out, b" ", lines.len() as u64)?;
    push(&mut out, b"\n")?;
    push_id_lines(alloc, &mut out, lines)?;
    Ok(out)
}

/// Adds how long a held text is, or that the file is removed.
fn push_content(alloc: Global, out: &mut Vec<u8>, held: &Held) -> Result<(), AllocError>
    ensures { OnOk result (out.new.items ≡ out.old.items ++ content_text held.now.text) }
{
    match held.text() {
        None => push(out, b" removed"),
        Some(text) => push_number(alloc, out, b" text ", text.as_str().len() as u64),
    }
}

/// Adds the line of a held write.
#[tactic(auto, unfolding(crate::specs::ShowPrinting::write_text))]
fn push_write(alloc: Global, out: &mut Vec<u8>, write: &Write) -> Result<(), AllocError>
    ensures { OnOk result (out.new.items ≡ out.old.items ++ write_text write.now) }
{
    let held = write.held();
    push(out, write.path().as_bytes())?;
    push_number(alloc, out, b" ", held.counter())?;
    push_number(alloc, out, b".", u64::from(held.number()))?;
    push_content(alloc, out, held)?;
    push(out, b"\n")
}

fn push_writes(alloc: Global, out: &mut Vec<u8>, writes: &[Write]) -> Result<(), AllocError>
    ensures { OnOk result (out.new.items ≡ out.old.items ++ flat_map write_text writes.now) }
{
    for write in writes {
        push_write(alloc, out, write)?;
    }
    Ok(())
}

/// The lines of what a replica holds: how many writes, and each of them.
#[tactic(auto, unfolding(crate::specs::ShowPrinting::show_text))]
pub fn show_lines(alloc: Global, name: &[u8], writes: &[Write]) -> Result<Vec<u8>, AllocError>
    ensures { IfOk result (λ text. text.items ≡ show_text name.now writes.now) }
{
    let mut out = Vec::new(alloc);
    push_word(&mut out, b"show ", name)?;
    push_number(alloc, &mut out, b" ", writes.len() as u64)?;
    push(&mut out, b"\n")?;
    push_writes(alloc, &mut out, writes)?;
    Ok(out)
}
