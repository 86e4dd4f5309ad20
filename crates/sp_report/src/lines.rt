//! The lines of alarms in order, each once, and their count.
ghost use Rattle.std.specs.Prelude.{◌≡◌, ◌++◌, IfOk, OnOk, map, string_bytes, slice_get};
ghost use Rattle.std.specs.BTreeSet.{insert_key};
ghost use Rattle.std.specs.List.{flat_map};
ghost use Rattle.sp_report.specs.Texts.{name_of, file_name, position_text, alarm_text};
ghost use Rattle.sp_report.specs.Report.{kind_rank, line_of, line_cmp, line_text, lines_of, count_text, report_text, report_count};
ghost use Rattle.sp_report.specs.Lines.{rank_number, seen};

use crate::texts::{AlarmTail, Position};
use sp_effect_alarms::{Alarm, AlarmKind};
use sp_tree::{Names, Place};
use std::alloc::{AllocError, Global};
use std::collections::BTreeSet;

/// The kinds of lines, in their order.
#[derive(Clone, Copy, PartialEq, Eq, PartialOrd, Ord)]
enum Rank {
    Overrun,
    Zero,
    Pointer,
    Punned,
}

impl Rank {
    ghost use Rattle.std.specs.Prelude.{◌≡◌};
    ghost use Rattle.sp_report.specs.Report.{kind_rank};
    ghost use Rattle.sp_report.specs.Lines.{rank_number};

    fn of(kind: AlarmKind) -> Rank
        ensures { rank_number result ≡ kind_rank kind }
    {
        match kind {
            AlarmKind::Overrun { .. } => Rank::Overrun,
            AlarmKind::Zero { .. } => Rank::Zero,
            AlarmKind::Pointer { .. } | AlarmKind::NoFunction => Rank::Pointer,
            AlarmKind::Punned { .. } => Rank::Punned,
        }
    }
}

/// A line of the report: the name of its file, what it is sorted by, and what follows the name.
#[derive(PartialEq, Eq, PartialOrd, Ord, Drop)]
pub(crate) struct Line<'a> {
    name: &'a [u8],
    line: u64,
    column: u64,
    rank: Rank,
    tail: String,
}

/// The bytes of a name by its number.
pub(crate) fn name_of(names: &Names, number: u32) -> &[u8]
    ensures { result.now ≡ name_of (slice_get names.now number) }
{
    names.get(number).unwrap_or(b"".as_slice())
}

/// Adds a place, as `NAME:LINE:COLUMN`.
pub fn add_place(
    alloc: Global,
    names: &Names,
    place: Place,
    text: &mut Vec<u8>,
) -> Result<(), AllocError>
    ensures { OnOk result (text.new.items ≡
        text.old.items ++ (file_name names.now place ++ position_text place)) }
{
    text.extend_from_slice(name_of(names, place.name))?;
    let position = format!(in alloc; "{}", Position(place))?;
    text.extend_from_slice(position.as_bytes())?;
    Ok(())
}

// The line of an alarm behind the name of its file.
fn tail_of(alloc: Global, alarm: Alarm) -> Result<String, AllocError>
    ensures { IfOk result (λ s. string_bytes s ≡ alarm_text alarm) }
{
    format!(in alloc; "{}", AlarmTail(alarm))
}

// Adds the line of an alarm to the lines of others.
fn add_line<'a>(
    alloc: Global,
    lines: &mut BTreeSet<Line<'a>>,
    names: &'a Names,
    alarm: Alarm,
) -> Result<(), AllocError>
    ensures { OnOk result (map seen lines.new.keys ≡
        insert_key line_cmp (map seen lines.old.keys) (line_of names.now alarm)) }
{
    let tail = tail_of(alloc, alarm)?;
    lines.insert(Line {
        name: name_of(names, alarm.place.name),
        line: alarm.place.line,
        column: alarm.place.column,
        rank: Rank::of(alarm.kind),
        tail,
    })?;
    Ok(())
}

/// The lines of alarms, in order, each once.
pub(crate) fn lines_of<'a>(
    alloc: Global,
    names: &'a Names,
    alarms: &[Alarm],
) -> Result<BTreeSet<Line<'a>>, AllocError>
    ensures { IfOk result (λ lines. map seen lines.keys ≡ lines_of names.now alarms.now) }
{
    let mut lines = BTreeSet::new(alloc);
    for alarm in alarms {
        add_line(alloc, &mut lines, names, *alarm)?;
    }
    Ok(lines)
}

/// Adds a line to a text.
pub(crate) fn add_text(text: &mut Vec<u8>, line: &Line<'_>) -> Result<(), AllocError>
    ensures { OnOk result (text.new.items ≡ text.old.items ++ line_text (seen line.now)) }
{
    text.extend_from_slice(line.name)?;
    text.extend_from_slice(line.tail.as_bytes())?;
    Ok(())
}

// The text of the lines, in order.
fn joined(alloc: Global, lines: &BTreeSet<Line<'_>>) -> Result<Vec<u8>, AllocError>
    ensures { IfOk result (λ text. text.items ≡ flat_map line_text (map seen lines.now.keys)) }
{
    let mut text = Vec::new(alloc);
    for line in lines.iter() {
        add_text(&mut text, line)?;
    }
    Ok(text)
}

// `1 alarm` or `N alarms`, and a newline.
fn count_text(alloc: Global, count: usize) -> Result<String, AllocError>
    ensures { IfOk result (λ s. string_bytes s ≡ count_text count) }
{
    if count == 1 {
        String::from_str(alloc, "1 alarm\n")
    } else {
        format!(in alloc; "{count} alarms\n")
    }
}

/// A report: its text, and how many alarms it lists.
#[derive(Drop)]
pub struct Report {
    pub text: Vec<u8>,
    pub count: usize,
}

/// The report of alarms: a line for each, sorted by file, line, column, kind and bytes, each once,
/// and then their count.
pub fn print_alarms(alloc: Global, names: &Names, alarms: &[Alarm]) -> Result<Report, AllocError>
    ensures text { IfOk result (λ r. r.text.items ≡ report_text names.now alarms.now) }
    ensures count { IfOk result (λ r. r.count ≡ report_count names.now alarms.now) }
{
    let lines = lines_of(alloc, names, alarms)?;
    let count = lines.len();
    let mut text = joined(alloc, &lines)?;
    text.extend_from_slice(count_text(alloc, count)?.as_bytes())?;
    Ok(Report { text, count })
}
