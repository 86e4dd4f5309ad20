//! How intervals, places and alarms are printed.
ghost use Rattle.std.specs.Prelude.{◌≡◌};
ghost use Rattle.sp_report.specs.Texts.{is_one};

use sp_effect_alarms::{Alarm, AlarmKind};
use sp_interval::Interval;
use sp_tree::Place;
use std::fmt;

/// An interval, as `[a,b]`.
#[derive(Clone, Copy)]
pub(crate) struct Bounds(pub Interval);

impl fmt::Display for Bounds {
    ghost use Rattle.std.specs.Prelude.{Some};
    ghost use Rattle.sp_report.specs.Texts.{interval_text};

    ghost output = { λ bounds. Some (interval_text bounds.0) };

    fn fmt<W: fmt::Write>(&self, f: &mut fmt::Formatter<W>) -> fmt::Result {
        match self.0 {
            Interval::Empty => f.write_str("[]"),
            Interval::Of { lo, hi } => write!(f, "[{lo},{hi}]"),
        }
    }
}

// Whether it has the number 1 alone.
fn is_one(count: Interval) -> bool
    ensures { result ≡ is_one count }
{
    matches!(count, Interval::Of { lo: 1, hi: 1 })
}

/// The count of an overrun: told where it isn't one element.
#[derive(Clone, Copy)]
struct Count(Interval);

impl fmt::Display for Count {
    ghost use Rattle.std.specs.Prelude.{Some};
    ghost use Rattle.sp_report.specs.Texts.{count_part};

    ghost output = { λ count. Some (count_part count.0) };

    fn fmt<W: fmt::Write>(&self, f: &mut fmt::Formatter<W>) -> fmt::Result {
        if is_one(self.0) {
            Ok(())
        } else {
            let bounds = Bounds(self.0);
            write!(f, ", count {bounds}")
        }
    }
}

/// What an alarm says.
#[derive(Clone, Copy)]
struct Verdict(AlarmKind);

impl fmt::Display for Verdict {
    ghost use Rattle.std.specs.Prelude.{Some};
    ghost use Rattle.sp_report.specs.Texts.{kind_text};

    ghost output = { λ verdict. Some (kind_text verdict.0) };

    fn fmt<W: fmt::Write>(&self, f: &mut fmt::Formatter<W>) -> fmt::Result {
        match self.0 {
            AlarmKind::Overrun {
                offset,
                count,
                size,
            } => {
                let (offset, count, size) = (Bounds(offset), Count(count), Bounds(size));
                write!(f, "overrun: offset {offset}{count}, size {size}")
            }
            AlarmKind::Zero { divisor } => write!(f, "zero: divisor {}", Bounds(divisor)),
            AlarmKind::Pointer { value } => write!(f, "pointer: value {}", Bounds(value)),
            AlarmKind::NoFunction => f.write_str("pointer: no function"),
            AlarmKind::Punned { access, element } => {
                write!(f, "punned: access {access}, element {element}")
            }
        }
    }
}

/// A place behind the name of its file, as `:LINE:COLUMN`.
#[derive(Clone, Copy)]
pub(crate) struct Position(pub Place);

impl fmt::Display for Position {
    ghost use Rattle.std.specs.Prelude.{Some};
    ghost use Rattle.sp_report.specs.Texts.{position_text};

    ghost output = { λ position. Some (position_text position.0) };

    fn fmt<W: fmt::Write>(&self, f: &mut fmt::Formatter<W>) -> fmt::Result {
        let Place { line, column, .. } = self.0;
        write!(f, ":{line}:{column}")
    }
}

/// The line of an alarm behind the name of its file, with its newline.
#[derive(Clone, Copy)]
pub(crate) struct AlarmTail(pub Alarm);

impl fmt::Display for AlarmTail {
    ghost use Rattle.std.specs.Prelude.{Some};
    ghost use Rattle.sp_report.specs.Texts.{alarm_text};

    ghost output = { λ tail. Some (alarm_text tail.0) };

    fn fmt<W: fmt::Write>(&self, f: &mut fmt::Formatter<W>) -> fmt::Result {
        let (position, verdict) = (Position(self.0.place), Verdict(self.0.kind));
        write!(f, "{position}: {verdict}\n")
    }
}
