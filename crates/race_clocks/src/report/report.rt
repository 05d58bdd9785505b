//! The lines of races, behind the report of their run.
ghost use Rattle.std.specs.Prelude.{◌≡◌, ◌≤◌, ◌∷◌, true, length, vec_capacity, OnOk, OnErr};
ghost use Rattle.std.specs.List.{flat_map};
ghost use Rattle.sync_outside.specs.Bytes.{Appends, AppendsFront};
ghost use Rattle.sync_outside.specs.Faults.{Rose};
ghost use Rattle.script_calls.specs.Outcome.{shows_to};
ghost use Rattle.workload.specs.declared.limits.TheConstants.{MAX_KEYS};
ghost use Rattle.workload_text.specs.Adding.{Adds, HasRoom};
ghost use Rattle.run_report.specs.Writes.{Wrote, WroteUpTo};
ghost use Rattle.race_clocks.specs.RaceText.{count_line, lines_with_races, place_text, race_line, report_with_races};

use crate::race::{CallPlace, Race};
use itoa::Buffer;
use run_report::laws::what_is_written_adds_up;
use run_report::report::report;
use script_calls::Outcome;
use sync_outside::{Failed, Sink};
use workload::Workload;
use workload::object::name_at;
use workload_text::{LINE_ROOM, push, push_word};

/// Adds the place of a call behind a space.
fn push_place(line: &mut Vec<u8>, place: CallPlace)
    requires { HasRoom line.old 42 }
    ensures { Adds line.old line.new (32 ∷ place_text place) 42 }
{
    let mut digits = Buffer::new();
    push_word(line, digits.format(place.worker).as_bytes());
    push(line, b".");
    push(line, digits.format(place.index).as_bytes());
}

/// Makes the line of a race.
fn set_race_line(line: &mut Vec<u8>, workload: &Workload, race: &Race)
    requires { LINE_ROOM ≤ vec_capacity line.old }
    ensures line { line.new.items ≡ race_line workload.now race.now }
    ensures room { LINE_ROOM ≤ vec_capacity line.new }
{
    line.clear();
    push(line, b"race");
    push_word(line, name_at(workload.objects(), race.variable));
    push_place(line, race.first);
    push_place(line, race.second);
    push(line, b"\n");
}

/// Makes the line that says how many races there are.
fn set_count_line(line: &mut Vec<u8>, races: &[Race])
    requires { LINE_ROOM ≤ vec_capacity line.old }
    ensures line { line.new.items ≡ count_line races.now }
    ensures room { LINE_ROOM ≤ vec_capacity line.new }
{
    let mut digits = Buffer::new();
    line.clear();
    push(line, b"races");
    push_word(line, digits.format(races.len()).as_bytes());
    push(line, b"\n");
}

/// Writes a line for each race.
fn write_race_lines<O: Sink>(
    workload: &Workload,
    races: &[Race],
    line: &mut Vec<u8>,
    out: &mut O,
) -> Result<(), Failed>
    requires room { LINE_ROOM ≤ vec_capacity line.old }
    ensures ok { OnOk result (Appends (O.contents out.old) (O.contents out.new) (flat_map (race_line workload.now) races.now)) }
    ensures err { OnErr result (AppendsFront (O.contents out.old) (O.contents out.new) (flat_map (race_line workload.now) races.now)) }
    ensures writes { OnOk result (Wrote (O.writes out.old) (O.writes out.new) (length races.now)) }
    ensures cut { OnErr result (WroteUpTo (O.writes out.old) (O.writes out.new) (length races.now)) }
    ensures failed { OnErr result (Rose (O.faults out.old) (O.faults out.new)) }
    ensures faults { O.faults out.old ≤ O.faults out.new }
    ensures room { LINE_ROOM ≤ vec_capacity line.new }
{
    what_is_written_adds_up();
    for race in races {
        set_race_line(line, workload, race);
        out.write(line)?;
    }
    Ok(())
}

/// Writes the report of what a run came to, and behind it its races: a line for each, and one that says how many there are.
/// Each line is one write. It takes no memory: a line is made in the buffer `line`, which has room for 262,144 bytes.
pub fn report_with_races<O: Sink>(
    workload: &Workload,
    outcome: &Outcome,
    races: &[Race],
    line: &mut Vec<u8>,
    out: &mut O,
) -> Result<(), Failed>
    requires pairs { shows_to MAX_KEYS outcome.now ≡ true }
    requires room { LINE_ROOM ≤ vec_capacity line.old }
    ensures ok { OnOk result (Appends (O.contents out.old) (O.contents out.new) (report_with_races workload.now outcome.now races.now)) }
    ensures err { OnErr result (AppendsFront (O.contents out.old) (O.contents out.new) (report_with_races workload.now outcome.now races.now)) }
    ensures writes { OnOk result (Wrote (O.writes out.old) (O.writes out.new) (lines_with_races workload.now outcome.now races.now)) }
    ensures cut { OnErr result (WroteUpTo (O.writes out.old) (O.writes out.new) (lines_with_races workload.now outcome.now races.now)) }
    ensures failed { OnErr result (Rose (O.faults out.old) (O.faults out.new)) }
    ensures faults { O.faults out.old ≤ O.faults out.new }
{
    what_is_written_adds_up();
    report(workload, outcome, line, out)?;
    write_race_lines(workload, races, line, out)?;
    set_count_line(line, races);
    out.write(line)
}
